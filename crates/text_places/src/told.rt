//! What a note tells, and where.

/// What a note speaks of: a whole file, the line in which a byte stands, or the place of a byte.
#[derive(Clone, Copy)]
pub enum Spot {
    Whole,
    Line(usize),
    Byte(usize),
}

/// What is wrong, and where it stands in its file.
#[derive(Drop)]
pub struct Told {
    pub spot: Spot,
    pub text: String,
}

impl Told {
    /// What is wrong with a whole file.
    pub fn whole(text: String) -> Told {
        Told {
            spot: Spot::Whole,
            text,
        }
    }

    /// What is wrong at a byte.
    pub fn at(byte: usize, text: String) -> Told {
        Told {
            spot: Spot::Byte(byte),
            text,
        }
    }

    /// What is wrong at a byte, if its number is known.
    pub fn perhaps_at(byte: Option<usize>, text: String) -> Told {
        match byte {
            Some(byte) => Told::at(byte, text),
            None => Told::whole(text),
        }
    }

    /// What is wrong in the line of a byte, if its number is known.
    pub fn in_line(byte: Option<usize>, text: String) -> Told {
        match byte {
            Some(byte) => Told {
                spot: Spot::Line(byte),
                text,
            },
            None => Told::whole(text),
        }
    }
}
