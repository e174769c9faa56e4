//! The texts that a command has read.

ghost use Rattle.std.specs.Prelude.{◌≡◌};

/// The texts that a command has read, as far as it came: what the file of the rules held, that of the design, or the text that was made in its place, that of the layout, and those of a
/// netlist that comes in and of its cells. A text that was read and refused is kept too.
#[derive(Debug, Drop)]
pub struct Texts {
    pub rules: Option<Vec<u8>>,
    pub design: Option<Vec<u8>>,
    pub cif: Option<Vec<u8>>,
    pub netlist: Option<Vec<u8>>,
    pub cells: Option<Vec<u8>>,
}

impl Texts {
    /// None of them. Takes no memory.
    pub fn new() -> Texts
        ensures { result ≡ record { rules = None; design = None; cif = None; netlist = None; cells = None } }
    {
        Texts {
            rules: None,
            design: None,
            cif: None,
            netlist: None,
            cells: None,
        }
    }
}
