//! How the numbers of a text are written.

ghost use Rattle.std.specs.Prelude.{◌≡◌};
ghost use Rattle.yal_reader.specs.Numbers.{numbers_of};

/// How the numbers of a text are written, and how many units they are. In front of the digits a `-` may stand.
#[derive(Clone, Copy, Debug, PartialEq, Eq)]
pub enum Numbers {
    /// One or more digits, which are so many units.
    Whole,
    /// One or more digits, behind which a point and one or more digits may stand. Of these so many count, which makes 10 to this power units of
    /// one, and those past them are 0.
    Decimal(u32),
}

/// How the numbers of a design are written under rules: as whole ones in version 1, and with so many decimals from version 2 on. Takes no memory.
pub fn numbers_of(version: u32, decimals: u32) -> Numbers
    ensures { result ≡ numbers_of version decimals }
{
    if version == 1 {
        return Numbers::Whole;
    }
    Numbers::Decimal(decimals)
}
