//! Sample modules, as texts. Each STANDARD one is a cell 40 units high under the sample rules.

/// A cell of one column, `INV`, with a pin below.
pub const INVERTER: &str =
    "MODULE INV;\nTYPE STANDARD;\nDIMENSIONS 0 0 8 0 8 40 0 40;\nIOLIST;\na I 4 0 3 POLY;\nENDIOLIST;\nENDMODULE;\n";

/// A cell of one column, `BUF`, with a pin above.
pub const BUFFER: &str =
    "MODULE BUF;\nTYPE STANDARD;\nDIMENSIONS 0 0 8 0 8 40 0 40;\nIOLIST;\ny O 4 40 3 POLY;\nENDIOLIST;\nENDMODULE;\n";

/// A cell of one column, `THR`, with one terminal that has a position below and one above.
pub const THROUGH: &str =
    "MODULE THR;\nTYPE STANDARD;\nDIMENSIONS 0 0 8 0 8 40 0 40;\nIOLIST;\nt B 4 0 3 POLY;\nt B 4 40 3 POLY;\nENDIOLIST;\nENDMODULE;\n";

/// A cell of one column, `PWI`, with a pin below and two power terminals.
pub const POWERED: &str =
    "MODULE PWI;\nTYPE STANDARD;\nDIMENSIONS 0 0 8 0 8 40 0 40;\nIOLIST;\na I 4 0 3 POLY;\nvdd PWR;\nvss GND 0 20;\nENDIOLIST;\nENDMODULE;\n";

/// A cell of two columns, `DRV`, with a power terminal first, a pin below in the first column and one above in the second.
pub const DRIVER: &str =
    "MODULE DRV;\nTYPE STANDARD;\nDIMENSIONS 0 0 16 0 16 40 0 40;\nIOLIST;\nvdd PWR;\na I 4 0 3 POLY;\ny O 12 40 3 POLY;\nENDIOLIST;\nENDMODULE;\n";

/// A GENERAL module, `ring`, which no instance may call.
pub const RING: &str =
    "MODULE ring;\nTYPE GENERAL;\nDIMENSIONS 0 x;\nIOLIST;\nanything at all;\nENDIOLIST;\nENDMODULE;\n";

/// INV, BUF, THR and DRV.
pub const CELLS: &str =
    "MODULE INV;\nTYPE STANDARD;\nDIMENSIONS 0 0 8 0 8 40 0 40;\nIOLIST;\na I 4 0 3 POLY;\nENDIOLIST;\nENDMODULE;\nMODULE BUF;\nTYPE STANDARD;\nDIMENSIONS 0 0 8 0 8 40 0 40;\nIOLIST;\ny O 4 40 3 POLY;\nENDIOLIST;\nENDMODULE;\nMODULE THR;\nTYPE STANDARD;\nDIMENSIONS 0 0 8 0 8 40 0 40;\nIOLIST;\nt B 4 0 3 POLY;\nt B 4 40 3 POLY;\nENDIOLIST;\nENDMODULE;\nMODULE DRV;\nTYPE STANDARD;\nDIMENSIONS 0 0 16 0 16 40 0 40;\nIOLIST;\nvdd PWR;\na I 4 0 3 POLY;\ny O 12 40 3 POLY;\nENDIOLIST;\nENDMODULE;\n";
