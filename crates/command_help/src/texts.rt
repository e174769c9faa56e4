//! The words of the texts of help.

/// The commands in short.
pub const OVERVIEW: &str = "\
cellroute lays out rows of standard cells, and checks layouts.

  cellroute route DESIGN RULES OUT [OPTIONS]   lay a design out
  cellroute check DESIGN RULES CIF [OPTIONS]   judge a layout
  cellroute make SEED N RULES OUT [OPTIONS]    lay out a design that is made
  cellroute draw CIF OUT [OPTIONS]             draw a picture of a layout
  cellroute import BLIF CELLS OUT [OPTIONS]    make a design of a netlist
  cellroute help [COMMAND]                     print this text, or that of a command
  cellroute version                            print the version

DESIGN is a file in MCNC YAL, RULES one in TOML, and CIF is a layout in Caltech
Intermediate Form. OUT is the file to write: a layout too, but a picture in SVG for draw,
and a design in YAL for import. BLIF is a netlist, and CELLS has its cells' modules in YAL.
The options are told by the help of each command.

Status 0: done, or the layout is good. Status 1: the layout is not good. Any other:
one line on the standard output says why, and a note on the standard error says where.
";

/// The command `route`.
pub const ROUTE_HELP: &str = "\
cellroute route DESIGN RULES OUT [OPTIONS]

Reads a design from DESIGN and the rules of the process from RULES, places its cells in
rows, joins each net by wires, writes the layout to OUT, and prints it in short.

  --rows K       as many rows, from 1 to 512; else as many as make it about square
  --seed N       the seed of annealing, below 2^64; else 1
  --tries N      the best of as many placements, from 1 to 64, by their area; else 1
  --style NAME   how channels are swept: best, deft, near, lean or high; else best
  --edge         route channels without vertical constraints by left edges
  --ports        make the terminals of the PARENT cells at the edges, wired to their nets
  --labels       write labels with the names of cells and nets, as viewers show them
  --progress     notes on the standard error of how far it has come
  -q, --quiet    no notes on the standard error
";

/// The command `check`.
pub const CHECK_HELP: &str = "\
cellroute check DESIGN RULES CIF [OPTIONS]

Judges the layout in CIF for the design in DESIGN under the rules in RULES: prints a line
for each thing that is wrong with it, and their number. It writes no file but FILE.

  --markers FILE write it to FILE too, as a report database of KLayout
  --ports        judge it for the design with the terminals of the PARENT as cells
  --labels       take a call as the cell whose label lies in its outline
  -q, --quiet    no notes on the standard error
";

/// The command `make`.
pub const MAKE_HELP: &str = "\
cellroute make SEED N RULES OUT [OPTIONS]

Makes a design of N instances, from 1 to 20000, from the number SEED, below 2^64, and lays
it out as route does, with SEED as the seed of annealing.

  --tries N      the best of as many placements, from 1 to 64, by their area; else 1
  --progress     notes on the standard error of how far it has come
  -q, --quiet    no notes on the standard error
";

/// The command `draw`.
pub const DRAW_HELP: &str = "\
cellroute draw CIF OUT [OPTIONS]

Reads the layout in CIF, and writes a picture of it to OUT, in SVG 1.1.

  --box X0,Y0,X1,Y1
                 the part within these sides, in microns with up to two decimals; else
                 all; --box=-1,0,5,5 where the first is below 0
  --rules RULES  name the layers of the rules in RULES by what they are for
  -q, --quiet    no notes on the standard error
";

/// The command `import`.
pub const IMPORT_HELP: &str = "\
cellroute import BLIF CELLS OUT [OPTIONS]

Reads a netlist from BLIF and the modules of its cells, in YAL, from CELLS, and writes a
design to OUT, in YAL: the text of CELLS, and a PARENT behind it with a call for each gate.

  --decimals D   the numbers in CELLS have up to D decimals, from 0 to 4; else 0
  -q, --quiet    no notes on the standard error
";

/// The version, by which also the first line of a layout goes.
pub const VERSION: &str = "cellroute 1\n";
