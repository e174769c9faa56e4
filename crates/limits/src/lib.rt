//! The limits of the program by name. Where a clause or a definition speaks of one, it names it.
#![tactic(auto)]

// What files may have.

/// The bytes that a file of rules may have.
pub const MOST_RULES_BYTES: u64 = 16_777_216;

/// The bytes that a file of a design may have.
pub const MOST_DESIGN_BYTES: u64 = 16_777_216;

/// The bytes that a file of a layout may have.
pub const MOST_LAYOUT_BYTES: u64 = 268_435_456;

/// The bytes of a piece, in which files are read and written.
pub const PIECE: usize = 4096;

// What rules may state.

/// The greatest length in rules, in units, and the most centimicrons of a unit.
pub const MOST_LENGTH: u32 = 1000;

/// The letters that the word of the vertical layer may have in YAL.
pub const MOST_WORD: usize = 32;

/// The decimals that the numbers of a design may have.
pub const MOST_DECIMALS: u32 = 4;

/// The greatest temperature at which annealing may begin.
pub const MOST_TEMPERATURE: u32 = 1_000_000_000;

/// The stages that annealing may have.
pub const MOST_STAGES: u32 = 1000;

/// The changes that a stage of annealing may try for each instance.
pub const MOST_MOVES: u32 = 1000;

/// The greatest weight of a part of the cost of rows.
pub const MOST_WEIGHT: u32 = 1000;

// What a design may have.

/// The greatest coordinate of a YAL text, and the least one below zero.
pub const MOST_COORDINATE: u32 = 100_000_000;

/// The instances that a design may have.
pub const MOST_INSTANCES: usize = 20_000;

/// The pins that a design may have.
pub const MOST_PINS: usize = 200_000;

/// The columns that a kind may have.
pub const MOST_KIND_COLUMNS: u32 = 100_000_000;

/// The greatest height of cells, in units.
pub const MOST_HEIGHT: u32 = 200_000_000;

// What a layout may have.

/// The rows that a command may ask for.
pub const MOST_ROWS: u16 = 512;

/// The rows in which a design may stand: those that are asked for, or those that make it about square.
pub const MOST_PLACED_ROWS: usize = 514;

/// The changes that annealing may try.
pub const MOST_CHANGES: u64 = 50_000_000;

/// The columns that a layout, and so a channel, may have.
pub const MOST_COLUMNS: usize = 4_000_000;

/// The greatest width and height of a layout, in centimicrons.
pub const MOST_SIZE: u64 = 1_000_000_000;

// What a layout that is read or judged may have.

/// The greatest number that a command of CIF may state, and the least one below zero.
pub const MOST_NUMBER: u64 = 1_000_000_000_000;

/// The shapes that a layout may have that is read.
pub const MOST_SHAPES: u32 = 4_000_000;

/// How far the shapes of a layout may lie from its origin that is read, in half centimicrons.
pub const FARTHEST: u64 = 4_000_000_000;

/// How deep the calls of symbols of a layout may nest that is read.
pub const DEEPEST: u32 = 64;

/// The pairs of a kind that are told of a layout.
pub const MOST_PAIRS: usize = 1000;
