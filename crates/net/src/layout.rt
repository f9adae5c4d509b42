// Widths and limits of document 01's files, each stated once.

// Bytes of the head: version, pair count and three pairs.
pub const HEAD_BYTES: usize = 28;

// Bytes of a node, a wire, an obstacle of version 1 and of the newest version, a jumper list entry and a piece record.
pub const NODE_BYTES: usize = 5;

pub const WIRE_BYTES: usize = 3;

pub const FIRST_OBSTACLE_BYTES: usize = 8;

pub const OBSTACLE_BYTES: usize = 9;

pub const ENTRY_BYTES: usize = 3;

pub const RECORD_BYTES: usize = 12;

// The most nodes, obstacles and layers (or stages), and the greatest flags.
pub const MOST_NODES: usize = 256;

pub const MOST_OBSTACLES: usize = 256;

pub const MOST_LAYERS: u8 = 16;

pub const MOST_FLAGS: u8 = 3;

// The versions of net files, and their pair count.
pub const FIRST_VERSION: u16 = 1;

pub const NEWEST_VERSION: u16 = 2;

pub const PAIR_COUNT: u16 = 3;

// Where the head has them: version, pair count, the pairs; a pair is an offset and, behind it, a length.
pub const VERSION_AT: usize = 0;

pub const PAIR_COUNT_AT: usize = 2;

pub const PAIRS_AT: usize = 4;

pub const PAIR_BYTES: usize = 8;

pub const LENGTH_AT: usize = 4;
