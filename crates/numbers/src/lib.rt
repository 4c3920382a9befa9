// The limits of document 01, named as in the definitions (defs/specs/Meaning/Limits). That the two agree is proved with each function
// that uses one. No function.
#![tactic(auto)]

pub const MOST_VERTICES: usize = 64;

// Words of an outline of 3 to 64 vertices.
pub const LEAST_WORDS: usize = 6;

pub const MOST_WORDS: usize = 128;

pub const MOST_COORDINATE: u16 = 16000;

pub const MOST_TURN: u16 = 3;

pub const MOST_MASK: u16 = 15;

pub const MOST_RESOLUTION: u16 = 400;

// Words of the longest cut list: the count, and 200 pieces of a count, a mask and 64 vertices.
pub const LIST_WORDS: usize = 26001;

// Words of an entry in the output of lay.
pub const ENTRY_WORDS: usize = 4;

// Runs of one column, with room for one more: runs that do not touch, in at most MOST_COORDINATE rows.
pub const RUN_ROOM: usize = 8001;
