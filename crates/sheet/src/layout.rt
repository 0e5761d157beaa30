// The numbers of the event sheet, each named once. 01, 'The event sheet' and 'Numbers returned'; specs/Layout.antt has the same.
// A block is 128 words of four bytes.
pub const BLOCK_WORDS: usize = 128;

pub const BLOCK_BYTES: usize = 512;

// The last word of a block is its check.
pub const CHECK_AT: usize = 127;

pub const CHECK_OFFSET: usize = CHECK_AT * 4;

// What the words of a block add up to, less the block's number.
pub const CHECK_BASE: u32 = 317944;

// A sheet is 1 to 64 blocks.
pub const MOST_BLOCKS: usize = 64;

pub const MOST_BYTES: usize = MOST_BLOCKS * BLOCK_BYTES;

// Events in a full block, and in a full sheet.
pub const PER_BLOCK: usize = 60;

pub const MOST_ENTRIES: usize = 3780;

// Word 0 of block 0: how many tracks a sheet is of. 02, item 7.
pub const ONE_TRACK: u32 = 1;

pub const TWO_TRACKS: u32 = 2;

// The longest table of two tracks: 32 kinds of each, and the circuit.
pub const MOST_TABLE: usize = 65;

// The circuit kinds are 0, polarised, and 1, vibrated.
pub const LAST_CIRCUIT: u32 = 1;

// The answer of an event that is not yet answered.
pub const UNANSWERED: u32 = 31;

// The numbers returned: `Refusal` has values beside some of them, so it cannot carry them itself.
pub const LENGTH_WRONG: u32 = 18;

pub const CHECK_WRONG: u32 = 19;

pub const CONTENTS_WRONG: u32 = 20;

pub const ROOM_SHORT: u32 = 21;

// 02, item 6: the upper sixteen bits of an event word are not zero.
pub const UPPER_BITS: u32 = 24;
