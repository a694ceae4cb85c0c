// The regions of a state's words, by their number (docs/formats.md, "The state's words").
// They stay numbers: a region's number is its place in the list of the regions (specs/Layout.antt) and a part of each address.
// The header.
pub const REGION_ROOT: u64 = 0;

// Table heads.
pub const REGION_HEAD: u64 = 1;

// Page entries.
pub const REGION_ENTRY: u64 = 2;

// Frame owners.
pub const REGION_OWNER: u64 = 3;

// Free frames in each 16, 256 and 4,096.
pub const REGION_GROUP_16: u64 = 4;

pub const REGION_GROUP_256: u64 = 5;

pub const REGION_GROUP_4096: u64 = 6;

// Frames: their slots.
pub const REGION_CELL: u64 = 7;

// Objects.
pub const REGION_OBJECT: u64 = 8;

// The row index.
pub const REGION_INDEX: u64 = 9;

// Rows: the row, then its items.
pub const REGION_ROW: u64 = 10;
