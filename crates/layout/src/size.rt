// The sizes of a state and its limits (docs/formats.md, "The state's words"; document 01, "Limits").
// Slots of a page.
pub const PAGE_SIZE: u64 = 64;

// Slots of page 262,143, the last of the largest table.
pub const LAST_PAGE_SIZE: u64 = 63;

// The number of that page.
pub const LAST_PAGE: u64 = 262143;

// The most pages of a table.
pub const PAGES_MAX: u64 = 262144;

// The most slots of a table: the last is slot 62 of the last page.
pub const SLOTS_MAX: u64 = 16777215;

// The most tables, frames, objects and rows of a state.
pub const TABLES_MAX: u64 = 16;

pub const FRAMES_MAX: u64 = 65535;

pub const OBJECTS_MAX: u64 = 4096;

pub const ROWS_MAX: u64 = 256;

// The owner word of a frame that a plan holds is this and the place of the plan's row: above the number of any page entry plus 1.
pub const PLAN_OWNER: u64 = TABLES_MAX * PAGES_MAX + 1;

// The most entries of a row.
pub const BATCH_MAX: u64 = 64;

// The largest number of 32 bits.
pub const NUMBER_32_MAX: u64 = 4294967295;

// Words of the header, a head, a page entry, a slot, an object, a pair of the row index and a block of a row.
pub const ROOT_SIZE: u64 = 16;

pub const HEAD_SIZE: u64 = 16;

pub const ENTRY_SIZE: u64 = 5;

pub const SLOT_SIZE: u64 = 6;

pub const OBJECT_SIZE: u64 = 8;

pub const INDEX_SIZE: u64 = 2;

pub const BLOCK_SIZE: u64 = 6;

// Words of a frame.
pub const FRAME_SIZE: u64 = PAGE_SIZE * SLOT_SIZE;

// Blocks of a row: its own and one for each entry.
pub const ROW_BLOCKS: u64 = BATCH_MAX + 1;

// Words of a row.
pub const ROW_SIZE: u64 = ROW_BLOCKS * BLOCK_SIZE;
