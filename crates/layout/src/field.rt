// The fields of a state's records, by their word (docs/formats.md, "The state's words").
// They stay numbers: each is added to the place of its record's first word, and the format gives them to whoever reads the words from C.
// Of the header.
pub const ROOT_VERSION: u64 = 0;

pub const ROOT_TABLES: u64 = 1;

pub const ROOT_FRAMES: u64 = 2;

pub const ROOT_OBJECTS: u64 = 3;

pub const ROOT_ROWS: u64 = 4;

pub const ROOT_NEXT_ID: u64 = 5;

pub const ROOT_USED_ROWS: u64 = 6;

pub const ROOT_FREE_FRAMES: u64 = 7;

pub const ROOT_PAGES: u64 = 8;

// Of a table's head.
pub const HEAD_PAGE_LIMIT: u64 = 0;

pub const HEAD_MASK: u64 = 1;

pub const HEAD_LIFECYCLE: u64 = 2;

pub const HEAD_CURSOR: u64 = 3;

pub const HEAD_EPOCH: u64 = 4;

pub const HEAD_PAGES: u64 = 5;

pub const HEAD_FIRST_FREE: u64 = 6;

pub const HEAD_FREE_SLOTS: u64 = 7;

pub const HEAD_FIRST_EMPTY: u64 = 8;

pub const HEAD_FIRST_DETACHED: u64 = 9;

pub const HEAD_FIRST_ENTRY: u64 = 10;

// Of a page entry.
pub const ENTRY_FRAME: u64 = 0;

pub const ENTRY_HIGH: u64 = 1;

pub const ENTRY_BUSY: u64 = 2;

pub const ENTRY_NEXT: u64 = 3;

pub const ENTRY_PREVIOUS: u64 = 4;

// Of a slot.
pub const SLOT_TAG: u64 = 0;

pub const SLOT_GENERATION: u64 = 1;

// Of a vacant slot.
pub const SLOT_NEXT_FREE: u64 = 2;

pub const SLOT_PREVIOUS_FREE: u64 = 3;

// Of a reserved or transfer reserved slot.
pub const SLOT_PLACE: u64 = 2;

pub const SLOT_POSITION: u64 = 3;

// Of an occupied slot.
pub const SLOT_OBJECT: u64 = 2;

pub const SLOT_RIGHTS: u64 = 3;

pub const SLOT_FLAGS: u64 = 4;

// Out of use.
pub const SLOT_UNUSED: u64 = 5;

// Of an object.
pub const OBJECT_KOID: u64 = 0;

pub const OBJECT_KIND: u64 = 1;

pub const OBJECT_CLASS: u64 = 2;

pub const OBJECT_SUPPORTED: u64 = 3;

pub const OBJECT_EXPORTABLE: u64 = 4;

pub const OBJECT_STAGE: u64 = 5;

pub const OBJECT_ACTIVE: u64 = 6;

pub const OBJECT_LIMIT: u64 = 7;

// Of a pair of the row index: the place of the row of a rank, and the rank of the row in a place.
pub const INDEX_PLACE: u64 = 0;

pub const INDEX_RANK: u64 = 1;

// Of a row's first block.
pub const ROW_ID: u64 = 0;

pub const ROW_KIND: u64 = 1;

pub const ROW_TABLE: u64 = 2;

pub const ROW_LENGTH: u64 = 3;

// Of a plan: its count and its kept epoch.
pub const ROW_COUNT: u64 = 4;

pub const ROW_EPOCH: u64 = 5;

// Of an entry of a row. Of a reservation.
pub const ITEM_SLOT: u64 = 0;

// Of a claim.
pub const ITEM_OPERATION: u64 = 0;

pub const ITEM_MOVED: u64 = 1;

// Of a claim or a parcel.
pub const ITEM_OBJECT: u64 = 2;

pub const ITEM_RIGHTS: u64 = 3;

pub const ITEM_FLAGS: u64 = 4;

// Of a claim's move.
pub const ITEM_GRANTED: u64 = 5;

// Of a plan.
pub const ITEM_PAGE: u64 = 0;

pub const ITEM_FRAME: u64 = 1;

// Of a plan, in its first entry alone, in use or not: the kept number of free slots.
pub const ITEM_FREE_SLOTS: u64 = 2;
