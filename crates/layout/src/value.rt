// The words that stand for a case: tags, what a row is, lifecycles, states and classes of objects, operations, routes (docs/formats.md, "The state's words").
// They stay numbers: a lent word may be any number, so code compares what it reads with these, and it stores them as they stand.
// The format's version.
pub const FORMAT_VERSION: u64 = 1;

// Tag of a slot.
pub const TAG_VACANT: u64 = 0;

pub const TAG_RESERVED: u64 = 1;

pub const TAG_TRANSFER_RESERVED: u64 = 2;

pub const TAG_OCCUPIED: u64 = 3;

// What a row is.
pub const KIND_RESERVATION: u64 = 1;

pub const KIND_CLAIM: u64 = 2;

pub const KIND_PARCEL: u64 = 3;

pub const KIND_PLAN: u64 = 4;

// Lifecycle of a table.
pub const LIFE_ACTIVE: u64 = 0;

pub const LIFE_TEARING_DOWN: u64 = 1;

pub const LIFE_RETIRED: u64 = 2;

// State of an object.
pub const STAGE_NEW: u64 = 0;

pub const STAGE_ACTIVE: u64 = 1;

pub const STAGE_RETIRED: u64 = 2;

// Class of an object.
pub const CLASS_LEAF: u64 = 0;

pub const CLASS_RENDEZVOUS_ONLY: u64 = 1;

pub const CLASS_NEVER: u64 = 2;

// Operation of a claim's entry.
pub const OPERATION_MOVE: u64 = 0;

pub const OPERATION_COPY: u64 = 1;

// Route of a transfer.
pub const ROUTE_BUFFERED: u64 = 0;

pub const ROUTE_RENDEZVOUS: u64 = 1;

pub const ROUTE_STAGED_STARTUP: u64 = 2;

// The flags of document 01, as a word: the largest that a handle may have.
pub const KNOWN_FLAGS: u64 = 3;
