// Op numbers of requests (docs/formats.md, "Ops").
// They stay numbers: a list's word may be any number, and the C header gives these.
// The number of no op.
pub const OP_NONE: u64 = 0;

pub const OP_NEW_OBJECT: u64 = 1;

pub const OP_DUPLICATE: u64 = 2;

pub const OP_RELEASE_PARCEL: u64 = 3;

pub const OP_RETIRE_OBJECT: u64 = 4;

pub const OP_RESERVE: u64 = 5;

pub const OP_TRIM: u64 = 6;

pub const OP_ABORT: u64 = 7;

pub const OP_PUBLISH: u64 = 8;

pub const OP_GET_INFO: u64 = 9;

pub const OP_RESOLVE: u64 = 10;

pub const OP_REPLACE: u64 = 11;

pub const OP_CLOSE: u64 = 12;

pub const OP_SCAN_HANDLES: u64 = 13;

pub const OP_PREPARE_TRANSFER: u64 = 14;

pub const OP_PREPARE_CONSUMPTION: u64 = 15;

pub const OP_ROLLBACK: u64 = 16;

pub const OP_COMMIT: u64 = 17;

pub const OP_DIRECT_COMMIT: u64 = 18;

pub const OP_DIRECT_ROLLBACK: u64 = 19;

pub const OP_REMOVE_STOPPING_OWNER: u64 = 20;

pub const OP_TEARDOWN_START: u64 = 21;

pub const OP_TEARDOWN_STEP: u64 = 22;

pub const OP_TEARDOWN_FINISH: u64 = 23;

pub const OP_TAKE_EMPTY_PAGE: u64 = 24;

pub const OP_MAKE_PLAN: u64 = 25;

pub const OP_USE_PLAN: u64 = 26;

pub const OP_DROP_PLAN: u64 = 27;

pub const OP_JUDGE_TRANSFER: u64 = 28;

// Every op above the last, and 0, is unknown.
pub const OP_LAST: u64 = 28;
