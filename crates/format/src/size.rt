// Words of an answer, a scan's limits, and the largest words that kinds of a record's fields take (docs/formats.md, "Fields of a record" and "Answers").
// Each request answers this many words.
pub const ANSWER_WORDS: u64 = 72;

// The same as a place.
pub const ANSWER_PLACES: usize = ANSWER_WORDS as usize;

// The most entries that a scan answers, and the most slots that it looks at.
pub const SCAN_ENTRIES: usize = 8;

pub const SCAN_SLOTS: u64 = 256;

// The largest number of 32 bits.
pub const NUMBER_32_MAX: u64 = 4_294_967_295;

// The last route and the last operation.
pub const ROUTE_LAST: u64 = 2;

pub const OPERATION_LAST: u64 = 1;

// The position that stands for no item: "64 where no item is at fault".
pub const NO_ITEM: u64 = 64;
