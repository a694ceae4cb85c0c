// Fields of a record by their bit (docs/formats.md, "Fields of a record").
// They stay numbers: code shifts bit maps by them and counts the bits below them, and the C header gives them.
pub const FIELD_OP: u64 = 0;

pub const FIELD_TABLE: u64 = 1;

pub const FIELD_OBJECT: u64 = 2;

pub const FIELD_COUNT: u64 = 3;

pub const FIELD_VALUE: u64 = 4;

pub const FIELD_RIGHTS: u64 = 5;

pub const FIELD_FLAGS: u64 = 6;

pub const FIELD_ID: u64 = 7;

pub const FIELD_DESTINATION: u64 = 8;

pub const FIELD_KIND: u64 = 9;

pub const FIELD_KOID: u64 = 10;

pub const FIELD_CURSOR: u64 = 11;

pub const FIELD_ROUTE: u64 = 12;

pub const FIELD_OFFERED_RIGHTS: u64 = 13;

pub const FIELD_OFFERED_KIND: u64 = 14;

pub const FIELD_EXPECTED_KIND: u64 = 15;

pub const FIELD_FORBIDDEN_OBJECT: u64 = 16;

pub const FIELD_FORBIDDEN_KIND: u64 = 17;

// How many fields there are.
pub const FIELDS: u64 = 18;

// The kinds of fields by number, as the definition `field_kinds` has them: an enum of them is `FieldKind`.
pub const KIND_WORD: u64 = FieldKind::Word as u64;

pub const KIND_NUMBER_32: u64 = FieldKind::Number32 as u64;

pub const KIND_KOID: u64 = FieldKind::Koid as u64;

pub const KIND_ROUTE: u64 = FieldKind::Route as u64;

pub const KIND_OP: u64 = FieldKind::Op as u64;

pub const KIND_OPERATION: u64 = FieldKind::Operation as u64;

pub const KIND_ZERO: u64 = FieldKind::Zero as u64;

// The kind of a field: which words one takes is `takes`, and by the kind's number `fits`. An op's record has `Op` at bit 0, a transfer item's `Operation`, a parcel item's `Zero`.
#[derive(Clone, Copy, PartialEq, Eq)]
pub enum FieldKind {
    Word,
    Number32,
    Koid,
    Route,
    Op,
    Operation,
    Zero,
}
