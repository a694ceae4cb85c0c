// The maps of the fields that a record must and may carry (docs/formats.md, "Ops"): of each op at its number, and of an item.
// The fields that each op must carry, as a bit map, at the op's number. It stays a list by number, as document 01 has it. It is read through `get`, which borrows it: so it stands once, in the program's constant data, and takes no stack.
pub const MUST: [u64; 29] = [
    0, 101, 51, 129, 5, 11, 137, 129, 137, 19, 563, 51, 19, 2051, 4107, 1587, 129, 129, 385, 385,
    2051, 3, 3, 3, 3, 11, 129, 129, 4107,
];

// The fields that each op may carry besides.
pub const MAY: [u64; 29] = [
    0, 0, 0, 0, 0, 0, 0, 0, 0, 0, 0, 0, 0, 0, 196608, 0, 0, 0, 0, 0, 0, 0, 0, 0, 0, 0, 0, 0, 196608,
];

// The maps of a transfer's and a publish's items.
pub const TRANSFER_ITEM_MUST: u64 = 49;

pub const TRANSFER_ITEM_MAY: u64 = 57_344;

pub const PARCEL_ITEM_MUST: u64 = 129;

pub const PARCEL_ITEM_MAY: u64 = 0;
