// The same fields as places behind the first word of a record, for code that reads or writes a record in one go.
use crate::field;

pub const ROOT_VERSION: usize = field::ROOT_VERSION as usize;

pub const ROOT_TABLES: usize = field::ROOT_TABLES as usize;

pub const ROOT_FRAMES: usize = field::ROOT_FRAMES as usize;

pub const ROOT_OBJECTS: usize = field::ROOT_OBJECTS as usize;

pub const ROOT_ROWS: usize = field::ROOT_ROWS as usize;

pub const ROOT_PAGES: usize = field::ROOT_PAGES as usize;

pub const SLOT_GENERATION: usize = field::SLOT_GENERATION as usize;

pub const SLOT_OBJECT: usize = field::SLOT_OBJECT as usize;

pub const SLOT_RIGHTS: usize = field::SLOT_RIGHTS as usize;

pub const SLOT_FLAGS: usize = field::SLOT_FLAGS as usize;

pub const SLOT_UNUSED: usize = field::SLOT_UNUSED as usize;

pub const OBJECT_KIND: usize = field::OBJECT_KIND as usize;

pub const OBJECT_CLASS: usize = field::OBJECT_CLASS as usize;

pub const OBJECT_SUPPORTED: usize = field::OBJECT_SUPPORTED as usize;

pub const OBJECT_EXPORTABLE: usize = field::OBJECT_EXPORTABLE as usize;

pub const OBJECT_STAGE: usize = field::OBJECT_STAGE as usize;

pub const OBJECT_ACTIVE: usize = field::OBJECT_ACTIVE as usize;

pub const OBJECT_LIMIT: usize = field::OBJECT_LIMIT as usize;

pub const ITEM_MOVED: usize = field::ITEM_MOVED as usize;

pub const ITEM_OBJECT: usize = field::ITEM_OBJECT as usize;

pub const ITEM_RIGHTS: usize = field::ITEM_RIGHTS as usize;

pub const ITEM_FLAGS: usize = field::ITEM_FLAGS as usize;

pub const ITEM_GRANTED: usize = field::ITEM_GRANTED as usize;
