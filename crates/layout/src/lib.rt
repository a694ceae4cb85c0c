// The words of a state: where each field stands, loads and stores, and the shape that the header gives.
#![tactic(auto)]

ghost use Rattle.std.specs.Prelude.{◌≡◌, ◌+◌, ◌<◌, ◌^◌};
ghost use Rattle.layout.specs.Regions.{region, place_in};
ghost use Rattle.layout.specs.Layout.{Addr.reg, layout, total, load as loadAt, save as save_at};
ghost use Rattle.layout.specs.Layout.{root, head, entry, owner, cell, object, index, rank, row, item};
ghost use Rattle.layout.specs.ShapeOf.{shape_of};
ghost use Rattle.layout.specs.Cells.{cell_at};

pub mod field;
pub mod place;
pub mod region;
pub mod size;
pub mod value;

// The counts of a state; pages is the sum of the tables' page limits.
// Most functions take the words s and this shape sh as two arguments: one struct of both was tried and proves, but each function that writes then needs two more clauses, that the lent words and the shape stay the same ones.
#[derive(Clone, Copy)]
pub struct Shape {
    pub tables: u8,
    pub pages: u32,
    pub frames: u16,
    pub objects: u16,
    pub rows: u16,
}

// A region of the words: where it starts, x times y things, w words each.
#[derive(Clone, Copy)]
pub struct Extent {
    pub low: u64,
    pub x: u64,
    pub y: u64,
    pub w: u64,
}

// The words of a slot. Words 2 and 3 of a vacant slot are its links, of a marked one its row's place and its position there.
#[derive(Clone, Copy, Default)]
pub struct CellWords {
    pub tag: u64,
    pub generation: u64,
    pub object: u64,
    pub rights: u64,
    pub flags: u64,
    pub unused: u64,
}

// The layout's region of a number; an empty one past its end.
pub fn region_of(sh: Shape, k: u64) -> Extent
    ensures { result ≡ region (layout sh) k }
{
    let t = sh.tables as u64;
    let p = sh.pages as u64;
    let f = sh.frames as u64;
    let o = sh.objects as u64;
    let r = sh.rows as u64;
    let low2 = size::ROOT_SIZE + size::HEAD_SIZE * t;
    let low3 = low2 + size::ENTRY_SIZE * p;
    let low4 = low3 + f;
    // Sums in place of `div_ceil`, which makes the requests 1.13 times as long (release parcel 102 ns for 73; docs/performance.md): every place of a slot, an object and a row is computed here.
    let low5 = low4 + (f + 15) / 16;
    let low6 = low5 + (f + 255) / 256;
    let low7 = low6 + (f + 4095) / 4096;
    let low8 = low7 + size::FRAME_SIZE * f;
    let low9 = low8 + size::OBJECT_SIZE * o;
    let low10 = low9 + size::INDEX_SIZE * r;
    let (low, x, y, w) = match k {
        region::REGION_ROOT => (0, 1, 1, size::ROOT_SIZE),
        region::REGION_HEAD => (size::ROOT_SIZE, t, 1, size::HEAD_SIZE),
        region::REGION_ENTRY => (low2, p, 1, size::ENTRY_SIZE),
        region::REGION_OWNER => (low3, f, 1, 1),
        region::REGION_GROUP_16 => (low4, (f + 15) / 16, 1, 1),
        region::REGION_GROUP_256 => (low5, (f + 255) / 256, 1, 1),
        region::REGION_GROUP_4096 => (low6, (f + 4095) / 4096, 1, 1),
        region::REGION_CELL => (low7, f, size::PAGE_SIZE, size::SLOT_SIZE),
        region::REGION_OBJECT => (low8, o, 1, size::OBJECT_SIZE),
        region::REGION_INDEX => (low9, r, 1, size::INDEX_SIZE),
        region::REGION_ROW => (low10, r, size::ROW_BLOCKS, size::BLOCK_SIZE),
        _ => (0, 0, 0, 0),
    };
    Extent { low, x, y, w }
}

// How many words a state has: the last region ends there.
pub fn total_of(sh: Shape) -> u64
    ensures { result ≡ total sh }
{
    let e = region_of(sh, region::REGION_ROW);
    e.low + e.x * e.y * e.w
}

// (k, x, y, f), an address of specs/Layout.antt, stay four: `load` and `save` only hand them on, and each one-line function below names them once.
// The place of field f of number (x, y) of region k in n words; n itself where there is none.
#[tactic(auto, unfolding(crate::specs::Regions::place_in))]
fn place_in(n: usize, sh: Shape, k: u64, x: u64, y: u64, f: u64) -> usize
    ensures { result ≡ place_in n (region (layout sh) k) x y f }
{
    let e = region_of(sh, k);
    if f < e.w && y < e.y && x < e.x {
        (e.low + ((x * e.y + y) * e.w + f)) as usize
    } else {
        n
    }
}

// Field f of number (x, y) of region k; 0 out of range.
#[tactic(auto, unfolding(crate::specs::Layout::load))]
pub fn load(s: &[u64], sh: Shape, k: u64, x: u64, y: u64, f: u64) -> u64
    ensures { result ≡ loadAt s.now sh (reg k x y f) }
{
    words::word(s, place_in(s.len(), sh, k, x, y, f))
}

// Stores there; nothing out of range.
#[tactic(auto, unfolding(crate::specs::Layout::save))]
pub fn save(s: &mut [u64], sh: Shape, k: u64, x: u64, y: u64, f: u64, v: u64)
    ensures { s.new ≡ save_at s.old sh (reg k x y f) v }
{
    let at = place_in(s.len(), sh, k, x, y, f);
    words::put(s, at, v);
}

// One pair of functions for each region: a trait over regions would take nine impls of three members in place of these one-line functions.
// A field of the header.
pub fn root_word(s: &[u64], sh: Shape, f: u64) -> u64
    ensures { result ≡ loadAt s.now sh (root f) }
{
    load(s, sh, region::REGION_ROOT, 0, 0, f)
}

pub fn put_root(s: &mut [u64], sh: Shape, f: u64, v: u64)
    ensures { s.new ≡ save_at s.old sh (root f) v }
{
    save(s, sh, region::REGION_ROOT, 0, 0, f, v);
}

// Of a table's head.
pub fn head_word(s: &[u64], sh: Shape, t: u64, f: u64) -> u64
    ensures { result ≡ loadAt s.now sh (head t f) }
{
    load(s, sh, region::REGION_HEAD, t, 0, f)
}

pub fn put_head(s: &mut [u64], sh: Shape, t: u64, f: u64, v: u64)
    ensures { s.new ≡ save_at s.old sh (head t f) v }
{
    save(s, sh, region::REGION_HEAD, t, 0, f, v);
}

// Of a page entry.
pub fn entry_word(s: &[u64], sh: Shape, e: u64, f: u64) -> u64
    ensures { result ≡ loadAt s.now sh (entry e f) }
{
    load(s, sh, region::REGION_ENTRY, e, 0, f)
}

pub fn put_entry(s: &mut [u64], sh: Shape, e: u64, f: u64, v: u64)
    ensures { s.new ≡ save_at s.old sh (entry e f) v }
{
    save(s, sh, region::REGION_ENTRY, e, 0, f, v);
}

// A frame's owner.
pub fn owner_word(s: &[u64], sh: Shape, fr: u64) -> u64
    ensures { result ≡ loadAt s.now sh (owner fr) }
{
    load(s, sh, region::REGION_OWNER, fr, 0, 0)
}

pub fn put_owner(s: &mut [u64], sh: Shape, fr: u64, v: u64)
    ensures { s.new ≡ save_at s.old sh (owner fr) v }
{
    save(s, sh, region::REGION_OWNER, fr, 0, 0, v);
}

// A field of slot j of a frame; frames count from 0.
pub fn cell_word(s: &[u64], sh: Shape, fr: u64, j: u64, f: u64) -> u64
    ensures { result ≡ loadAt s.now sh (cell fr j f) }
{
    load(s, sh, region::REGION_CELL, fr, j, f)
}

// All words of slot j of a frame, each with its own test. Compiled in place, where it shares the place's sums with `cell_at`.
#[inline(always)]
fn cell_each(s: &[u64], sh: Shape, fr: u64, j: u64) -> CellWords
    ensures { result ≡ cell_at (loadAt s.now sh) fr j }
{
    CellWords {
        tag: cell_word(s, sh, fr, j, field::SLOT_TAG),
        generation: cell_word(s, sh, fr, j, field::SLOT_GENERATION),
        object: cell_word(s, sh, fr, j, field::SLOT_OBJECT),
        rights: cell_word(s, sh, fr, j, field::SLOT_RIGHTS),
        flags: cell_word(s, sh, fr, j, field::SLOT_FLAGS),
        unused: cell_word(s, sh, fr, j, field::SLOT_UNUSED),
    }
}

// As a place.
const SLOT_WORDS: usize = size::SLOT_SIZE as usize;

// All words of slot j of a frame, with one test where all six are lent. Compiled in place, so that they stay in registers.
#[inline(always)]
#[tactic(auto, using(crate::specs::Cells::cell_read))]
pub fn cell_at(s: &[u64], sh: Shape, fr: u64, j: u64) -> CellWords
    ensures { result ≡ cell_at (loadAt s.now sh) fr j }
{
    let n = s.len();
    let at = place_in(n, sh, region::REGION_CELL, fr, j, field::SLOT_TAG);
    if n < SLOT_WORDS || at > n - SLOT_WORDS {
        return cell_each(s, sh, fr, j);
    }
    CellWords {
        tag: s[at],
        generation: s[at + place::SLOT_GENERATION],
        object: s[at + place::SLOT_OBJECT],
        rights: s[at + place::SLOT_RIGHTS],
        flags: s[at + place::SLOT_FLAGS],
        unused: s[at + place::SLOT_UNUSED],
    }
}

pub fn put_cell(s: &mut [u64], sh: Shape, fr: u64, j: u64, f: u64, v: u64)
    ensures { s.new ≡ save_at s.old sh (cell fr j f) v }
{
    save(s, sh, region::REGION_CELL, fr, j, f, v);
}

// Of an object.
pub fn object_word(s: &[u64], sh: Shape, o: u64, f: u64) -> u64
    ensures { result ≡ loadAt s.now sh (object o f) }
{
    load(s, sh, region::REGION_OBJECT, o, 0, f)
}

pub fn put_object(s: &mut [u64], sh: Shape, o: u64, f: u64, v: u64)
    ensures { s.new ≡ save_at s.old sh (object o f) v }
{
    save(s, sh, region::REGION_OBJECT, o, 0, f, v);
}

// A place of the row index.
pub fn index_word(s: &[u64], sh: Shape, i: u64) -> u64
    ensures { result ≡ loadAt s.now sh (index i) }
{
    load(s, sh, region::REGION_INDEX, i, 0, field::INDEX_PLACE)
}

pub fn put_index(s: &mut [u64], sh: Shape, i: u64, v: u64)
    ensures { s.new ≡ save_at s.old sh (index i) v }
{
    save(s, sh, region::REGION_INDEX, i, 0, field::INDEX_PLACE, v);
}

// The rank of the row in a place.
pub fn rank_word(s: &[u64], sh: Shape, r: u64) -> u64
    ensures { result ≡ loadAt s.now sh (rank r) }
{
    load(s, sh, region::REGION_INDEX, r, 0, field::INDEX_RANK)
}

pub fn put_rank(s: &mut [u64], sh: Shape, r: u64, v: u64)
    ensures { s.new ≡ save_at s.old sh (rank r) v }
{
    save(s, sh, region::REGION_INDEX, r, 0, field::INDEX_RANK, v);
}

// A field of a row's first block.
pub fn row_word(s: &[u64], sh: Shape, k: u64, f: u64) -> u64
    ensures { result ≡ loadAt s.now sh (row k f) }
{
    load(s, sh, region::REGION_ROW, k, 0, f)
}

pub fn put_row(s: &mut [u64], sh: Shape, k: u64, f: u64, v: u64)
    ensures { s.new ≡ save_at s.old sh (row k f) v }
{
    save(s, sh, region::REGION_ROW, k, 0, f, v);
}

// Of item j of a row. The test is kept: without it j + 1 would have to saturate, and the end of a row's blocks be shown for that sum.
#[tactic(auto, using(crate::specs::Layout::item_load))]
pub fn item_word(s: &[u64], sh: Shape, k: u64, j: u64, f: u64) -> u64
    ensures { result ≡ loadAt s.now sh (item k j f) }
{
    if j < size::BATCH_MAX {
        load(s, sh, region::REGION_ROW, k, j + 1, f)
    } else {
        0
    }
}

#[tactic(auto, using(crate::specs::Layout::item_save))]
pub fn put_item(s: &mut [u64], sh: Shape, k: u64, j: u64, f: u64, v: u64)
    ensures { s.new ≡ save_at s.old sh (item k j f) v }
{
    if j < size::BATCH_MAX {
        save(s, sh, region::REGION_ROW, k, j + 1, f, v);
    }
}

// The shape that the header gives: version 1, counts within the limits, and words enough for them.
#[tactic(auto, unfolding(crate::specs::ShapeOf::shape_at), using(crate::specs::ShapeOf::shape_long, crate::specs::ShapeOf::shape_short, crate::specs::ShapeOf::shape_bad))]
pub fn shape_of(s: &[u64]) -> Option<Shape>
    ensures { result ≡ shape_of s.now }
{
    let version = words::word(s, place::ROOT_VERSION);
    let t = words::word(s, place::ROOT_TABLES);
    let f = words::word(s, place::ROOT_FRAMES);
    let o = words::word(s, place::ROOT_OBJECTS);
    let r = words::word(s, place::ROOT_ROWS);
    let p = words::word(s, place::ROOT_PAGES);
    // Comparisons, since the check drew no bound from `contains` of a range.
    if version == value::FORMAT_VERSION
        && 1 <= t
        && t <= size::TABLES_MAX
        && f <= size::FRAMES_MAX
        && 1 <= o
        && o <= size::OBJECTS_MAX
        && 1 <= r
        && r <= size::ROWS_MAX
        && t <= p
        && p <= t * size::PAGES_MAX
    {
        // Field by field, since each is a cast to the field's own type.
        let sh = Shape {
            tables: t as u8,
            pages: p as u32,
            frames: f as u16,
            objects: o as u16,
            rows: r as u16,
        };
        if total_of(sh) <= s.len() as u64 {
            return Some(sh);
        }
    }
    None
}
