// The first part of the state check: table heads, page entries and frames; and the test of a slot, for the walk over the slots.
#![tactic(auto)]

ghost use Rattle.std.specs.Prelude.{◌≡◌, ◌+◌, ◌*◌};
ghost use Rattle.std.specs.Int.{div_ceil};
ghost use Rattle.layout.specs.Layout.{load as loadAt, head};
ghost use Rattle.layout.specs.Fields.{head_pages};
ghost use Rattle.layout.specs.RegionNames.{region_group16};
ghost use Rattle.structure.specs.Facts.{free_from, attached_in, attached_to};
ghost use Rattle.structure.specs.Checks.{life_b, head_b, bound_of, handle_c, slot_c, link_b, entry_b, entries_b, span_b, spans_b, groups_b, levels_b, outline_b};
ghost use Rattle.structure.specs.Code.{counted, plus_one, level_number, level_size, LevelIs};

use codec::HandleCodec;
use layout::{CellWords, Shape, field, region, size, value};

// Whether a lifecycle and its cursor are in range.
#[tactic(auto, unfolding(crate::specs::Checks::life_b))]
fn life_ok(life: u64, cursor: u64) -> bool
    ensures { result ≡ life_b life cursor }
{
    if life == value::LIFE_TEARING_DOWN {
        cursor <= size::SLOTS_MAX
    } else {
        life <= value::LIFE_RETIRED
    }
}

// The head of table b, whose first page entry is e.
#[tactic(auto, unfolding(crate::specs::Checks::head_b))]
fn head_ok(s: &[u64], sh: Shape, b: u64, e: u64) -> bool
    ensures { result ≡ head_b (loadAt s.now sh) b e }
{
    let limit = layout::head_word(s, sh, b, field::HEAD_PAGE_LIMIT);
    let mask = layout::head_word(s, sh, b, field::HEAD_MASK);
    let life = layout::head_word(s, sh, b, field::HEAD_LIFECYCLE);
    let cursor = layout::head_word(s, sh, b, field::HEAD_CURSOR);
    let size = layout::head_word(s, sh, b, field::HEAD_PAGES);
    let first = layout::head_word(s, sh, b, field::HEAD_FIRST_ENTRY);
    (1..=size::PAGES_MAX).contains(&limit)
        && mask <= HandleCodec::PAYLOAD_MASK
        && life_ok(life, cursor)
        && size <= limit
        && first == e
}

// What the objects of a table's handles are below: a retired table has no handles.
pub fn bound_of(objects: u64, life: u64) -> u64
    ensures { result ≡ bound_of objects life }
{
    if life == value::LIFE_RETIRED {
        0
    } else {
        objects
    }
}

// The handle in an occupied slot.
#[tactic(auto, unfolding(crate::specs::Checks::handle_c))]
fn handle_ok(c: CellWords, bound: u64) -> bool
    ensures { result ≡ handle_c bound c }
{
    c.object < bound && c.flags <= value::KNOWN_FLAGS
}

// A slot, on a page with that high mark. Most slots are occupied.
#[tactic(auto, unfolding(crate::specs::Checks::slot_c), using(std::proofs::lemmas::Bool::Decides::nat_tests))]
pub fn slot_ok(c: CellWords, bound: u64, high: u64) -> bool
    ensures { result ≡ slot_c bound high c }
{
    if !(1..=high).contains(&c.generation) {
        return false;
    }
    if c.tag == value::TAG_OCCUPIED {
        handle_ok(c, bound)
    } else {
        c.tag < value::TAG_OCCUPIED
    }
}

// The frame of the page of entry e, given plus 1; 0 for none.
#[tactic(auto, unfolding(crate::specs::Checks::link_b))]
fn link_ok(s: &[u64], sh: Shape, e: u64, link: u64) -> bool
    ensures { result ≡ link_b (loadAt s.now sh) sh e link }
{
    let Some(f) = link.checked_sub(1) else {
        return true;
    };
    f < sh.frames as u64 && layout::owner_word(s, sh, f).checked_sub(1) == Some(e)
}

// Page entry e.
#[tactic(auto, unfolding(crate::specs::Checks::entry_b))]
fn entry_ok(s: &[u64], sh: Shape, e: u64) -> bool
    ensures { result ≡ entry_b (loadAt s.now sh) sh e }
{
    let high = layout::entry_word(s, sh, e, field::ENTRY_HIGH);
    (1..=HandleCodec::GENERATION_LIMIT).contains(&high)
        && link_ok(s, sh, e, layout::entry_word(s, sh, e, field::ENTRY_FRAME))
}

// How many of n pages from entry e on are attached; none if an entry is not as it must be.
#[tactic(auto, unfolding(crate::specs::Checks::entries_b, words::specs::All::all), using(crate::specs::Code::entries_stop))]
fn entries_ok(s: &[u64], sh: Shape, e: u32, n: u32) -> Option<u64>
    ensures { plus_one result ≡ counted (entries_b (loadAt s.now sh) sh e n) (attached_in (loadAt s.now sh) e n) }
{
    let mut count: u64 = 0;
    for p in 0..n {
        let at = (e as u64) + (p as u64);
        if !entry_ok(s, sh, at) {
            return None;
        }
        count += u64::from(layout::entry_word(s, sh, at, field::ENTRY_FRAME) != 0);
    }
    Some(count)
}

// The same of table b, whose head is tested first; its first page entry is e.
#[tactic(auto, unfolding(crate::specs::Checks::span_b), using(crate::specs::Code::size_small))]
fn table_ok(s: &[u64], sh: Shape, b: u64, e: u32) -> Option<u64>
    ensures { plus_one result ≡ counted (span_b (loadAt s.now sh) sh b e) (attached_in (loadAt s.now sh) e (loadAt s.now sh (head b head_pages))) }
{
    if !head_ok(s, sh, b, e as u64) {
        return None;
    }
    let size = layout::head_word(s, sh, b, field::HEAD_PAGES);
    entries_ok(s, sh, e, size as u32)
}

// The same of all tables.
#[tactic(auto, unfolding(crate::specs::Checks::spans_b, words::specs::All::all), using(crate::specs::Code::tables_stop, crate::specs::Code::table_passes, crate::specs::Code::table_count, crate::specs::Code::span_first, crate::specs::Code::span_limit, crate::specs::Code::span_few))]
fn tables_ok(s: &[u64], sh: Shape) -> Option<u64>
    ensures { plus_one result ≡ counted (spans_b (loadAt s.now sh) sh) (attached_to (loadAt s.now sh) sh.tables) }
{
    let mut count: u64 = 0;
    let mut first: u32 = 0;
    for b in 0..sh.tables {
        count += table_ok(s, sh, b as u64, first)?;
        first += layout::head_word(s, sh, b as u64, field::HEAD_PAGE_LIMIT) as u32;
    }
    (first == sh.pages).then_some(count)
}

// How many of n frames from a on are free; none is past the last frame.
// A loop, whose invariant is a line: what `sum` gives is said over the closure of its terms, and takes a file of answers, as orders' `check_empty`.
#[tactic(auto, using(crate::specs::Code::free_out))]
fn free_in(s: &[u64], sh: Shape, a: u32, n: u16) -> u64
    ensures { result ≡ free_from (loadAt s.now sh) sh.frames a n }
{
    let end = (a as u64) + (n as u64);
    let mut count: u64 = 0;
    for f in a as u64..end.min(sh.frames as u64) {
        count += u64::from(layout::owner_word(s, sh, f) == 0);
    }
    count
}

// A level of groups of frames, by how many frames a group has, that has a level above it: 16 of its groups are one there.
// `create` has a type of all three levels: with that, `sums_ok` would have to ask that it is not given the last.
#[derive(Clone, Copy)]
enum Level {
    Sixteens = 16,
    Hundreds = 256,
}

impl Level {
    fn size(self) -> u16
        ensures { result ≡ level_size self }
    {
        self as u16
    }

    // The region of its counts; the one after it has those of the level above.
    fn region(self) -> u64
        ensures { result ≡ region_group16 + level_number self }
    {
        match self {
            Self::Sixteens => region::REGION_GROUP_16,
            Self::Hundreds => region::REGION_GROUP_256,
        }
    }
}

// The free frames of each group of 16, by the frames' owners.
fn sixteens_ok(s: &[u64], sh: Shape) -> bool
    ensures { result ≡ groups_b (loadAt s.now sh) sh.frames 0 16 (div_ceil sh.frames 16) }
{
    (0..sh.frames.div_ceil(16)).all(|g| {
        layout::load(s, sh, region::REGION_GROUP_16, g as u64, 0, 0)
            == free_in(s, sh, (g as u32) * 16, 16)
    })
}

// The free frames of 16 groups of a level, by their counts, from group `first` on. A loop, as `free_in`.
#[tactic(auto, using(crate::specs::Code::free_more, crate::specs::Code::free_small), unfolding(crate::specs::Code::LevelIs))]
fn free_under(s: &[u64], sh: Shape, level: Level, first: u32) -> u64
    requires { LevelIs (loadAt s.now sh) sh.frames level }
    ensures { result ≡ free_from (loadAt s.now sh) sh.frames (first * level_size level) (16 * level_size level) }
{
    let region = level.region();
    let mut count: u64 = 0;
    for i in 0..16 {
        count += layout::load(s, sh, region, (first as u64) + i, 0, 0);
    }
    count
}

// The free frames of each group of the level above: the sum of 16 of the level below, which holds.
fn sums_ok(s: &[u64], sh: Shape, below: Level) -> bool
    requires { LevelIs (loadAt s.now sh) sh.frames below }
    ensures { result ≡ groups_b (loadAt s.now sh) sh.frames (level_number below + 1) (16 * level_size below) (div_ceil sh.frames (16 * level_size below)) }
{
    let region = below.region() + 1;
    (0..sh.frames.div_ceil(16 * below.size())).all(|g| {
        layout::load(s, sh, region, g as u64, 0, 0) == free_under(s, sh, below, (g as u32) * 16)
    })
}

// Of all three levels: the first by the frames' owners, the others by the level below.
#[tactic(auto, unfolding(crate::specs::Checks::levels_b), using(crate::specs::Code::sixteens_are, crate::specs::Code::hundreds_are))]
fn levels_ok(s: &[u64], sh: Shape) -> bool
    ensures { result ≡ levels_b (loadAt s.now sh) sh.frames }
{
    sixteens_ok(s, sh) && sums_ok(s, sh, Level::Sixteens) && sums_ok(s, sh, Level::Hundreds)
}

// The first part of the state check: heads, page entries and frames, of which plans hold `held`.
#[tactic(auto, using(crate::specs::Code::free_small), unfolding(crate::specs::Checks::outline_b, crate::specs::Checks::frames_b))]
pub fn check_outline(s: &[u64], sh: Shape, held: u64) -> bool
    ensures { result ≡ outline_b (loadAt s.now sh) sh held }
{
    let Some(attached) = tables_ok(s, sh) else {
        return false;
    };
    let frames = sh.frames as u64;
    let free = free_in(s, sh, 0, sh.frames);
    (frames - free).checked_sub(held) == Some(attached)
        && layout::root_word(s, sh, field::ROOT_FREE_FRAMES) == free
        && levels_ok(s, sh)
}
