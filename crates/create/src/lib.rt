// Creation: a new state in lent words. A call beside the request list.
#![tactic(auto)]

ghost use Rattle.std.specs.Prelude.{◌≡◌};
ghost use Rattle.std.specs.Int.{div_ceil};
ghost use Rattle.model.specs.Base.{every};
ghost use Rattle.model.specs.State.{till};
ghost use Rattle.model.specs.Create.{table_permitted, object_permitted};
ghost use Rattle.format.specs.Refusals.{number_of};
ghost use Rattle.layout.specs.Layout.{writes};
ghost use Rattle.create.specs.Parameters.{table_from, object_from, tables_in, objects_in, page_sum, counts_fit, plan_of};
ghost use Rattle.create.specs.Meets.{Meets};
ghost use Rattle.create.specs.Creation.{cleared_w, header_w, head_p, heads_w, object_p, objects_w, level_size, level_region, groups_w, levels_w, places_w, built_w, after, create_w};

use format::refusal::{self, Refusal};
use layout::{Shape, field, region, size, value};

// Whether a table's parameters are permitted; its seed may be any word.
#[tactic(auto, using(std::proofs::lemmas::Bool::Decides::nat_tests), unfolding(model::specs::State::max_slots))]
fn table_ok(p: &[u64], b: u8) -> bool
    ensures { result ≡ table_permitted till (table_from p.now b) }
{
    (1..=size::PAGES_MAX).contains(&words::word(p, 4 + (b as usize) * 2))
}

fn tables_ok(p: &[u64], n: u8) -> bool
    ensures { result ≡ every (table_permitted till) (tables_in p.now n) }
{
    (0..n).all(|k| table_ok(p, k))
}

// Whether an object's parameters are permitted, from their place on; its rights may be any word. A function of its own in the compiled call too: taken into the loop, its tests
// would be made on several words at once, in SSE registers, in which no call computes (docs/embedding.md).
#[inline(never)]
#[tactic(auto, using(std::proofs::lemmas::Bool::Decides::nat_tests), unfolding(model::specs::State::max_limit))]
fn object_ok(p: &[u64], at: u32) -> bool
    ensures { result ≡ object_permitted (object_from p.now at) }
{
    let i = at as usize;
    let koid = words::word(p, i);
    let kind = words::word(p, i + 1);
    let class = words::word(p, i + 2);
    let exportable = words::word(p, i + 4);
    let limit = words::word(p, i + 5);
    koid > 0
        && kind <= size::NUMBER_32_MAX
        && class <= value::CLASS_NEVER
        && exportable <= 1
        && limit <= size::NUMBER_32_MAX
}

fn objects_ok(p: &[u64], t: u8, n: u16) -> bool
    ensures { result ≡ every object_permitted (objects_in p.now t n) }
{
    let base = 4 + (t as u32) * 2;
    (0..n).all(|k| object_ok(p, base + (k as u32) * 6))
}

// The pages of the first n tables. A loop, as structure's `free_in`.
#[tactic(auto, using(crate::specs::Parameters::pages_small))]
fn pages_of(p: &[u64], n: u8) -> u64
    ensures { result ≡ page_sum p.now n }
{
    let mut sum: u64 = 0;
    for k in 0..n {
        let pages = words::word(p, 4 + (k as usize) * 2);
        sum += pages.min(size::PAGES_MAX);
    }
    sum
}

fn counts_ok(t: u64, f: u64, o: u64, r: u64) -> bool
    ensures { result ≡ counts_fit t f o r }
{
    (1..=size::TABLES_MAX).contains(&t)
        && f <= size::FRAMES_MAX
        && (1..=size::OBJECTS_MAX).contains(&o)
        && (1..=size::ROWS_MAX).contains(&r)
}

// The counts of the state that the parameters ask for, if they are all there and permitted.
#[tactic(auto, using(crate::specs::Parameters::pages_small, crate::specs::Parameters::plan_is, std::proofs::lemmas::Bool::Decides::nat_tests), unfolding(crate::specs::Parameters::shape_in))]
fn plan(p: &[u64]) -> Option<Shape>
    ensures { result ≡ plan_of p.now }
{
    let t = words::word(p, 0);
    let f = words::word(p, 1);
    let o = words::word(p, 2);
    let r = words::word(p, 3);
    if !counts_ok(t, f, o, r) || (p.len() as u64) < 4 + t * 2 + o * 6 {
        return None;
    }
    let tables = t as u8;
    let objects = o as u16;
    if !tables_ok(p, tables) || !objects_ok(p, tables, objects) {
        return None;
    }
    Some(Shape {
        tables,
        pages: pages_of(p, tables) as u32,
        frames: f as u16,
        objects,
        rows: r as u16,
    })
}

// Sets the first n words to 0. A loop and no `fill`: a fill is compiled to a call of `memset`, and libcreate.a needs no function from outside (docs/embedding.md).
#[tactic(auto, unfolding(crate::specs::Creation::cleared_w))]
fn clear(s: &mut [u64], n: usize)
    ensures { s.new ≡ cleared_w s.old n }
{
    for k in 0..n {
        words::put(s, k, 0);
    }
}

#[tactic(auto, unfolding(crate::specs::Creation::header_w))]
fn make_header(s: &mut [u64], sh: Shape)
    ensures { s.new ≡ header_w s.old sh }
{
    layout::put_root(s, sh, field::ROOT_VERSION, value::FORMAT_VERSION);
    layout::put_root(s, sh, field::ROOT_TABLES, sh.tables as u64);
    layout::put_root(s, sh, field::ROOT_FRAMES, sh.frames as u64);
    layout::put_root(s, sh, field::ROOT_OBJECTS, sh.objects as u64);
    layout::put_root(s, sh, field::ROOT_ROWS, sh.rows as u64);
    layout::put_root(s, sh, field::ROOT_NEXT_ID, 1);
    layout::put_root(s, sh, field::ROOT_FREE_FRAMES, sh.frames as u64);
    layout::put_root(s, sh, field::ROOT_PAGES, sh.pages as u64);
}

// The head of table b.
fn make_head(s: &mut [u64], sh: Shape, p: &[u64], b: u8)
    ensures { s.new ≡ writes s.old sh (head_p p.now b) }
{
    let at = 4 + (b as usize) * 2;
    let pages = words::word(p, at);
    let seed = words::word(p, at + 1);
    let c = codec::HandleCodec::new(seed);
    let first = pages_of(p, b);
    let t = b as u64;
    layout::put_head(s, sh, t, field::HEAD_PAGE_LIMIT, pages);
    layout::put_head(s, sh, t, field::HEAD_MASK, c.mask);
    layout::put_head(s, sh, t, field::HEAD_FIRST_ENTRY, first);
}

// The heads of all tables. A loop of one call stays a loop, as claim's.
#[tactic(auto, unfolding(layout::specs::Turns::turns))]
fn make_heads(s: &mut [u64], sh: Shape, p: &[u64])
    ensures { s.new ≡ heads_w s.old sh p.now sh.tables }
{
    for k in 0..sh.tables {
        make_head(s, sh, p, k);
    }
}

fn make_object(s: &mut [u64], sh: Shape, p: &[u64], o: u16)
    ensures { s.new ≡ writes s.old sh (object_p p.now sh.tables o) }
{
    let at = 4 + (sh.tables as usize) * 2 + (o as usize) * 6;
    let n = o as u64;
    layout::put_object(s, sh, n, field::OBJECT_KOID, words::word(p, at));
    layout::put_object(s, sh, n, field::OBJECT_KIND, words::word(p, at + 1));
    layout::put_object(s, sh, n, field::OBJECT_CLASS, words::word(p, at + 2));
    layout::put_object(s, sh, n, field::OBJECT_SUPPORTED, words::word(p, at + 3));
    layout::put_object(s, sh, n, field::OBJECT_EXPORTABLE, words::word(p, at + 4));
    layout::put_object(s, sh, n, field::OBJECT_LIMIT, words::word(p, at + 5));
}

// The records of all objects. A loop of one call stays a loop, as claim's.
#[tactic(auto, unfolding(layout::specs::Turns::turns))]
fn make_objects(s: &mut [u64], sh: Shape, p: &[u64])
    ensures { s.new ≡ objects_w s.old sh p.now sh.objects }
{
    for k in 0..sh.objects {
        make_object(s, sh, p, k);
    }
}

// A level of groups of frames, by how many frames a group has.
#[derive(Clone, Copy)]
enum Level {
    Sixteens = 16,
    Hundreds = 256,
    Thousands = 4096,
}

impl Level {
    fn size(self) -> u64
        ensures { result ≡ level_size self }
    {
        self as u64
    }

    // The region of its counts.
    fn region(self) -> u64
        ensures { result ≡ level_region self }
    {
        match self {
            Self::Sixteens => region::REGION_GROUP_16,
            Self::Hundreds => region::REGION_GROUP_256,
            Self::Thousands => region::REGION_GROUP_4096,
        }
    }
}

// The free frames of each group of a level.
#[tactic(auto, unfolding(layout::specs::Turns::turns))]
fn make_groups(s: &mut [u64], sh: Shape, level: Level)
    ensures { s.new ≡ groups_w s.old sh (level_region level) (level_size level) (div_ceil sh.frames (level_size level)) }
{
    let frames = sh.frames as u64;
    let size = level.size();
    let region = level.region();
    for k in 0..frames.div_ceil(size) {
        let rest = frames.saturating_sub(k * size);
        layout::save(s, sh, region, k, 0, 0, size.min(rest));
    }
}

#[tactic(auto, unfolding(crate::specs::Creation::levels_w))]
fn make_levels(s: &mut [u64], sh: Shape)
    ensures { s.new ≡ levels_w s.old sh }
{
    make_groups(s, sh, Level::Sixteens);
    make_groups(s, sh, Level::Hundreds);
    make_groups(s, sh, Level::Thousands);
}

// The row index: place and rank are the same number.
#[tactic(auto, unfolding(layout::specs::Turns::turns))]
fn make_places(s: &mut [u64], sh: Shape)
    ensures { s.new ≡ places_w s.old sh sh.rows }
{
    for k in 0..sh.rows as u64 {
        layout::put_index(s, sh, k, k);
        layout::put_rank(s, sh, k, k);
    }
}

#[tactic(auto, unfolding(crate::specs::Creation::built_w))]
fn build(s: &mut [u64], p: &[u64], sh: Shape)
    ensures { s.new ≡ built_w s.old p.now sh }
{
    clear(s, layout::total_of(sh) as usize);
    make_header(s, sh);
    make_heads(s, sh, p);
    make_objects(s, sh, p);
    make_levels(s, sh);
    make_places(s, sh);
}

// Makes the state, if its parameters are permitted and there are words enough.
#[tactic(auto, unfolding(crate::specs::Creation::create_w, crate::specs::Creation::placed_w))]
fn create(s: &mut [u64], p: &[u64]) -> Result<(), Refusal>
    ensures { after (number_of result) s.new ≡ create_w s.old p.now }
{
    let sh = plan(p).ok_or(Refusal::Misuse)?;
    if layout::total_of(sh) > s.len() as u64 {
        return Err(Refusal::Misuse);
    }
    build(s, p, sh);
    Ok(())
}

// Creation. Its result is 0, or 18 and no word has changed: a number, since C calls it.
#[tactic(auto, using(crate::specs::Meets::create_meets))]
pub fn gurtxozal_create(state: &mut [u64], parameters: &[u64]) -> u64
    ensures words { after result state.new ≡ create_w state.old parameters.now }
    ensures meets { Meets state.old parameters.now result state.new }
{
    refusal::number_of(create(state, parameters))
}
