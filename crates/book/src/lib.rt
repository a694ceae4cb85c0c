// The book's rows over the state's words: the row of an id, whether a row and an id are left, rows that open and rows that leave. A row stands in a place; the index
// gives places by rank and ranks by place, so that a row that leaves moves no other.
#![tactic(auto)]

ghost use Rattle.std.specs.Prelude.{◌≡◌, ℕ, ◌-◌, min};
ghost use Rattle.layout.specs.Layout.{load as loadAt};
ghost use Rattle.layout.specs.Sizes.{batch_max};
ghost use Rattle.format.specs.Refusals.{number_of};
ghost use Rattle.book.specs.Ops.{link_from, likely_link, place_of, row_link, kind_link, row_left, id_refusal, spare, open_w, handle_w, shift_w, close_w, shrink_w, vacate_items_w, spend_w};

use codec::ReservationId;
use format::refusal::Refusal;
use layout::{Shape, field, size};

// The id that is never given out.
pub const LAST_ID: u64 = 0xffff_ffff_ffff_ffff;

// The link of the row of the likely rank among n, if that row has the id; else 0. A link is a place plus 1, as the definitions write it: the largest word stays, which an Option could not tell. Where no row that opened after it has left, a row stands as far from the ranks' end
// as its id is from the next one.
#[tactic(auto, unfolding(crate::specs::Ops::likely_link), using(std::proofs::lemmas::Bool::Decides::nat_tests))]
fn likely_row(s: &[u64], sh: Shape, id: u64, n: u64) -> u64
    ensures { result ≡ likely_link (loadAt s.now sh) id n }
{
    let i = n.saturating_sub(layout::root_word(s, sh, field::ROOT_NEXT_ID).saturating_sub(id));
    if i < n {
        let x = layout::index_word(s, sh, i);
        if layout::row_word(s, sh, x, field::ROW_ID) == id {
            return x.saturating_add(1);
        }
    }
    0
}

// The link of the row with an id among the first count ranks; 0 if there is none. Ids rise with rank, so that each look leaves half of the ranks: by a `while`, since the ids stand in lent words behind the index of ranks, and a library's search wants a slice of them.
#[tactic(auto, using(crate::specs::Code::link_yes, crate::specs::Code::link_above, crate::specs::Code::link_below, crate::specs::Code::link_end, std::proofs::lemmas::Bool::Decides::nat_tests))]
fn search_row(s: &[u64], sh: Shape, id: u64, count: u64) -> u64
    ensures { result ≡ link_from (loadAt s.now sh) id count 0 count }
{
    let mut n = count;
    let mut i: u64 = 0;
    while 0 < n {
        let half = n / 2;
        let x = layout::index_word(s, sh, i + half);
        let w = layout::row_word(s, sh, x, field::ROW_ID);
        if w == id {
            return x.saturating_add(1);
        }
        if w < id {
            i = i + half + 1;
            n = n - half - 1;
            continue;
        }
        n = half;
    }
    0
}

// The place of the row in use with an id. The likely rank first, then a search.
#[tactic(auto, unfolding(crate::specs::Ops::row_link), using(crate::specs::Code::place_by, std::proofs::lemmas::Bool::Decides::nat_tests))]
pub fn row_of(s: &[u64], sh: Shape, id: u64) -> Option<u64>
    ensures { result ≡ place_of (row_link (loadAt s.now sh) sh id) }
{
    let rows = sh.rows as u64;
    let n = layout::root_word(s, sh, field::ROOT_USED_ROWS).min(rows);
    let link = likely_row(s, sh, id, n);
    if link == 0 {
        return search_row(s, sh, id, n).checked_sub(1);
    }
    link.checked_sub(1)
}

// The place of the row of a kind with an id.
#[tactic(auto, using(crate::specs::Code::kind_missing, crate::specs::Code::kind_found, std::proofs::lemmas::Bool::Decides::nat_tests))]
pub fn row_of_kind(s: &[u64], sh: Shape, id: ReservationId, what: u64) -> Option<u64>
    ensures { result ≡ place_of (kind_link what (loadAt s.now sh) sh id.0) }
{
    let x = row_of(s, sh, id.0)?;
    (layout::row_word(s, sh, x, field::ROW_KIND) == what).then_some(x)
}

// Whether a row is left.
pub fn row_left(s: &[u64], sh: Shape) -> bool
    ensures { result ≡ row_left (loadAt s.now sh) sh }
{
    layout::root_word(s, sh, field::ROOT_USED_ROWS) < sh.rows as u64
}

// "ReservationIdExhausted: next id is 2^64 - 1": 12.
#[tactic(auto, unfolding(model::specs::State::last_id))]
pub fn id_left(s: &[u64], sh: Shape) -> Result<(), Refusal>
    ensures { number_of result ≡ id_refusal (loadAt s.now sh) }
{
    if layout::root_word(s, sh, field::ROOT_NEXT_ID) == LAST_ID {
        return Err(Refusal::ReservationIdExhausted);
    }
    Ok(())
}

// The place of the next row to open.
pub fn spare_place(s: &[u64], sh: Shape) -> u64
    ensures { result ≡ spare (loadAt s.now sh) }
{
    let used = layout::root_word(s, sh, field::ROOT_USED_ROWS);
    layout::index_word(s, sh, used)
}

// A row opens under the next id: 1 a reservation, 2 a claim of table b, 3 a parcel, 4 a plan; n items, which stand in its place already, as a plan's further words do.
#[tactic(auto, unfolding(crate::specs::Ops::open_w, crate::specs::Ops::open_p))]
pub fn open_row(s: &mut [u64], sh: Shape, what: u64, b: u64, n: u64)
    ensures words { s.new ≡ open_w s.old sh what b n }
{
    let x = spare_place(s, sh);
    let id = layout::root_word(s, sh, field::ROOT_NEXT_ID);
    let used = layout::root_word(s, sh, field::ROOT_USED_ROWS);
    let next = id.saturating_add(1);
    let more = used.saturating_add(1);
    layout::put_row(s, sh, x, field::ROW_ID, id);
    layout::put_row(s, sh, x, field::ROW_KIND, what);
    layout::put_row(s, sh, x, field::ROW_TABLE, b);
    layout::put_row(s, sh, x, field::ROW_LENGTH, n);
    layout::put_root(s, sh, field::ROOT_USED_ROWS, more);
    layout::put_root(s, sh, field::ROOT_NEXT_ID, next);
}

// A handle into item j of the row in place x.
#[tactic(auto, unfolding(crate::specs::Ops::handle_w))]
pub fn put_handle(s: &mut [u64], sh: Shape, x: u64, j: u64, object: u64, rights: u64, flags: u64)
    ensures words { s.new ≡ handle_w s.old sh x j object rights flags }
{
    layout::put_item(s, sh, x, j, field::ITEM_OBJECT, object);
    layout::put_item(s, sh, x, j, field::ITEM_RIGHTS, rights);
    layout::put_item(s, sh, x, j, field::ITEM_FLAGS, flags);
}

// The rows of ranks above r, up to the last, come one rank down.
#[tactic(auto, using(crate::specs::Code::shift_none, crate::specs::Code::shift_more, crate::specs::Code::shift_end))]
fn shift_down(s: &mut [u64], sh: Shape, r: u64, last: u64)
    ensures words { s.new ≡ shift_w s.old sh r (last - r) }
{
    for i in r..last {
        let y = layout::index_word(s, sh, i + 1);
        layout::put_index(s, sh, i, y);
        layout::put_rank(s, sh, y, i);
    }
}

// The row in place x leaves; its place is the first out of use.
#[tactic(auto, unfolding(crate::specs::Ops::close_w))]
pub fn close_row(s: &mut [u64], sh: Shape, x: u64)
    ensures words { s.new ≡ close_w s.old sh x }
{
    let rows = sh.rows as u64;
    let r = layout::rank_word(s, sh, x);
    let n = layout::root_word(s, sh, field::ROOT_USED_ROWS).min(rows);
    let last = n.saturating_sub(1);
    shift_down(s, sh, r, last);
    layout::put_index(s, sh, last, x);
    layout::put_rank(s, sh, x, last);
    layout::put_root(s, sh, field::ROOT_USED_ROWS, last);
}

// The row in place x has n items.
#[tactic(auto, unfolding(crate::specs::Ops::shrink_w))]
pub fn shrink_row(s: &mut [u64], sh: Shape, x: u64, n: u64)
    ensures words { s.new ≡ shrink_w s.old sh x n }
{
    layout::put_row(s, sh, x, field::ROW_LENGTH, n);
}

// The slots that the items of a reservation of table b name, from one item up to another, fall vacant; the row stands in place x.
#[tactic(auto, using(crate::specs::Code::vacate_none, crate::specs::Code::vacate_more, crate::specs::Code::vacate_end))]
pub fn vacate_items(s: &mut [u64], sh: Shape, b: u64, x: u64, from: u64, to: u64)
    ensures words { s.new ≡ vacate_items_w s.old sh b x from (min to batch_max - from) }
{
    let end = to.min(size::BATCH_MAX);
    // Field by field, for speed: a copy in one go, which the calls would make, waits until the caller's stores of the fields are in the cache. Without this and that of claim's `abort` an abort takes 124 ns for 116.
    let own = Shape {
        tables: sh.tables,
        pages: sh.pages,
        frames: sh.frames,
        objects: sh.objects,
        rows: sh.rows,
    };
    for j in from..end {
        let k = layout::item_word(s, own, x, j, field::ITEM_SLOT);
        storage::vacate(s, own, b, k);
    }
}

// The next id is spent.
#[tactic(auto, unfolding(crate::specs::Ops::spend_w))]
pub fn spend_id(s: &mut [u64], sh: Shape)
    ensures words { s.new ≡ spend_w s.old sh }
{
    let next = layout::root_word(s, sh, field::ROOT_NEXT_ID).saturating_add(1);
    layout::put_root(s, sh, field::ROOT_NEXT_ID, next);
}
