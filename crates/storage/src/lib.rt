// One table's slots, its free order and its empty pages' order, over the state's words.
#![tactic(auto)]

ghost use Rattle.std.specs.Prelude.{◌≡◌, ◌+◌, ◌-◌, ◌/◌, ◌%◌, eqb};
ghost use Rattle.words.specs.Pick.{pick};
ghost use Rattle.layout.specs.Layout.{load as loadAt, save as save_at, writes, head, entry};
ghost use Rattle.layout.specs.Fields.{head_first_free};
ghost use Rattle.layout.specs.Sizes.{page_size};
ghost use Rattle.representation.specs.Represents.{word_in, frame_of, slot_word};
ghost use Rattle.storage.specs.Sight.{Spot.hd, cell_p, slot_p, page_p};
ghost use Rattle.storage.specs.Cells.{cell_in, slot_at};
ghost use Rattle.storage.specs.Ops.{seen, move_w, occupy_w, vacate_w, take_w};
ghost use Rattle.storage.specs.Late.{frame_from, link_from, vacant_w, held_w, marked_w, linked_w, unlinked_w, first_without, fewer_w, fewer_by, more_w, more_by};

use head::TableHead;
use layout::{CellWords, Shape, field, size, value};

// (e, p), a table's first entry and a page, stay two: e is the table's and stays, p changes from call to call, and a table's head has e already.
// Word f of page p, of the table whose first entry is e. A sum that is no word is past the last entry, and so is the largest word.
#[tactic(auto, using(crate::specs::Code::entry_load))]
pub fn page_word(s: &[u64], sh: Shape, e: u64, p: u64, f: u64) -> u64
    ensures { result ≡ loadAt s.now sh (entry (e + p) f) }
{
    layout::entry_word(s, sh, e.saturating_add(p), f)
}

#[tactic(auto, using(crate::specs::Code::entry_save))]
pub fn put_page(s: &mut [u64], sh: Shape, e: u64, p: u64, f: u64, v: u64)
    ensures { s.new ≡ save_at s.old sh (entry (e + p) f) v }
{
    layout::put_entry(s, sh, e.saturating_add(p), f, v);
}

// Into the page of a link; through 0 nothing.
// Here and in the five functions below a link is turned by a test: by `checked_sub`, a scan of 8 entries takes 2,434 instructions for 2,268, and 48 moves with their rollback 41,615 for 40,375.
fn put_page_link(s: &mut [u64], sh: Shape, e: u64, l: u64, f: u64, v: u64)
    ensures { s.new ≡ writes s.old sh (page_p e l f v) }
{
    if l != 0 {
        put_page(s, sh, e, l - 1, f, v);
    }
}

// The frame of the page that slot k of the table of a head stands on, plus 1; 0 for none. A link, not an `Option`: it is a word of the state, and what it is handed to reads and stores through it,
// through 0 nothing, as the definitions do.
#[tactic(auto, unfolding(crate::specs::Late::frame_from), using(model::proofs::Bounds::slots_max_law))]
fn frame_of(s: &[u64], sh: Shape, h: TableHead, k: u64) -> u64
    ensures { result ≡ frame_from (loadAt s.now sh) h k }
{
    let p = k / size::PAGE_SIZE;
    if k < size::SLOTS_MAX && p < h.pages {
        page_word(s, sh, h.entry, p, field::ENTRY_FRAME)
    } else {
        0
    }
}

// Of table b. Compiled in place, as the two that give all words of a slot are: lookup opens a value by them.
#[inline(always)]
#[tactic(auto, using(crate::specs::Late::frame_of_law))]
pub fn frame_link(s: &[u64], sh: Shape, b: u64, k: u64) -> u64
    ensures { result ≡ frame_of (loadAt s.now sh) b k }
{
    frame_of(s, sh, head::load(s, sh, b), k)
}

// Of the slot of a link.
#[tactic(auto, unfolding(crate::specs::Late::link_from))]
pub fn link_frame(s: &[u64], sh: Shape, h: TableHead, l: u64) -> u64
    ensures { result ≡ link_from (loadAt s.now sh) h l }
{
    if l == 0 { 0 } else { frame_of(s, sh, h, l - 1) }
}

// Word f of slot j of a frame, given plus 1; 0 where there is none.
pub fn frame_word(s: &[u64], sh: Shape, fr: u64, j: u64, f: u64) -> u64
    ensures { result ≡ word_in (loadAt s.now sh) fr j f }
{
    if fr == 0 {
        0
    } else {
        layout::cell_word(s, sh, fr - 1, j, f)
    }
}

fn put_frame(s: &mut [u64], sh: Shape, fr: u64, j: u64, f: u64, v: u64)
    ensures { s.new ≡ writes s.old sh (cell_p fr j f v) }
{
    if fr != 0 {
        layout::put_cell(s, sh, fr - 1, j, f, v);
    }
}

// Into the slot of a link, which stands in the frame fr; through 0 nothing.
pub fn put_slot_link(s: &mut [u64], sh: Shape, fr: u64, l: u64, f: u64, v: u64)
    ensures { s.new ≡ writes s.old sh (slot_p fr l f v) }
{
    if l != 0 {
        put_frame(s, sh, fr, (l - 1) % size::PAGE_SIZE, f, v);
    }
}

// (b, k), a table and a slot, stay two in these, and (fr, j), a frame's link and a place on it: of the first each makes the second at once, and callers have the parts from two places.
// Word f of slot k of table b.
pub fn slot_word(s: &[u64], sh: Shape, b: u64, k: u64, f: u64) -> u64
    ensures { result ≡ slot_word (loadAt s.now sh) b k f }
{
    let fr = frame_link(s, sh, b, k);
    frame_word(s, sh, fr, k % size::PAGE_SIZE, f)
}

pub fn put_slot_word(s: &mut [u64], sh: Shape, b: u64, k: u64, f: u64, v: u64)
    ensures { s.new ≡ writes s.old sh (cell_p (frame_of (loadAt s.old sh) b k) (k % page_size) f v) }
{
    let fr = frame_link(s, sh, b, k);
    put_frame(s, sh, fr, k % size::PAGE_SIZE, f, v);
}

// Slot k, in the frame fr, is vacant with the generation g, before the slot of the link x, which stands in the frame xf.
#[tactic(auto, unfolding(crate::specs::Late::vacant_w))]
fn publish_vacant_slot(s: &mut [u64], sh: Shape, fr: u64, k: u64, g: u64, xf: u64, x: u64)
    ensures { s.new ≡ vacant_w s.old sh fr k g xf x }
{
    let i = k % size::PAGE_SIZE;
    put_slot_link(s, sh, xf, x, field::SLOT_PREVIOUS_FREE, k.saturating_add(1));
    put_frame(s, sh, fr, i, field::SLOT_TAG, value::TAG_VACANT);
    put_frame(s, sh, fr, i, field::SLOT_GENERATION, g);
    put_frame(s, sh, fr, i, field::SLOT_NEXT_FREE, x);
    put_frame(s, sh, fr, i, field::SLOT_PREVIOUS_FREE, 0);
}

// Page p, of the table whose first entry is e, has n busy slots and has had the generation g.
#[tactic(auto, unfolding(crate::specs::Late::marked_w))]
fn mark_page(s: &mut [u64], sh: Shape, e: u64, p: u64, g: u64, n: u64)
    ensures { s.new ≡ marked_w s.old sh e p g n }
{
    let high = page_word(s, sh, e, p, field::ENTRY_HIGH);
    put_page(s, sh, e, p, field::ENTRY_HIGH, high.max(g));
    put_page(s, sh, e, p, field::ENTRY_BUSY, n);
}

// Page p stands before the page of the link x.
#[tactic(auto, unfolding(crate::specs::Late::linked_w))]
pub fn link_page(s: &mut [u64], sh: Shape, e: u64, p: u64, x: u64)
    ensures { s.new ≡ linked_w s.old sh e p x }
{
    put_page_link(s, sh, e, x, field::ENTRY_PREVIOUS, p.saturating_add(1));
    put_page(s, sh, e, p, field::ENTRY_NEXT, x);
    put_page(s, sh, e, p, field::ENTRY_PREVIOUS, 0);
}

// A busy slot of page p fell vacant with the generation g. In the head a page with none is the first of the empty pages' order.
#[tactic(auto, unfolding(crate::specs::Late::fewer_w, crate::specs::Late::fewer_by))]
fn lower_busy(s: &mut [u64], sh: Shape, h: &mut TableHead, p: u64, g: u64)
    ensures words { s.new ≡ fewer_w s.old sh h.old p g }
    ensures head { h.new ≡ fewer_by (loadAt s.old sh) h.old p }
{
    let e = h.entry;
    let n = page_word(s, sh, e, p, field::ENTRY_BUSY).saturating_sub(1);
    mark_page(s, sh, e, p, g, n);
    if n == 0 {
        link_page(s, sh, e, p, h.first_empty);
        h.empty(p.saturating_add(1));
    }
}

// Slot k falls vacant: its generation advances and it goes to the head of the free order.
#[tactic(auto, using(crate::proofs::Last::vacate_last))]
pub fn vacate(s: &mut [u64], sh: Shape, b: u64, k: u64)
    ensures words { s.new ≡ vacate_w s.old sh b k }
{
    let mut h = head::load(s, sh, b);
    let x = h.first_free;
    let fr = frame_of(s, sh, h, k);
    let xf = link_frame(s, sh, h, x);
    let last = frame_word(s, sh, fr, k % size::PAGE_SIZE, field::SLOT_GENERATION);
    let g = codec::next_generation(last);
    publish_vacant_slot(s, sh, fr, k, g, xf, x);
    h.free(k.saturating_add(1));
    lower_busy(s, sh, &mut h, k / size::PAGE_SIZE, g);
    head::store_orders(s, sh, b, h);
}

// The head of an order after a slot or a page left it: its next, if it was the first.
pub fn head_after(before: u64, next: u64, first: u64) -> u64
    ensures { result ≡ pick (eqb before 0) next first }
{
    if before == 0 { next } else { first }
}

// Page p leaves its order, whose first is then the link that is given; it was x.
#[tactic(auto, unfolding(crate::specs::Late::unlinked_w, crate::specs::Late::first_without))]
pub fn leave_order(s: &mut [u64], sh: Shape, e: u64, p: u64, x: u64) -> u64
    ensures words { s.new ≡ unlinked_w s.old sh e p }
    ensures first { result ≡ first_without (loadAt s.old sh) e p x }
{
    let n = page_word(s, sh, e, p, field::ENTRY_NEXT);
    let q = page_word(s, sh, e, p, field::ENTRY_PREVIOUS);
    put_page_link(s, sh, e, q, field::ENTRY_NEXT, n);
    put_page_link(s, sh, e, n, field::ENTRY_PREVIOUS, q);
    head_after(q, n, x)
}

// A slot of page p with the generation g got busy. In the head the page is not among the empty ones any more.
#[tactic(auto, unfolding(crate::specs::Late::more_w, crate::specs::Late::more_by))]
fn raise_busy(s: &mut [u64], sh: Shape, h: &mut TableHead, p: u64, g: u64)
    ensures words { s.new ≡ more_w s.old sh h.old p g }
    ensures head { h.new ≡ more_by s.old sh h.old p g }
{
    let e = h.entry;
    let n = page_word(s, sh, e, p, field::ENTRY_BUSY);
    mark_page(s, sh, e, p, g, n.saturating_add(1));
    if n == 0 {
        let x = leave_order(s, sh, e, p, h.first_empty);
        h.empty(x);
    }
}

// Slot k, the head of the free order, in the frame fr, is Reserved by position j of the row in place r; the slot of the link n, in the frame nf, comes first then.
#[tactic(auto, unfolding(crate::specs::Late::held_w))]
fn reserve_free_slot(s: &mut [u64], sh: Shape, fr: u64, k: u64, nf: u64, n: u64, r: u64, j: u64)
    ensures { s.new ≡ held_w s.old sh fr k nf n r j }
{
    let i = k % size::PAGE_SIZE;
    put_slot_link(s, sh, nf, n, field::SLOT_PREVIOUS_FREE, 0);
    put_frame(s, sh, fr, i, field::SLOT_TAG, value::TAG_RESERVED);
    put_frame(s, sh, fr, i, field::SLOT_PLACE, r);
    put_frame(s, sh, fr, i, field::SLOT_POSITION, j);
}

// Takes the head of the free order for position j of the row in place r, and gives its number.
#[tactic(auto, unfolding(head::specs::Head::head_at, crate::specs::Sight::look), using(crate::proofs::Last::take_last))]
pub fn take_free(s: &mut [u64], sh: Shape, b: u64, r: u64, j: u64) -> u64
    ensures slot { result ≡ seen s.old sh b (hd head_first_free) - 1 }
    ensures words { s.new ≡ take_w s.old sh b result r j }
{
    let mut h = head::load(s, sh, b);
    let k = h.first_free.saturating_sub(1);
    let fr = frame_of(s, sh, h, k);
    let g = frame_word(s, sh, fr, k % size::PAGE_SIZE, field::SLOT_GENERATION);
    let n = frame_word(s, sh, fr, k % size::PAGE_SIZE, field::SLOT_NEXT_FREE);
    let nf = link_frame(s, sh, h, n);
    reserve_free_slot(s, sh, fr, k, nf, n, r, j);
    h.take(n);
    raise_busy(s, sh, &mut h, k / size::PAGE_SIZE, g);
    head::store_orders(s, sh, b, h);
    k
}

// Slot k, which is busy, is TransferReserved by position j of the row in place r.
#[tactic(auto, unfolding(crate::specs::Ops::move_w, crate::specs::Ops::move_p))]
pub fn mark_moving(s: &mut [u64], sh: Shape, b: u64, k: u64, r: u64, j: u64)
    ensures words { s.new ≡ move_w s.old sh b k r j }
{
    let fr = frame_link(s, sh, b, k);
    let i = k % size::PAGE_SIZE;
    put_frame(s, sh, fr, i, field::SLOT_TAG, value::TAG_TRANSFER_RESERVED);
    put_frame(s, sh, fr, i, field::SLOT_PLACE, r);
    put_frame(s, sh, fr, i, field::SLOT_POSITION, j);
}

// Slot k, which is busy, is occupied: what was Reserved is published, what was TransferReserved restored.
#[tactic(auto, unfolding(crate::specs::Ops::occupy_w, crate::specs::Ops::occupy_p))]
pub fn occupy(s: &mut [u64], sh: Shape, b: u64, k: u64, object: u64, rights: u64, flags: u64)
    ensures words { s.new ≡ occupy_w s.old sh b k object rights flags }
{
    let fr = frame_link(s, sh, b, k);
    let i = k % size::PAGE_SIZE;
    put_frame(s, sh, fr, i, field::SLOT_TAG, value::TAG_OCCUPIED);
    put_frame(s, sh, fr, i, field::SLOT_OBJECT, object);
    put_frame(s, sh, fr, i, field::SLOT_RIGHTS, rights);
    put_frame(s, sh, fr, i, field::SLOT_FLAGS, flags);
}

// All words of slot j of a frame, given plus 1; zeros where there is none.
#[inline(always)]
pub fn cell_in(s: &[u64], sh: Shape, fr: u64, j: u64) -> CellWords
    ensures { result ≡ cell_in (loadAt s.now sh) fr j }
{
    if fr == 0 {
        CellWords::default()
    } else {
        layout::cell_at(s, sh, fr - 1, j)
    }
}

// All words of slot k of table b; zeros where there is none.
#[inline(always)]
pub fn slot_at(s: &[u64], sh: Shape, b: u64, k: u64) -> CellWords
    ensures { result ≡ slot_at (loadAt s.now sh) b k }
{
    let fr = frame_link(s, sh, b, k);
    cell_in(s, sh, fr, k % size::PAGE_SIZE)
}
