// SPDX-FileCopyrightText: 2026 roolrz
// SPDX-License-Identifier: Apache-2.0
// Ported from src/capability/handle/storage.rs and src/capability/handle/mod.rs of HypeR-Proj/kernel, with changes.

// The end of a table: a stopping owner's handles one by one, and teardown, which takes a table from active to retired.
#![tactic(auto)]

ghost use Rattle.std.specs.Prelude.{◌≡◌, ◌∷◌, ◌+◌, ◌-◌, ◌*◌, ◌≤◌, min, max};
ghost use Rattle.layout.specs.Layout.{load as loadAt, head as head_at};
ghost use Rattle.layout.specs.Fields.{head_first_entry};
ghost use Rattle.layout.specs.Sizes.{page_size};
ghost use Rattle.layout.specs.Values.{life_tearing_down, life_retired};
ghost use Rattle.lookup.specs.Scan.{length_at};
ghost use Rattle.book.specs.Ops.{place_of};
ghost use Rattle.answer.specs.Does.{both, reply, no_words, Gives};
ghost use Rattle.teardown.specs.Ops.{found_in, next_link, remove_w, life_w, opens_at, open_in, tearing, removed_list, closed_list, stopped_r, stopping_r, teardown_start_r, torn_r, teardown_step_r, teardown_finish_r};
ghost use Rattle.format.specs.Fields.{table_field, cursor_field};
ghost use Rattle.request.specs.Place.{word_of};

use format::field::{FIELD_CURSOR, FIELD_TABLE};
use format::op;
use format::refusal::Refusal;
use layout::{Shape, field, size, value};
use lookup::{HandleInfo, SnapshotEntry};
use request::Record;

// What a turn of `remove_stopping_owner` removed, if anything, and the cursor as left.
#[derive(Clone, Copy)]
pub struct Removed {
    pub entry: Option<SnapshotEntry>,
    pub cursor: u64,
}

// The first occupied slot of table b on page p from slot `start` on; `length` is how many slots the table has, and e its first page entry. A page without frame is passed over as a whole, before
// its slots are counted, and this is compiled in place: a walk over pages without frame took 44 instructions a page where the slots were counted first, and takes 20.
#[inline(always)]
#[tactic(auto, using(crate::specs::Walk::length_few))]
fn occupied_on(s: &[u64], sh: Shape, b: u64, e: u64, p: u64, start: u64, length: u64) -> Option<u64>
    requires entry { e ≡ loadAt s.now sh (head_at b head_first_entry) }
    requires slots { length ≡ length_at (loadAt s.now sh) b }
    requires page { p * page_size ≤ length }
    ensures { result ≡ found_in (loadAt s.now sh) b (max start (p * page_size)) (min length ((p + 1) * page_size) - max start (p * page_size)) }
{
    let fr = storage::page_word(s, sh, e, p, field::ENTRY_FRAME).checked_sub(1)?;
    let k = start.max(p * size::PAGE_SIZE);
    let end = length.min((p + 1) * size::PAGE_SIZE);
    (k..end).find(|j| layout::cell_word(s, sh, fr, *j % size::PAGE_SIZE, field::SLOT_TAG)
        == value::TAG_OCCUPIED)
}

// The first occupied slot of table b from a slot on.
#[tactic(auto, using(crate::specs::Walk::length_few, crate::specs::Walk::next_start, crate::specs::Walk::next_some, crate::specs::Walk::next_none, crate::specs::Walk::next_end))]
pub fn next_occupied(s: &[u64], sh: Shape, b: u64, start: u64) -> Option<u64>
    ensures { result ≡ place_of (next_link (loadAt s.now sh) b start) }
{
    let length = lookup::table_length(s, sh, b);
    let e = layout::head_word(s, sh, b, field::HEAD_FIRST_ENTRY);
    for p in start / size::PAGE_SIZE..length.div_ceil(size::PAGE_SIZE) {
        let found = occupied_on(s, sh, b, e, p, start, length);
        if found.is_some() {
            return found;
        }
    }
    None
}

// Slot k, which is occupied, falls vacant and its handle's count is released.
#[tactic(auto, unfolding(crate::specs::Ops::remove_w))]
fn remove_slot(s: &mut [u64], sh: Shape, b: u64, k: u64)
    ensures { s.new ≡ remove_w s.old sh b k }
{
    let object = storage::slot_word(s, sh, b, k, field::SLOT_OBJECT);
    storage::vacate(s, sh, b, k);
    object::lower_object(s, sh, object);
}

// Table b is tearing down, from a cursor on.
#[tactic(auto, unfolding(crate::specs::Ops::life_w))]
fn put_tearing(s: &mut [u64], sh: Shape, b: u64, cursor: u64)
    ensures { s.new ≡ life_w s.old sh b life_tearing_down cursor }
{
    let mut h = head::load(s, sh, b);
    h.tear(cursor);
    head::store_life(s, sh, b, h);
}

// Table b is retired. Not one function with `put_tearing`: each is a step of the head, and a lifecycle given as a number would go past these steps.
#[tactic(auto, unfolding(crate::specs::Ops::life_w))]
fn put_retired(s: &mut [u64], sh: Shape, b: u64)
    ensures { s.new ≡ life_w s.old sh b life_retired 0 }
{
    let mut h = head::load(s, sh, b);
    h.retire(0);
    head::store_life(s, sh, b, h);
}

// The rest of `remove_stopping_owner`, on an active table.
#[tactic(auto, unfolding(crate::specs::Ops::stopped_r), using(crate::specs::Walk::next_below))]
fn remove_stopping(s: &mut [u64], sh: Shape, b: u64, cursor: u64) -> Removed
    ensures { Gives s.new (0 ∷ removed_list result) (λ os base. stopped_r s.old os sh base b cursor) }
{
    let Some(k) = next_occupied(s, sh, b, cursor) else {
        return Removed {
            entry: None,
            cursor: 0,
        };
    };
    let entry = lookup::snapshot_at(s, sh, b, k);
    remove_slot(s, sh, b, k);
    Removed {
        entry: Some(entry),
        cursor: k + 1,
    }
}

// "On an inactive table `remove_stopping_owner` and `take_empty_page` answer "none", not a refusal; so do the end of a walk ..". "The
// cursor of `remove_stopping_owner` is a request field, and the answer gives it as left".
#[tactic(auto, unfolding(crate::specs::Ops::stopping_r))]
pub fn remove_stopping_owner(
    s: &mut [u64],
    sh: Shape,
    b: u64,
    cursor: u64,
) -> Result<Removed, Refusal>
    ensures { Gives s.new (reply removed_list result) (λ os base. stopping_r s.old os sh base b cursor) }
{
    if sh.tables as u64 <= b {
        return Err(Refusal::Misuse);
    }
    if layout::head_word(s, sh, b, field::HEAD_LIFECYCLE) != value::LIFE_ACTIVE {
        return Ok(Removed {
            entry: None,
            cursor,
        });
    }
    Ok(remove_stopping(s, sh, b, cursor))
}

// Whether the row in place x is an open reservation or claim of table b.
#[tactic(auto, unfolding(crate::specs::Ops::opens_at))]
fn opens_in(s: &[u64], sh: Shape, b: u64, x: u64) -> bool
    ensures { result ≡ opens_at (loadAt s.now sh) b x }
{
    let what = layout::row_word(s, sh, x, field::ROW_KIND);
    matches!(what, value::KIND_RESERVATION | value::KIND_CLAIM)
        && layout::row_word(s, sh, x, field::ROW_TABLE) == b
}

// Whether the book has an open reservation or claim of table b.
#[tactic(auto, unfolding(crate::specs::Ops::open_in))]
fn any_open(s: &[u64], sh: Shape, b: u64) -> bool
    ensures { result ≡ open_in (loadAt s.now sh) sh b }
{
    let n = layout::root_word(s, sh, field::ROOT_USED_ROWS).min(sh.rows as u64);
    (0..n).any(|i| opens_in(s, sh, b, layout::index_word(s, sh, i)))
}

// "Teardown start: 16, 14".
#[tactic(auto, unfolding(crate::specs::Ops::teardown_start_r))]
pub fn begin_teardown(s: &mut [u64], sh: Shape, b: u64) -> Result<(), Refusal>
    ensures { Gives s.new (reply no_words result) (λ os base. teardown_start_r s.old os sh base b) }
{
    lookup::active_table(s, sh, b)?;
    if any_open(s, sh, b) {
        return Err(Refusal::OutstandingReservation);
    }
    put_tearing(s, sh, b, 0);
    Ok(())
}

// Whether table b is known and tearing down.
#[tactic(auto, unfolding(crate::specs::Ops::tearing))]
fn is_tearing(s: &[u64], sh: Shape, b: u64) -> bool
    ensures { result ≡ tearing (loadAt s.now sh) sh b }
{
    b < sh.tables as u64
        && layout::head_word(s, sh, b, field::HEAD_LIFECYCLE) == value::LIFE_TEARING_DOWN
}

// The rest of `remove_next`, on a table that is tearing down: "its cursor stands in the table's head".
#[tactic(auto, unfolding(crate::specs::Ops::torn_r), using(crate::specs::Walk::next_below))]
fn remove_tearing(s: &mut [u64], sh: Shape, b: u64) -> Option<HandleInfo>
    ensures { Gives s.new (0 ∷ closed_list result) (λ os base. torn_r s.old os sh base b) }
{
    let cursor = layout::head_word(s, sh, b, field::HEAD_CURSOR);
    let k = next_occupied(s, sh, b, cursor)?;
    let info = lookup::info_of(s, sh, lookup::handle_at(s, sh, b, k));
    remove_slot(s, sh, b, k);
    put_tearing(s, sh, b, k + 1);
    Some(info)
}

// "18 Misuse: .. teardown step out of turn".
#[tactic(auto, unfolding(crate::specs::Ops::teardown_step_r))]
pub fn remove_next(s: &mut [u64], sh: Shape, b: u64) -> Result<Option<HandleInfo>, Refusal>
    ensures { Gives s.new (reply closed_list result) (λ os base. teardown_step_r s.old os sh base b) }
{
    if !is_tearing(s, sh, b) {
        return Err(Refusal::Misuse);
    }
    Ok(remove_tearing(s, sh, b))
}

// "18 Misuse: .. finish with an occupied slot".
#[tactic(auto, unfolding(crate::specs::Ops::teardown_finish_r))]
pub fn finish_teardown(s: &mut [u64], sh: Shape, b: u64) -> Result<(), Refusal>
    ensures { Gives s.new (reply no_words result) (λ os base. teardown_finish_r s.old os sh base b) }
{
    if !is_tearing(s, sh, b) || next_occupied(s, sh, b, 0).is_some() {
        return Err(Refusal::Misuse);
    }
    put_retired(s, sh, b);
    Ok(())
}

// The request of a list at a place: its fields are read.
pub fn serve_remove_stopping_owner(
    s: &mut [u64],
    sh: Shape,
    rq: &Record,
    out: &mut [u64],
    base: usize,
)
    ensures { both s.new out.new ≡ stopping_r s.old out.old sh base (word_of rq.now table_field) (word_of rq.now cursor_field) }
{
    let [table, cursor] = rq.fields(op::OP_REMOVE_STOPPING_OWNER, [FIELD_TABLE, FIELD_CURSOR]);
    match remove_stopping_owner(s, sh, table, cursor) {
        Ok(
            Removed {
                entry: Some(x),
                cursor,
            },
        ) => {
            let [koid, kind, rights, flags] = x.info.words();
            answer::say(
                out,
                base,
                &[1, cursor, x.value.0, koid, kind, rights, flags],
            );
        }
        Ok(
            Removed {
                entry: None,
                cursor,
            },
        ) => answer::say(out, base, &[0, cursor]),
        Err(refusal) => answer::refuse(out, base, refusal.number()),
    }
}

pub fn serve_teardown_start(s: &mut [u64], sh: Shape, rq: &Record, out: &mut [u64], base: usize)
    ensures { both s.new out.new ≡ teardown_start_r s.old out.old sh base (word_of rq.now table_field) }
{
    let table = rq.field(FIELD_TABLE);
    answer::outcome(out, base, begin_teardown(s, sh, table));
}

pub fn serve_teardown_step(s: &mut [u64], sh: Shape, rq: &Record, out: &mut [u64], base: usize)
    ensures { both s.new out.new ≡ teardown_step_r s.old out.old sh base (word_of rq.now table_field) }
{
    let table = rq.field(FIELD_TABLE);
    match remove_next(s, sh, table) {
        Ok(Some(info)) => {
            let [koid, kind, rights, flags] = info.words();
            answer::say(out, base, &[1, koid, kind, rights, flags]);
        }
        Ok(None) => answer::say(out, base, &[0]),
        Err(refusal) => answer::refuse(out, base, refusal.number()),
    }
}

pub fn serve_teardown_finish(s: &mut [u64], sh: Shape, rq: &Record, out: &mut [u64], base: usize)
    ensures { both s.new out.new ≡ teardown_finish_r s.old out.old sh base (word_of rq.now table_field) }
{
    let table = rq.field(FIELD_TABLE);
    answer::outcome(out, base, finish_teardown(s, sh, table));
}
