// SPDX-FileCopyrightText: 2026 roolrz
// SPDX-License-Identifier: Apache-2.0
// Ported from src/capability/handle/mod.rs of HypeR-Proj/kernel, with changes.

// The requests that end or shorten a row: trim and abort of a reservation; rollback, commit, direct commit and direct rollback of a claim.
#![tactic(auto)]

ghost use Rattle.std.specs.Prelude.{◌≡◌, eqb};
ghost use Rattle.layout.specs.Layout.{load as loadAt, item};
ghost use Rattle.layout.specs.Fields.{item_operation};
ghost use Rattle.layout.specs.Values.{operation_move};
ghost use Rattle.model.specs.State.{till};
ghost use Rattle.model.specs.Step.{direct_commit_of};
ghost use Rattle.straight.specs.Straight.{direct_commit_straight};
ghost use Rattle.answer.specs.Does.{both, Gives, Takes, reply, no_words};
ghost use Rattle.claim.specs.EndsOps.{aborted_w, trimmed_w, abort_r, trim_r};
ghost use Rattle.claim.specs.Ops.{undo_w, undone_w, rolled_w, rollback_r, sent_rights, leave_w, left_w, send_w, sent_w, committed_w, commit_r};
ghost use Rattle.claim.specs.Ops.{pair_of, filled_w, direct_w, direct_commit_r, direct_rollback_r};
ghost use Rattle.format.specs.Fields.{count_field, id_field, destination_field};
ghost use Rattle.request.specs.Place.{word_of};

use codec::ReservationId;
use format::field::{FIELD_COUNT, FIELD_DESTINATION, FIELD_ID};
use format::op;
use format::refusal::Refusal;
use layout::{Shape, field, value};
use request::Record;

// The places of a claim's row and of a reservation's, of one length.
#[derive(Clone, Copy)]
struct Pair {
    from: u64,
    to: u64,
}

// The reservation in place x ends: its slots fall vacant and its row leaves.
#[tactic(auto, unfolding(crate::specs::EndsOps::aborted_w))]
fn abort_row(s: &mut [u64], sh: Shape, x: u64)
    ensures words { s.new ≡ aborted_w s.old sh x }
{
    let b = layout::row_word(s, sh, x, field::ROW_TABLE);
    let n = layout::row_word(s, sh, x, field::ROW_LENGTH);
    book::vacate_items(s, sh, b, x, 0, n);
    book::close_row(s, sh, x);
}

// "Closing, aborting, trimming and committing put slots at the head of the free order, one by one in list order".
// `abort`, `rollback` and `commit`, as parcel's `release_parcel` and plan's `drop_plan`, find their row and do one step: a function for all would take the step as a closure, and each would be as long.
#[tactic(auto, unfolding(answer::specs::Does::on_row_r))]
pub fn abort(s: &mut [u64], sh: Shape, id: ReservationId) -> Result<(), Refusal>
    ensures { Gives s.new (reply no_words result) (λ os base. abort_r s.old os sh base id.0) }
{
    // Field by field, for speed, as in `book::vacate_items`.
    let own = Shape {
        tables: sh.tables,
        pages: sh.pages,
        frames: sh.frames,
        objects: sh.objects,
        rows: sh.rows,
    };
    let x = book::row_of_kind(s, own, id, value::KIND_RESERVATION).ok_or(Refusal::Misuse)?;
    abort_row(s, own, x);
    Ok(())
}

// The reservation in place x keeps its first n slots.
#[tactic(auto, unfolding(crate::specs::EndsOps::trimmed_w))]
fn trim_row(s: &mut [u64], sh: Shape, x: u64, n: u64)
    ensures words { s.new ≡ trimmed_w s.old sh x n }
{
    let b = layout::row_word(s, sh, x, field::ROW_TABLE);
    let count = layout::row_word(s, sh, x, field::ROW_LENGTH);
    book::vacate_items(s, sh, b, x, n, count);
    book::shrink_row(s, sh, x, n);
}

// "trim to 0 or above the batch": 18.
#[tactic(auto, unfolding(crate::specs::EndsOps::trim_r))]
pub fn trim(s: &mut [u64], sh: Shape, id: ReservationId, n: u64) -> Result<(), Refusal>
    ensures { Gives s.new (reply no_words result) (λ os base. trim_r s.old os sh base id.0 n) }
{
    let x = book::row_of_kind(s, sh, id, value::KIND_RESERVATION).ok_or(Refusal::Misuse)?;
    if n == 0 || layout::row_word(s, sh, x, field::ROW_LENGTH) < n {
        return Err(Refusal::Misuse);
    }
    trim_row(s, sh, x, n);
    Ok(())
}

// Whether entry j of the claim in place x moves a handle: else it copies one.
fn moves(s: &[u64], sh: Shape, x: u64, j: u64) -> bool
    ensures { result ≡ eqb (loadAt s.now sh (item x j item_operation)) operation_move }
{
    layout::item_word(s, sh, x, j, field::ITEM_OPERATION) == value::OPERATION_MOVE
}

// Entry j of the claim in place x, of table b, is undone: a slot holds its handle again, which stands in the entry of its own; a copy is
// released.
// (x, j), a row's place and an item's number, stay two in these: each is called with the number of a loop's turn, and ledger's `Item` would be made for each call and taken apart in it.
// The reads of a handle's object and flags stand in `fill_slots` too. By one function of both, without an inline hint, 8 moves
// and their rollback took 8,091 instructions for 7,722, and a direct commit of 32 with its reservation and claim 49,368 for 48,134.
#[tactic(auto, unfolding(crate::specs::Ops::undo_w))]
fn undo_entry(s: &mut [u64], sh: Shape, b: u64, x: u64, j: u64)
    ensures words { s.new ≡ undo_w s.old sh b x j }
{
    let o = layout::item_word(s, sh, x, j, field::ITEM_OBJECT);
    if moves(s, sh, x, j) {
        let k = layout::item_word(s, sh, x, j, field::ITEM_MOVED);
        let r = layout::item_word(s, sh, x, j, field::ITEM_RIGHTS);
        let f = layout::item_word(s, sh, x, j, field::ITEM_FLAGS);
        storage::occupy(s, sh, b, k, o, r, f);
    } else {
        object::lower_object(s, sh, o);
    }
}

// Its first n entries are. This loop and the three below differ in the call: a loop of one call stays a loop, since a function for all would take the call as a closure, and state no more.
#[tactic(auto, unfolding(crate::specs::Ops::each), using(crate::proofs::Each::each_last))]
fn undo_entries(s: &mut [u64], sh: Shape, b: u64, x: u64, n: u64)
    ensures words { s.new ≡ undone_w s.old sh b x n }
{
    for j in 0..n {
        undo_entry(s, sh, b, x, j);
    }
}

// The claim in place x is rolled back, and its row leaves: mod.rs `rollback_transfer`.
#[tactic(auto, unfolding(crate::specs::Ops::rolled_w))]
fn rollback_row(s: &mut [u64], sh: Shape, x: u64)
    ensures words { s.new ≡ rolled_w s.old sh x }
{
    let b = layout::row_word(s, sh, x, field::ROW_TABLE);
    let n = layout::row_word(s, sh, x, field::ROW_LENGTH);
    undo_entries(s, sh, b, x, n);
    book::close_row(s, sh, x);
}

// A claim ends: its slots hold their handles again, its copies are released. "unknown .. open row of the kind named": 18.
#[tactic(auto, unfolding(answer::specs::Does::on_row_r))]
pub fn rollback(s: &mut [u64], sh: Shape, id: ReservationId) -> Result<(), Refusal>
    ensures { Gives s.new (reply no_words result) (λ os base. rollback_r s.old os sh base id.0) }
{
    let x = book::row_of_kind(s, sh, id, value::KIND_CLAIM).ok_or(Refusal::Misuse)?;
    rollback_row(s, sh, x);
    Ok(())
}

// The rights that the receiver of entry j gets: a copy has them already.
#[tactic(auto, unfolding(crate::specs::Ops::sent_rights))]
fn sent_rights(s: &[u64], sh: Shape, x: u64, j: u64) -> u64
    ensures { result ≡ sent_rights (loadAt s.now sh) x j }
{
    if moves(s, sh, x, j) {
        layout::item_word(s, sh, x, j, field::ITEM_GRANTED)
    } else {
        layout::item_word(s, sh, x, j, field::ITEM_RIGHTS)
    }
}

// The slot that entry j moves, if it moves one, falls vacant.
#[tactic(auto, unfolding(crate::specs::Ops::leave_w))]
fn leave_entry(s: &mut [u64], sh: Shape, b: u64, x: u64, j: u64)
    ensures words { s.new ≡ leave_w s.old sh b x j }
{
    if moves(s, sh, x, j) {
        let k = layout::item_word(s, sh, x, j, field::ITEM_MOVED);
        storage::vacate(s, sh, b, k);
    }
}

// Those of the first n entries, "one by one in list order".
#[tactic(auto, unfolding(crate::specs::Ops::each), using(crate::proofs::Each::each_last))]
fn leave_entries(s: &mut [u64], sh: Shape, b: u64, x: u64, n: u64)
    ensures words { s.new ≡ left_w s.old sh b x n }
{
    for j in 0..n {
        leave_entry(s, sh, b, x, j);
    }
}

// Entry j becomes the handle that the receiver gets; a copy is that already.
#[tactic(auto, unfolding(crate::specs::Ops::send_w, crate::specs::Ops::sent_rights), using(layout::specs::Layout::save_load))]
fn send_entry(s: &mut [u64], sh: Shape, x: u64, j: u64)
    ensures words { s.new ≡ send_w s.old sh x j }
{
    if moves(s, sh, x, j) {
        let r = layout::item_word(s, sh, x, j, field::ITEM_GRANTED);
        layout::put_item(s, sh, x, j, field::ITEM_RIGHTS, r);
    }
}

// The first n entries do.
#[tactic(auto, unfolding(crate::specs::Ops::each), using(crate::proofs::Each::each_last))]
fn send_entries(s: &mut [u64], sh: Shape, x: u64, n: u64)
    ensures words { s.new ≡ sent_w s.old sh x n }
{
    for j in 0..n {
        send_entry(s, sh, x, j);
    }
}

// The claim in place x is a parcel in that place: mod.rs `commit_transfer`.
#[tactic(auto, unfolding(crate::specs::Ops::committed_w))]
fn commit_row(s: &mut [u64], sh: Shape, x: u64)
    ensures words { s.new ≡ committed_w s.old sh x }
{
    let b = layout::row_word(s, sh, x, field::ROW_TABLE);
    let n = layout::row_word(s, sh, x, field::ROW_LENGTH);
    leave_entries(s, sh, b, x, n);
    send_entries(s, sh, x, n);
    layout::put_row(s, sh, x, field::ROW_KIND, value::KIND_PARCEL);
}

// "Commit turns a claim's row into a parcel of the same id."
#[tactic(auto, unfolding(answer::specs::Does::on_row_r))]
pub fn commit(s: &mut [u64], sh: Shape, id: ReservationId) -> Result<(), Refusal>
    ensures { Gives s.new (reply no_words result) (λ os base. commit_r s.old os sh base id.0) }
{
    let x = book::row_of_kind(s, sh, id, value::KIND_CLAIM).ok_or(Refusal::Misuse)?;
    commit_row(s, sh, x);
    Ok(())
}

// The rows of a claim and of a reservation. "unknown .. open row of the kind named .. lengths differ": 18.
#[tactic(auto, unfolding(crate::specs::Ops::pair_of, crate::specs::Ops::paired))]
fn pair_of(
    s: &[u64],
    sh: Shape,
    id: ReservationId,
    destination: ReservationId,
) -> Result<Pair, Refusal>
    ensures { result ≡ pair_of (loadAt s.now sh) sh id.0 destination.0 }
{
    let from = book::row_of_kind(s, sh, id, value::KIND_CLAIM).ok_or(Refusal::Misuse)?;
    let to = book::row_of_kind(s, sh, destination, value::KIND_RESERVATION).ok_or(Refusal::Misuse)?;
    let n = layout::row_word(s, sh, from, field::ROW_LENGTH);
    if n != layout::row_word(s, sh, to, field::ROW_LENGTH) {
        return Err(Refusal::Misuse);
    }
    Ok(Pair { from, to })
}

// The first n entries of the claim in place `from` fill the slots of the reservation in place `to`, of table c.
#[tactic(auto, unfolding(crate::specs::Ops::each, crate::specs::Ops::fill_w), using(crate::proofs::Each::each_last))]
fn fill_slots(s: &mut [u64], sh: Shape, c: u64, to: u64, from: u64, n: u64)
    ensures words { s.new ≡ filled_w s.old sh c to from n }
{
    for j in 0..n {
        let k = layout::item_word(s, sh, to, j, field::ITEM_SLOT);
        let o = layout::item_word(s, sh, from, j, field::ITEM_OBJECT);
        let r = sent_rights(s, sh, from, j);
        let f = layout::item_word(s, sh, from, j, field::ITEM_FLAGS);
        storage::occupy(s, sh, c, k, o, r, f);
    }
}

// The handles of the claim in place `from` go into the slots of the reservation in place `to`, and both rows leave: mod.rs `commit_locked`.
#[tactic(auto, unfolding(crate::specs::Ops::direct_w))]
fn direct_rows(s: &mut [u64], sh: Shape, from: u64, to: u64)
    ensures words { s.new ≡ direct_w s.old sh from to }
{
    let b = layout::row_word(s, sh, from, field::ROW_TABLE);
    let n = layout::row_word(s, sh, from, field::ROW_LENGTH);
    let c = layout::row_word(s, sh, to, field::ROW_TABLE);
    leave_entries(s, sh, b, from, n);
    fill_slots(s, sh, c, to, from, n);
    book::close_row(s, sh, from);
    book::close_row(s, sh, to);
}

// A claim's handles straight into a reservation, of one table or two. Its definitions stand in the contract of `answer_direct_commit`.
#[tactic(auto, unfolding(crate::specs::Ops::direct_commit_r, crate::specs::Ops::pair_of))]
pub fn direct_commit(
    s: &mut [u64],
    sh: Shape,
    id: ReservationId,
    destination: ReservationId,
) -> Result<(), Refusal>
    ensures { Gives s.new (reply no_words result) (λ os base. direct_commit_r s.old os sh base id.0 destination.0) }
{
    let rows = pair_of(s, sh, id, destination)?;
    direct_rows(s, sh, rows.from, rows.to);
    Ok(())
}

// A claim rolled back, then a reservation aborted, of one table or two: mod.rs `rollback_locked`.
#[tactic(auto, unfolding(crate::specs::Ops::direct_rollback_r, crate::specs::Ops::pair_of))]
pub fn direct_rollback(
    s: &mut [u64],
    sh: Shape,
    id: ReservationId,
    destination: ReservationId,
) -> Result<(), Refusal>
    ensures { Gives s.new (reply no_words result) (λ os base. direct_rollback_r s.old os sh base id.0 destination.0) }
{
    let rows = pair_of(s, sh, id, destination)?;
    rollback_row(s, sh, rows.from);
    abort(s, sh, destination)
}

// Direct commit with its answer, by both of its definitions, as parcel's `answer_publish`: document 01's step, and the one straight from the rows (document 02, 3), which goes as `fill_slots` does.
#[inline(always)]
fn answer_direct_commit(
    s: &mut [u64],
    sh: Shape,
    id: ReservationId,
    destination: ReservationId,
    out: &mut [u64],
    base: usize,
)
    ensures words { both s.new out.new ≡ direct_commit_r s.old out.old sh base id.0 destination.0 }
    ensures batch { Takes s.old out.old sh base (λ st. direct_commit_of till st id.0 destination.0) (both s.new out.new) }
    ensures straight { Takes s.old out.old sh base (λ st. direct_commit_straight till st id.0 destination.0) (both s.new out.new) }
{
    answer::outcome(out, base, direct_commit(s, sh, id, destination));
}

// The request of a list at a place: its fields are read.
pub fn serve_trim(s: &mut [u64], sh: Shape, rq: &Record, out: &mut [u64], base: usize)
    ensures { both s.new out.new ≡ trim_r s.old out.old sh base (word_of rq.now id_field) (word_of rq.now count_field) }
{
    let [id, count] = rq.fields(op::OP_TRIM, [FIELD_ID, FIELD_COUNT]);
    answer::outcome(out, base, trim(s, sh, ReservationId(id), count));
}

pub fn serve_abort(s: &mut [u64], sh: Shape, rq: &Record, out: &mut [u64], base: usize)
    ensures { both s.new out.new ≡ abort_r s.old out.old sh base (word_of rq.now id_field) }
{
    let id = ReservationId(rq.field(FIELD_ID));
    answer::outcome(out, base, abort(s, sh, id));
}

pub fn serve_rollback(s: &mut [u64], sh: Shape, rq: &Record, out: &mut [u64], base: usize)
    ensures { both s.new out.new ≡ rollback_r s.old out.old sh base (word_of rq.now id_field) }
{
    let id = ReservationId(rq.field(FIELD_ID));
    answer::outcome(out, base, rollback(s, sh, id));
}

pub fn serve_commit(s: &mut [u64], sh: Shape, rq: &Record, out: &mut [u64], base: usize)
    ensures { both s.new out.new ≡ commit_r s.old out.old sh base (word_of rq.now id_field) }
{
    let id = ReservationId(rq.field(FIELD_ID));
    answer::outcome(out, base, commit(s, sh, id));
}

pub fn serve_direct_commit(s: &mut [u64], sh: Shape, rq: &Record, out: &mut [u64], base: usize)
    ensures { both s.new out.new ≡ direct_commit_r s.old out.old sh base (word_of rq.now id_field) (word_of rq.now destination_field) }
{
    let [id, destination] = rq.fields(op::OP_DIRECT_COMMIT, [FIELD_ID, FIELD_DESTINATION]);
    answer_direct_commit(
        s,
        sh,
        ReservationId(id),
        ReservationId(destination),
        out,
        base,
    );
}

pub fn serve_direct_rollback(s: &mut [u64], sh: Shape, rq: &Record, out: &mut [u64], base: usize)
    ensures { both s.new out.new ≡ direct_rollback_r s.old out.old sh base (word_of rq.now id_field) (word_of rq.now destination_field) }
{
    let [id, destination] = rq.fields(op::OP_DIRECT_ROLLBACK, [FIELD_ID, FIELD_DESTINATION]);
    let outcome = direct_rollback(s, sh, ReservationId(id), ReservationId(destination));
    answer::outcome(out, base, outcome);
}
