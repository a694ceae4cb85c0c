// SPDX-FileCopyrightText: 2026 roolrz
// SPDX-License-Identifier: Apache-2.0
// Ported from src/capability/handle/mod.rs of HypeR-Proj/kernel, with changes.

// The requests on plans, which hold the frames of a later reservation: make plan, use plan and drop plan (document 02, 1).
#![tactic(auto)]

ghost use Rattle.std.specs.Prelude.{◌≡◌, ◌∷◌};
ghost use Rattle.layout.specs.Layout.{load as loadAt};
ghost use Rattle.request.specs.Place.{word_of};
ghost use Rattle.format.specs.Fields.{table_field, count_field, id_field};
ghost use Rattle.answer.specs.Does.{both, reply, no_words, Gives};
ghost use Rattle.format.specs.Refusals.{number_of};
ghost use Rattle.plan.specs.Ops.{owner_word, hold_w, hold_all_w, kept_w, plan_w, plan_list, plan_r, make_plan_r, give_w, give_all_w, drop_w, drop_plan_r, stale_at, use_refusal, use_r, used_r, use_plan_r};

use codec::ReservationId;
use format::field::{FIELD_COUNT, FIELD_ID, FIELD_TABLE};
use format::op;
use format::refusal::Refusal;
use layout::{Shape, field, size, value};
use request::Record;

// "1 the id, 2 the count, 3 the number of frames": what is told of a plan that was made.
#[derive(Clone, Copy)]
pub struct MadePlan {
    pub id: ReservationId,
    pub count: u64,
    pub frames: u64,
}

// The owner word of a frame that the plan in place x holds.
fn owner_word(x: u64) -> u64
    ensures { result ≡ owner_word x }
{
    size::PLAN_OWNER + x.min(size::ROWS_MAX)
}

// The lowest free frame is taken for the plan in place x, and item j names it.
#[tactic(auto, unfolding(crate::specs::Ops::hold_w))]
fn hold_frame(s: &mut [u64], sh: Shape, x: u64, j: u64)
    ensures { s.new ≡ hold_w sh x j s.old }
{
    let f = frames::lowest_free(s, sh);
    let o = owner_word(x);
    frames::take_frame(s, sh, f, o);
    layout::put_item(s, sh, x, j, field::ITEM_FRAME, f);
}

// So n frames, for its first n items. A loop of one call stays a loop, as claim's.
#[tactic(auto, unfolding(growth::specs::Words::each_w), using(growth::specs::Code::each_last))]
fn hold_frames(s: &mut [u64], sh: Shape, x: u64, n: u64)
    ensures { s.new ≡ hold_all_w sh x 0 n s.old }
{
    for j in 0..n {
        hold_frame(s, sh, x, j);
    }
}

// What a plan of n slots of table b keeps beside its pages and frames: the count, the epoch and the number of free slots, in the row in place x.
#[tactic(auto, unfolding(crate::specs::Ops::kept_w))]
fn put_kept(s: &mut [u64], sh: Shape, b: u64, x: u64, n: u64)
    ensures { s.new ≡ kept_w s.old sh b x n }
{
    let e = layout::head_word(s, sh, b, field::HEAD_EPOCH);
    let c = layout::head_word(s, sh, b, field::HEAD_FREE_SLOTS);
    layout::put_row(s, sh, x, field::ROW_COUNT, n);
    layout::put_row(s, sh, x, field::ROW_EPOCH, e);
    layout::put_item(s, sh, x, 0, field::ITEM_FREE_SLOTS, c);
}

// A plan of n slots of table b, which needs p pages: its pages and frames stand in the items of the row that opens.
#[tactic(auto, unfolding(crate::specs::Ops::plan_w, crate::specs::Ops::filled_w))]
fn open_plan(s: &mut [u64], sh: Shape, b: u64, n: u64, p: u64)
    ensures { s.new ≡ plan_w s.old sh b n p }
{
    let x = book::spare_place(s, sh);
    growth::list_pages(s, sh, b, x, p);
    hold_frames(s, sh, x, p);
    put_kept(s, sh, b, x, n);
    book::open_row(s, sh, value::KIND_PLAN, b, p);
}

// A plan of n slots of table b, which needs p pages.
#[tactic(auto, unfolding(crate::specs::Ops::plan_r))]
fn plan_slots(s: &mut [u64], sh: Shape, b: u64, n: u64, p: u64) -> MadePlan
    ensures { Gives s.new (0 ∷ plan_list result) (λ os base. plan_r s.old os sh base b n p) }
{
    let id = layout::root_word(s, sh, field::ROOT_NEXT_ID);
    open_plan(s, sh, b, n, p);
    MadePlan {
        id: ReservationId(id),
        count: n,
        frames: p,
    }
}

// "with the refusals of a reservation in its order".
#[tactic(auto, unfolding(crate::specs::Ops::make_plan_r))]
pub fn make_plan(s: &mut [u64], sh: Shape, b: u64, n: u64) -> Result<MadePlan, Refusal>
    ensures { Gives s.new (reply plan_list result) (λ os base. make_plan_r s.old os sh base b n) }
{
    let p = reserve::check_reserve(s, sh, b, n)?;
    Ok(plan_slots(s, sh, b, n, p))
}

// "It is stale exactly when a snapshot for its count taken now would differ or be refused": the plan in place x, of its table as a reservation would find it.
#[tactic(auto, unfolding(crate::specs::Ops::stale_in))]
fn is_stale(s: &[u64], sh: Shape, x: u64) -> bool
    ensures { result ≡ stale_at (loadAt s.now sh) x }
{
    let b = layout::row_word(s, sh, x, field::ROW_TABLE);
    let n = layout::row_word(s, sh, x, field::ROW_COUNT);
    let k = layout::row_word(s, sh, x, field::ROW_LENGTH);
    layout::head_word(s, sh, b, field::HEAD_EPOCH) != layout::row_word(s, sh, x, field::ROW_EPOCH)
        || layout::head_word(s, sh, b, field::HEAD_FREE_SLOTS)
            != layout::item_word(s, sh, x, 0, field::ITEM_FREE_SLOTS)
        || growth::pages_needed(s, sh, b, n) != k
        || !growth::pages_same(s, sh, b, x, k)
}

// "21 StalePlan, after TableRetired and before the id", of the plan in place x.
#[tactic(auto, unfolding(crate::specs::Ops::use_refusal))]
fn check_use(s: &[u64], sh: Shape, x: u64) -> Result<(), Refusal>
    ensures { number_of result ≡ use_refusal (loadAt s.now sh) sh x }
{
    lookup::active_table(s, sh, layout::row_word(s, sh, x, field::ROW_TABLE))?;
    if is_stale(s, sh, x) {
        return Err(Refusal::StalePlan);
    }
    book::id_left(s, sh)
}

// The frame that item j of the row in place x names is free again.
#[tactic(auto, unfolding(crate::specs::Ops::give_w))]
fn give_frame(s: &mut [u64], sh: Shape, x: u64, j: u64)
    ensures { s.new ≡ give_w sh x j s.old }
{
    let f = layout::item_word(s, sh, x, j, field::ITEM_FRAME);
    frames::give_frame(s, sh, f);
}

// So those of its first n items. A loop of one call stays a loop, as claim's.
#[tactic(auto, unfolding(growth::specs::Words::each_w), using(growth::specs::Code::each_last))]
fn give_frames(s: &mut [u64], sh: Shape, x: u64, n: u64)
    ensures { s.new ≡ give_all_w sh x 0 n s.old }
{
    for j in 0..n {
        give_frame(s, sh, x, j);
    }
}

// The plan in place x leaves, and its frames are free. The words of its row and of its items stay, and the place is the next to open.
#[tactic(auto, unfolding(crate::specs::Ops::drop_w))]
fn drop_row(s: &mut [u64], sh: Shape, x: u64)
    ensures { s.new ≡ drop_w s.old sh x }
{
    let n = layout::row_word(s, sh, x, field::ROW_LENGTH);
    book::close_row(s, sh, x);
    give_frames(s, sh, x, n);
}

// The plan in place x is used: it is dropped, its pages are attached in the frames that it held, and its count of slots is reserved.
#[tactic(auto, unfolding(crate::specs::Ops::use_r))]
fn use_row(s: &mut [u64], sh: Shape, x: u64, out: &mut [u64], base: usize)
    ensures { both s.new out.new ≡ use_r s.old out.old sh base x }
{
    let b = layout::row_word(s, sh, x, field::ROW_TABLE);
    let n = layout::row_word(s, sh, x, field::ROW_COUNT);
    let p = layout::row_word(s, sh, x, field::ROW_LENGTH);
    drop_row(s, sh, x);
    growth::grow_in(s, sh, b, x, p);
    reserve::open_slots(s, sh, b, n, out, base);
}

// The plan in place x, if it can be used.
#[tactic(auto, unfolding(crate::specs::Ops::used_r))]
fn use_place(s: &mut [u64], sh: Shape, x: u64, out: &mut [u64], base: usize)
    ensures { both s.new out.new ≡ used_r s.old out.old sh base x }
{
    match check_use(s, sh, x) {
        Ok(()) => use_row(s, sh, x, out, base),
        Err(refusal) => answer::refuse(out, base, refusal.number()),
    }
}

// "unknown .. open row of the kind named": 18. The answer is that of a reservation, whose words are put where they belong (`reserve::reserve`).
#[tactic(auto, unfolding(crate::specs::Ops::use_plan_r))]
pub fn use_plan(s: &mut [u64], sh: Shape, id: ReservationId, out: &mut [u64], base: usize)
    ensures { both s.new out.new ≡ use_plan_r s.old out.old sh base id.0 }
{
    match book::row_of_kind(s, sh, id, value::KIND_PLAN) {
        Some(x) => use_place(s, sh, x, out, base),
        None => answer::refuse(out, base, Refusal::Misuse.number()),
    }
}

// "Dropping refuses only an unknown plan".
#[tactic(auto, unfolding(answer::specs::Does::on_row_r))]
pub fn drop_plan(s: &mut [u64], sh: Shape, id: ReservationId) -> Result<(), Refusal>
    ensures { Gives s.new (reply no_words result) (λ os base. drop_plan_r s.old os sh base id.0) }
{
    let x = book::row_of_kind(s, sh, id, value::KIND_PLAN).ok_or(Refusal::Misuse)?;
    drop_row(s, sh, x);
    Ok(())
}

// The requests of a list at a place: their fields are read.
pub fn serve_make_plan(s: &mut [u64], sh: Shape, rq: &Record, out: &mut [u64], base: usize)
    ensures { both s.new out.new ≡ make_plan_r s.old out.old sh base (word_of rq.now table_field) (word_of rq.now count_field) }
{
    let [table, count] = rq.fields(op::OP_MAKE_PLAN, [FIELD_TABLE, FIELD_COUNT]);
    match make_plan(s, sh, table, count) {
        Ok(plan) => answer::say(out, base, &[plan.id.0, plan.count, plan.frames]),
        Err(refusal) => answer::refuse(out, base, refusal.number()),
    }
}

pub fn serve_use_plan(s: &mut [u64], sh: Shape, rq: &Record, out: &mut [u64], base: usize)
    ensures { both s.new out.new ≡ use_plan_r s.old out.old sh base (word_of rq.now id_field) }
{
    let id = rq.field(FIELD_ID);
    use_plan(s, sh, ReservationId(id), out, base);
}

pub fn serve_drop_plan(s: &mut [u64], sh: Shape, rq: &Record, out: &mut [u64], base: usize)
    ensures { both s.new out.new ≡ drop_plan_r s.old out.old sh base (word_of rq.now id_field) }
{
    let id = rq.field(FIELD_ID);
    answer::outcome(out, base, drop_plan(s, sh, ReservationId(id)));
}
