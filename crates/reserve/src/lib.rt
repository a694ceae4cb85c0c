// SPDX-FileCopyrightText: 2026 roolrz
// SPDX-License-Identifier: Apache-2.0
// Ported from src/capability/handle/mod.rs of HypeR-Proj/kernel, with changes.

// The request that opens a reservation: reserve. Its checks and the opening of its batch serve plans too.
#![tactic(auto)]

ghost use Rattle.std.specs.Prelude.{◌≡◌, ℕ, List, min};
ghost use Rattle.layout.specs.Layout.{load as loadAt};
ghost use Rattle.layout.specs.Sizes.{batch_max};
ghost use Rattle.request.specs.Answers.{puts};
ghost use Rattle.answer.specs.Does.{Both, both, answered};
ghost use Rattle.format.specs.Refusals.{number_of};
ghost use Rattle.reserve.specs.Ops.{batch_refusal, room_refusal, listed_w, list_w, taken_w, batch_w, values_at, batch_words, slots_r, open_r, room_r, checked_r, reserve_r};
ghost use Rattle.format.specs.Fields.{table_field, count_field};
ghost use Rattle.request.specs.Place.{word_of};

use codec::HandleCodec;
use format::field::{FIELD_COUNT, FIELD_TABLE};
use format::op;
use format::refusal::Refusal;
use layout::{Shape, field, size, value};
use request::Record;

// "Reserve: 16, 17, 13", for n slots in table b.
#[tactic(auto, unfolding(crate::specs::Ops::batch_refusal))]
pub fn check_batch(s: &[u64], sh: Shape, b: u64, n: u64) -> Result<(), Refusal>
    ensures { number_of result ≡ batch_refusal (loadAt s.now sh) sh b n }
{
    lookup::active_table(s, sh, b)?;
    if n == 0 {
        return Err(Refusal::EmptyReservation);
    }
    if n > size::BATCH_MAX {
        return Err(Refusal::ReservationTooLarge);
    }
    Ok(())
}

// "15, 1, 12", for a batch that needs p pages.
#[tactic(auto, unfolding(crate::specs::Ops::room_refusal))]
pub fn check_room(s: &[u64], sh: Shape, p: u64) -> Result<(), Refusal>
    ensures { number_of result ≡ room_refusal (loadAt s.now sh) sh p }
{
    if p == growth::NO_PLAN {
        return Err(Refusal::TableFull);
    }
    if layout::root_word(s, sh, field::ROOT_FREE_FRAMES) < p || !book::row_left(s, sh) {
        return Err(Refusal::Allocation);
    }
    book::id_left(s, sh)
}

// The first n slots of the free order of table b, from the link l on, into the items of the row in place x.
#[tactic(auto, using(crate::specs::ReserveCode::listed_step, crate::specs::ReserveCode::listed_end))]
fn list_slots(s: &mut [u64], sh: Shape, b: u64, x: u64, l: u64, n: u64)
    ensures words { s.new ≡ listed_w s.old sh b x 0 l n }
{
    let mut link: u64 = l;
    for j in 0..n {
        let k = link.saturating_sub(1);
        link = storage::slot_word(s, sh, b, k, field::SLOT_NEXT_FREE);
        layout::put_item(s, sh, x, j, field::ITEM_SLOT, k);
    }
}

// They stand in the row that opens next.
#[tactic(auto, unfolding(crate::specs::Ops::list_w))]
fn list_free(s: &mut [u64], sh: Shape, b: u64, n: u64)
    ensures words { s.new ≡ list_w s.old sh b n }
{
    let x = book::spare_place(s, sh);
    let l = layout::head_word(s, sh, b, field::HEAD_FIRST_FREE);
    list_slots(s, sh, b, x, l, n);
}

// The head of the free order is taken n times, for the positions of the row in place x in turn. A loop of one call stays a loop, as claim's.
#[tactic(auto, using(crate::specs::ReserveCode::taken_step, crate::specs::ReserveCode::taken_end))]
fn take_slots(s: &mut [u64], sh: Shape, b: u64, x: u64, n: u64)
    ensures words { s.new ≡ taken_w s.old sh b x 0 n }
{
    for j in 0..n {
        storage::take_free(s, sh, b, x, j);
    }
}

// The row opens, and the slots that its items name are Reserved by it.
#[tactic(auto, unfolding(crate::specs::Ops::batch_w))]
fn open_batch(s: &mut [u64], sh: Shape, b: u64, n: u64)
    ensures words { s.new ≡ batch_w s.old sh b n }
{
    let x = book::spare_place(s, sh);
    book::open_row(s, sh, value::KIND_RESERVATION, b, n);
    take_slots(s, sh, b, x, n);
}

// The values of the slots that the first n items of the row in place x name, at most 64, from word 3 of the answer on.
#[tactic(auto, using(crate::specs::ReserveCode::said_step, crate::specs::ReserveCode::said_end))]
fn say_values(s: &[u64], sh: Shape, b: u64, x: u64, n: u64, out: &mut [u64], base: usize)
    ensures { out.new ≡ puts out.old base 3 (values_at (loadAt s.now sh) b x 0 (min n batch_max)) }
{
    let most = n.min(size::BATCH_MAX);
    let mask = layout::head_word(s, sh, b, field::HEAD_MASK);
    for j in 0..most {
        let k = layout::item_word(s, sh, x, j, field::ITEM_SLOT);
        let g = storage::slot_word(s, sh, b, k, field::SLOT_GENERATION);
        let value = HandleCodec { mask }.encode(k, g);
        request::answer_put(out, base, (j + 3) as usize, value.0);
    }
}

// The answer: the next id, the count and the values.
#[tactic(auto, unfolding(crate::specs::Ops::batch_words, request::specs::Answers::puts))]
fn say_batch(s: &[u64], sh: Shape, b: u64, n: u64, out: &mut [u64], base: usize)
    ensures { out.new ≡ answered out.old base (batch_words (loadAt s.now sh) b n) }
{
    let x = book::spare_place(s, sh);
    let id = layout::root_word(s, sh, field::ROOT_NEXT_ID);
    answer::say(out, base, &[id, n]);
    say_values(s, sh, b, x, n, out, base);
}

// A batch of the first n slots of the free order of table b, under the next id.
#[tactic(auto, unfolding(crate::specs::Ops::slots_r))]
pub fn open_slots(s: &mut [u64], sh: Shape, b: u64, n: u64, out: &mut [u64], base: usize)
    ensures { both s.new out.new ≡ slots_r s.old out.old sh base b n }
{
    list_free(s, sh, b, n);
    say_batch(s, sh, b, n, out, base);
    open_batch(s, sh, b, n);
}

// So after p pages.
#[tactic(auto, unfolding(crate::specs::Ops::open_r))]
fn reserve_slots(s: &mut [u64], sh: Shape, b: u64, n: u64, p: u64, out: &mut [u64], base: usize)
    ensures { both s.new out.new ≡ open_r s.old out.old sh base b n p }
{
    growth::grow(s, sh, b, p);
    open_slots(s, sh, b, n, out, base);
}

// "Reserve: 16, 17, 13, 15, 1, 12": how many pages a batch of n slots in table b needs.
#[tactic(auto, unfolding(crate::specs::Ops::room_r))]
pub fn check_reserve(s: &[u64], sh: Shape, b: u64, n: u64) -> Result<u64, Refusal>
    ensures { (os : List ℕ) (base : ℕ) (rest : ℕ → Both) → checked_r s.now os base result rest ≡ room_r s.now os sh base b n rest }
{
    check_batch(s, sh, b, n)?;
    let p = growth::pages_needed(s, sh, b, n);
    check_room(s, sh, p)?;
    Ok(p)
}

// A batch of n slots of table b. Its answer has up to 66 words: they are put where they belong, since a result by value would be a large local array.
#[tactic(auto, unfolding(crate::specs::Ops::reserve_r))]
pub fn reserve(s: &mut [u64], sh: Shape, b: u64, n: u64, out: &mut [u64], base: usize)
    ensures { both s.new out.new ≡ reserve_r s.old out.old sh base b n }
{
    match check_reserve(s, sh, b, n) {
        Ok(p) => reserve_slots(s, sh, b, n, p, out, base),
        Err(refusal) => answer::refuse(out, base, refusal.number()),
    }
}

// The request of a list at a place: its fields are read.
pub fn serve_reserve(s: &mut [u64], sh: Shape, rq: &Record, out: &mut [u64], base: usize)
    ensures { both s.new out.new ≡ reserve_r s.old out.old sh base (word_of rq.now table_field) (word_of rq.now count_field) }
{
    let [table, count] = rq.fields(op::OP_RESERVE, [FIELD_TABLE, FIELD_COUNT]);
    reserve(s, sh, table, count, out, base);
}
