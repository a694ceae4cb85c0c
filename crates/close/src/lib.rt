// SPDX-FileCopyrightText: 2026 roolrz
// SPDX-License-Identifier: Apache-2.0
// Ported from src/capability/handle/mod.rs of HypeR-Proj/kernel, with changes.

// Closing a handle, and replacing one by another with fewer rights: mod.rs `remove_active`, `replace`.
#![tactic(auto)]

ghost use Rattle.std.specs.Prelude.{◌≡◌, ◌∷◌};
ghost use Rattle.answer.specs.Does.{both, reply, Gives};
ghost use Rattle.lookup.specs.Read.{info_list};
ghost use Rattle.close.specs.Close.{closed_r, close_r};
ghost use Rattle.close.specs.Renew.{high_w, renew_w};
ghost use Rattle.close.specs.Replace.{value_list, replaced_r, replace_r};
ghost use Rattle.format.specs.Fields.{table_field, value_field, rights_field};
ghost use Rattle.request.specs.Place.{word_of};

use authority::Rights;
use codec::{HandleCodec, HandleValue};
use format::field::{FIELD_RIGHTS, FIELD_TABLE, FIELD_VALUE};
use format::op;
use format::refusal::Refusal;
use layout::{Shape, field, size};
use lookup::{HandleInfo, PreparedHandle};
use request::Record;

// The handle found: its slot falls vacant and its count is released. Its info is told.
#[tactic(auto, unfolding(crate::specs::Close::closed_r))]
fn close_handle(s: &mut [u64], sh: Shape, b: u64, h: PreparedHandle) -> HandleInfo
    ensures { Gives s.new (0 ∷ info_list result) (λ os base. closed_r s.old os sh base b h) }
{
    let info = lookup::info_of(s, sh, h);
    storage::vacate(s, sh, b, h.slot);
    object::lower_object(s, sh, h.object);
    info
}

// "`get_info`, close, `replace`: 16, 2 or 3".
#[tactic(auto, unfolding(crate::specs::Close::close_r))]
pub fn close(s: &mut [u64], sh: Shape, b: u64, v: HandleValue) -> Result<HandleInfo, Refusal>
    ensures { Gives s.new (reply info_list result) (λ os base. close_r s.old os sh base b v.0) }
{
    let h = lookup::open_handle(s, sh, b, v)?;
    Ok(close_handle(s, sh, b, h))
}

// Page p has had the generation g.
#[tactic(auto, unfolding(crate::specs::Renew::high_w, storage::specs::Sight::look))]
fn raise_mark(s: &mut [u64], sh: Shape, b: u64, p: u64, g: u64)
    ensures { s.new ≡ high_w s.old sh b p g }
{
    let e = layout::head_word(s, sh, b, field::HEAD_FIRST_ENTRY);
    let high = storage::page_word(s, sh, e, p, field::ENTRY_HIGH);
    storage::put_page(s, sh, e, p, field::ENTRY_HIGH, high.max(g));
}

// Slot k, which is occupied, keeps its object and its flags and gets the generation g and other rights; its page's high mark rises to g.
#[tactic(auto, unfolding(crate::specs::Renew::renew_w))]
pub fn renew(s: &mut [u64], sh: Shape, b: u64, k: u64, g: u64, rights: u64)
    ensures { s.new ≡ renew_w s.old sh b k g rights }
{
    storage::put_slot_word(s, sh, b, k, field::SLOT_GENERATION, g);
    storage::put_slot_word(s, sh, b, k, field::SLOT_RIGHTS, rights);
    raise_mark(s, sh, b, k / size::PAGE_SIZE, g);
}

// The handle found: with fewer rights, of the next generation. Its new value is told.
#[tactic(auto, unfolding(crate::specs::Replace::replaced_r))]
fn replace_handle(
    s: &mut [u64],
    sh: Shape,
    b: u64,
    h: PreparedHandle,
    rights: Rights,
) -> Result<HandleValue, Refusal>
    ensures { Gives s.new (reply value_list result) (λ os base. replaced_r s.old os sh base b rights.0 h) }
{
    if !Rights(h.rights).contains(rights) {
        return Err(Refusal::AccessDenied);
    }
    let g = codec::next_generation(h.generation);
    let codec = HandleCodec {
        mask: layout::head_word(s, sh, b, field::HEAD_MASK),
    };
    let value = codec.encode(h.slot, g);
    renew(s, sh, b, h.slot, g, rights.0);
    Ok(value)
}

// "`get_info`, close, `replace`: 16, 2 or 3, then 5 (`replace`)".
#[tactic(auto, unfolding(crate::specs::Replace::replace_r))]
pub fn replace(
    s: &mut [u64],
    sh: Shape,
    b: u64,
    v: HandleValue,
    rights: Rights,
) -> Result<HandleValue, Refusal>
    ensures { Gives s.new (reply value_list result) (λ os base. replace_r s.old os sh base b v.0 rights.0) }
{
    let h = lookup::open_handle(s, sh, b, v)?;
    replace_handle(s, sh, b, h, rights)
}

// The request of a list at a place: its fields are read.
pub fn serve_replace(s: &mut [u64], sh: Shape, rq: &Record, out: &mut [u64], base: usize)
    ensures { both s.new out.new ≡ replace_r s.old out.old sh base (word_of rq.now table_field) (word_of rq.now value_field) (word_of rq.now rights_field) }
{
    let [table, value, rights] = rq.fields(
        op::OP_REPLACE,
        [FIELD_TABLE, FIELD_VALUE, FIELD_RIGHTS],
    );
    match replace(s, sh, table, HandleValue(value), Rights(rights)) {
        Ok(value) => answer::say(out, base, &[value.0]),
        Err(refusal) => answer::refuse(out, base, refusal.number()),
    }
}

pub fn serve_close(s: &mut [u64], sh: Shape, rq: &Record, out: &mut [u64], base: usize)
    ensures { both s.new out.new ≡ close_r s.old out.old sh base (word_of rq.now table_field) (word_of rq.now value_field) }
{
    let [table, value] = rq.fields(op::OP_CLOSE, [FIELD_TABLE, FIELD_VALUE]);
    match close(s, sh, table, HandleValue(value)) {
        Ok(info) => answer::say(out, base, &info.words()),
        Err(refusal) => answer::refuse(out, base, refusal.number()),
    }
}
