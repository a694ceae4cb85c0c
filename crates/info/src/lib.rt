// SPDX-FileCopyrightText: 2026 roolrz
// SPDX-License-Identifier: Apache-2.0
// Ported from src/capability/handle/mod.rs of HypeR-Proj/kernel, with changes.

// The request `get_info`: what is told of a handle, in its slot or while it is being moved (document 02, 2).
#![tactic(auto)]

ghost use Rattle.std.specs.Prelude.{◌≡◌};
ghost use Rattle.layout.specs.Layout.{load as loadAt};
ghost use Rattle.format.specs.Fields.{table_field, value_field};
ghost use Rattle.request.specs.Place.{word_of};
ghost use Rattle.answer.specs.Does.{both, reply, Gives};
ghost use Rattle.lookup.specs.View.{opened};
ghost use Rattle.lookup.specs.Read.{info_list};
ghost use Rattle.info.specs.Info.{kept_words, moving_of, shown_of, get_info_r};

use codec::{HandleCodec, HandleValue};
use format::field::{FIELD_TABLE, FIELD_VALUE};
use format::op;
use format::refusal::Refusal;
use layout::{Shape, field, size};
use lookup::{HandleInfo, PreparedHandle};
use request::Record;

// The handle that slot k of table b, which is TransferReserved, had before its claim, with its own rights: the slot's mark tells the place of the claim's row and the position of the item there.
// Of another slot this is what the words at those places say.
fn kept_handle(s: &[u64], sh: Shape, b: u64, k: u64) -> PreparedHandle
    ensures { result ≡ kept_words (loadAt s.now sh) b k }
{
    let fr = storage::frame_link(s, sh, b, k);
    let j = k % size::PAGE_SIZE;
    let place = storage::frame_word(s, sh, fr, j, field::SLOT_PLACE);
    let position = storage::frame_word(s, sh, fr, j, field::SLOT_POSITION);
    PreparedHandle {
        slot: k,
        generation: storage::frame_word(s, sh, fr, j, field::SLOT_GENERATION),
        object: layout::item_word(s, sh, place, position, field::ITEM_OBJECT),
        rights: layout::item_word(s, sh, place, position, field::ITEM_RIGHTS),
        flags: layout::item_word(s, sh, place, position, field::ITEM_FLAGS),
    }
}

// The handle of the slot that a value names in table b, for a value that is Busy to every other request. Such a value decodes, as `open_handle` has found; it is decoded again here alone.
#[tactic(auto, unfolding(crate::specs::Info::moving_of))]
fn moved_handle(s: &[u64], sh: Shape, b: u64, v: HandleValue) -> Result<PreparedHandle, Refusal>
    ensures { opened result ≡ moving_of (loadAt s.now sh) b v.0 }
{
    let codec = HandleCodec {
        mask: layout::head_word(s, sh, b, field::HEAD_MASK),
    };
    let slot = codec.decode(v).ok_or(Refusal::InvalidHandle)?.slot;
    Ok(kept_handle(s, sh, b, slot))
}

// The handle that `get_info` shows: "Let `get_info` answer for the handle of a TransferReserved slot, consumption included".
#[tactic(auto, unfolding(crate::specs::Info::shown_of))]
fn shown_handle(s: &[u64], sh: Shape, b: u64, v: HandleValue) -> Result<PreparedHandle, Refusal>
    ensures { opened result ≡ shown_of (loadAt s.now sh) sh b v.0 }
{
    match lookup::open_handle(s, sh, b, v) {
        Err(Refusal::Busy) => moved_handle(s, sh, b, v),
        open => open,
    }
}

// "`get_info`: 16, 2 or 3", where a handle is shown in the place of 3.
#[tactic(auto, unfolding(crate::specs::Info::get_info_r))]
pub fn get_info(s: &[u64], sh: Shape, b: u64, v: HandleValue) -> Result<HandleInfo, Refusal>
    ensures { Gives s.now (reply info_list result) (λ os base. get_info_r s.now os sh base b v.0) }
{
    let h = shown_handle(s, sh, b, v)?;
    Ok(lookup::info_of(s, sh, h))
}

// The request of a list at a place: its fields are read.
pub fn serve_get_info(s: &mut [u64], sh: Shape, rq: &Record, out: &mut [u64], base: usize)
    ensures { both s.new out.new ≡ get_info_r s.old out.old sh base (word_of rq.now table_field) (word_of rq.now value_field) }
{
    let [table, value] = rq.fields(op::OP_GET_INFO, [FIELD_TABLE, FIELD_VALUE]);
    match get_info(s, sh, table, HandleValue(value)) {
        Ok(info) => answer::say(out, base, &info.words()),
        Err(refusal) => answer::refuse(out, base, refusal.number()),
    }
}
