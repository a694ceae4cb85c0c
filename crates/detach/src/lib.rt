// SPDX-FileCopyrightText: 2026 roolrz
// SPDX-License-Identifier: Apache-2.0
// Ported from src/capability/handle/storage.rs and src/capability/handle/mod.rs of HypeR-Proj/kernel, with changes.

// A page leaves its table, over the state's words: its slots leave the free order, and its frame is given back.
#![tactic(auto)]

ghost use Rattle.std.specs.Prelude.{◌≡◌};
ghost use Rattle.layout.specs.Layout.{load as loadAt};
ghost use Rattle.answer.specs.Does.{both, reply, Gives};
ghost use Rattle.storage.specs.Links.{place_of};
ghost use Rattle.storage.specs.Ops.{leave_w};
ghost use Rattle.format.specs.Fields.{table_field};
ghost use Rattle.request.specs.Place.{word_of};
ghost use Rattle.detach.specs.Late.{without_w, without_by};
ghost use Rattle.detach.specs.Ops.{unlink_page_w, join_detached_w, detach_w, first_empty, page_list, take_page_r};

use format::field::FIELD_TABLE;
use format::refusal::Refusal;
use head::TableHead;
use layout::{Shape, field, size, value};
use request::Record;

// Slot j of the frame fr, which is vacant, leaves the free order of the table of a head, wherever it stands in it. Its own words stay.
#[tactic(auto, unfolding(crate::specs::Late::without_w, crate::specs::Late::without_by))]
fn unlink_slot(s: &mut [u64], sh: Shape, h: &mut TableHead, fr: u64, j: u64)
    ensures words { s.new ≡ without_w s.old sh h.old fr j }
    ensures head { h.new ≡ without_by (loadAt s.old sh) h.old fr j }
{
    let n = storage::frame_word(s, sh, fr, j, field::SLOT_NEXT_FREE);
    let q = storage::frame_word(s, sh, fr, j, field::SLOT_PREVIOUS_FREE);
    let qf = storage::link_frame(s, sh, *h, q);
    let nf = storage::link_frame(s, sh, *h, n);
    storage::put_slot_link(s, sh, qf, q, field::SLOT_NEXT_FREE, n);
    storage::put_slot_link(s, sh, nf, n, field::SLOT_PREVIOUS_FREE, q);
    h.take(storage::head_after(q, n, h.first_free));
}

// The slots of page p, all vacant, leave the free order. They stand in one frame, and the head's words are stored last.
fn unlink_page(s: &mut [u64], sh: Shape, b: u64, p: u64)
    ensures words { s.new ≡ unlink_page_w s.old sh b p }
{
    let n = head::slots_of(p) as u64;
    let first = p.min(size::LAST_PAGE) * size::PAGE_SIZE;
    let fr = storage::frame_link(s, sh, b, first);
    let mut h = head::load(s, sh, b);
    for j in 0..n {
        unlink_slot(s, sh, &mut h, fr, j);
    }
    head::store_free(s, sh, b, h);
}

// Page p has no frame and goes from the empty pages' order to the head of the detached pages' order; its high mark stays, and the epoch advances.
#[tactic(auto, using(crate::specs::Code::joined_by))]
fn join_detached(s: &mut [u64], sh: Shape, b: u64, p: u64)
    ensures words { s.new ≡ join_detached_w (leave_w s.old sh b p) sh b p }
{
    let mut h = head::load(s, sh, b);
    let e = h.entry;
    let d = h.first_detached;
    let x = storage::leave_order(s, sh, e, p, h.first_empty);
    h.empty(x);
    h.detach(p.saturating_add(1));
    storage::put_page(s, sh, e, p, field::ENTRY_FRAME, 0);
    storage::put_page(s, sh, e, p, field::ENTRY_NEXT, d);
    head::store_detached(s, sh, b, h);
}

// Page p, which is empty, is detached and its frame given back.
#[tactic(auto, unfolding(crate::specs::Ops::detach_w, storage::specs::Sight::look))]
pub fn detach_page(s: &mut [u64], sh: Shape, b: u64, p: u64)
    ensures words { s.new ≡ detach_w s.old sh b p }
{
    let e = layout::head_word(s, sh, b, field::HEAD_FIRST_ENTRY);
    let f = storage::page_word(s, sh, e, p, field::ENTRY_FRAME).saturating_sub(1);
    unlink_page(s, sh, b, p);
    join_detached(s, sh, b, p);
    frames::give_frame(s, sh, f);
}

// The first empty page of a table that is active.
#[tactic(auto, unfolding(crate::specs::Ops::first_empty), using(storage::specs::Links::place_by))]
fn first_empty(s: &[u64], sh: Shape, b: u64) -> Option<u64>
    ensures { result ≡ place_of (first_empty (loadAt s.now sh) b) }
{
    if layout::head_word(s, sh, b, field::HEAD_LIFECYCLE) != value::LIFE_ACTIVE {
        return None;
    }
    layout::head_word(s, sh, b, field::HEAD_FIRST_EMPTY).checked_sub(1)
}

// "On an inactive table `take_empty_page` answers none, not a refusal; so does a table with no empty page".
#[tactic(auto, unfolding(crate::specs::Ops::take_page_r), using(storage::specs::Links::place_is, storage::specs::Links::no_place))]
pub fn take_empty_page(s: &mut [u64], sh: Shape, b: u64) -> Result<Option<u64>, Refusal>
    ensures { Gives s.new (reply page_list result) (λ os base. take_page_r s.old os sh base b) }
{
    if b >= sh.tables as u64 {
        return Err(Refusal::Misuse);
    }
    let Some(p) = first_empty(s, sh, b) else {
        return Ok(None);
    };
    detach_page(s, sh, b, p);
    Ok(Some(p))
}

// The request of a list at a place: its fields are read.
pub fn serve_take_empty_page(s: &mut [u64], sh: Shape, rq: &Record, out: &mut [u64], base: usize)
    ensures { both s.new out.new ≡ take_page_r s.old out.old sh base (word_of rq.now table_field) }
{
    let table = rq.field(FIELD_TABLE);
    match take_empty_page(s, sh, table) {
        Ok(Some(p)) => answer::say(out, base, &[1, p]),
        Ok(None) => answer::say(out, base, &[0]),
        Err(refusal) => answer::refuse(out, base, refusal.number()),
    }
}
