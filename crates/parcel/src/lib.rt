// SPDX-FileCopyrightText: 2026 roolrz
// SPDX-License-Identifier: Apache-2.0
// Ported from src/capability/handle/mod.rs of HypeR-Proj/kernel, with changes.

// The requests on loose handles: new object, duplicate, release parcel, retire object and publish.
#![tactic(auto)]

ghost use Rattle.std.specs.Prelude.{◌≡◌, [], ◌∷◌};
ghost use Rattle.std.specs.Iterator.{YieldsFirstBy, at_most};
ghost use Rattle.model.specs.Base.{member};
ghost use Rattle.model.specs.State.{till};
ghost use Rattle.model.specs.Decision.{distinct};
ghost use Rattle.model.specs.Step.{publish_of};
ghost use Rattle.straight.specs.Straight.{publish_straight};
ghost use Rattle.format.specs.Fields.{id_field, table_field, object_field, value_field, rights_field, flags_field};
ghost use Rattle.format.specs.Refusals.{number_of};
ghost use Rattle.request.specs.Place.{parcel_at, end_at, count_at, word_of};
ghost use Rattle.layout.specs.Layout.{load as loadAt};
ghost use Rattle.answer.specs.Does.{both, reply, no_words, id_words, Gives, Takes};
ghost use Rattle.parcel.specs.Ops.{retire_r, parcel_w, activation_refusal, new_refusal, new_object_r};
ghost use Rattle.parcel.specs.Ops.{copy_refusal, copied_r, duplicate_r, lowered_w, released_w, release_r};
ghost use Rattle.parcel.specs.Publishing.{ids_at, ids_left, fits, filled_w, published_w, dropped_w, spent_w, publish_r};

use authority::Rights;
use codec::{HandleValue, ReservationId};
use format::field::{
    FIELD_COUNT, FIELD_FLAGS, FIELD_ID, FIELD_OBJECT, FIELD_RIGHTS, FIELD_TABLE, FIELD_VALUE,
};
use format::op;
use format::refusal::Refusal;
use layout::{Shape, field, value};
use lookup::PreparedHandle;
use object::ObjectRecord;
use request::Record;

// "Its owner may retire it by a request accepted in any state"; "unknown .. object": 18.
#[tactic(auto, unfolding(crate::specs::Ops::retire_r))]
pub fn retire_object(s: &mut [u64], sh: Shape, o: u64) -> Result<(), Refusal>
    ensures { Gives s.new (reply no_words result) (λ os base. retire_r s.old os sh base o) }
{
    if sh.objects as u64 <= o {
        return Err(Refusal::Misuse);
    }
    object::retire_object(s, sh, o);
    Ok(())
}

// "Activation refuses 6 not exportable, 9 retired, 10 active, 11 limit reached, in that order".
#[tactic(auto, unfolding(crate::specs::Ops::activation_refusal))]
pub fn may_activate(x: ObjectRecord) -> Result<(), Refusal>
    ensures { number_of result ≡ activation_refusal x }
{
    if x.exportable == 0 {
        return Err(Refusal::UnsupportedRights);
    }
    if x.stage == value::STAGE_RETIRED {
        return Err(Refusal::ObjectRetired);
    }
    if x.stage == value::STAGE_ACTIVE {
        return Err(Refusal::ObjectAlreadyActive);
    }
    if x.count == x.limit {
        return Err(Refusal::ActiveHandleLimit);
    }
    Ok(())
}

// "New object: 1, 6, 7, activation, 12".
#[tactic(auto, unfolding(crate::specs::Ops::new_refusal, crate::specs::Ops::row_refusal, model::specs::State::known_flags))]
fn check_new(s: &[u64], sh: Shape, o: u64, rights: Rights, flags: u64) -> Result<(), Refusal>
    ensures { number_of result ≡ new_refusal (loadAt s.now sh) sh o rights.0 flags }
{
    if sh.objects as u64 <= o {
        return Err(Refusal::Misuse);
    }
    if !book::row_left(s, sh) {
        return Err(Refusal::Allocation);
    }
    let x = object::read_object(s, sh, o);
    if !Rights(x.supported).contains(rights) {
        return Err(Refusal::UnsupportedRights);
    }
    if !authority::contains(value::KNOWN_FLAGS, flags) {
        return Err(Refusal::UnsupportedFlags);
    }
    may_activate(x)?;
    book::id_left(s, sh)
}

// A parcel of one handle opens under the next id. `new_object` and `duplicate` take its three words from different places, and `book::put_handle`
// stores each: a struct of them would be made for the call and taken apart in it.
#[tactic(auto, unfolding(crate::specs::Ops::parcel_w))]
fn open_parcel(s: &mut [u64], sh: Shape, object: u64, rights: u64, flags: u64)
    ensures words { s.new ≡ parcel_w s.old sh object rights flags }
{
    let x = book::spare_place(s, sh);
    book::put_handle(s, sh, x, 0, object, rights, flags);
    book::open_row(s, sh, value::KIND_PARCEL, 0, 1);
}

// "New object: 1, 6, 7, activation, 12": its first handle is a parcel.
#[tactic(auto, unfolding(crate::specs::Ops::new_object_r))]
pub fn new_object(
    s: &mut [u64],
    sh: Shape,
    o: u64,
    rights: Rights,
    flags: u64,
) -> Result<ReservationId, Refusal>
    ensures { Gives s.new (reply id_words result) (λ os base. new_object_r s.old os sh base o rights.0 flags) }
{
    check_new(s, sh, o, rights, flags)?;
    let id = layout::root_word(s, sh, field::ROOT_NEXT_ID);
    object::activate_object(s, sh, o);
    open_parcel(s, sh, o, rights.0, flags);
    Ok(ReservationId(id))
}

// "Duplicate: 16, 1, 2 or 3, 5, 9, 11, 12": from 5 on.
#[tactic(auto, unfolding(crate::specs::Ops::copy_refusal))]
fn check_copy(s: &[u64], sh: Shape, h: PreparedHandle, rights: Rights) -> Result<(), Refusal>
    ensures { number_of result ≡ copy_refusal (loadAt s.now sh) h rights.0 }
{
    let held = Rights(h.rights);
    if !held.contains(Rights::DUPLICATE) || !held.contains(rights) {
        return Err(Refusal::AccessDenied);
    }
    object::may_raise(s, sh, h.object)?;
    book::id_left(s, sh)
}

// The rest of `duplicate`, on the handle found.
#[tactic(auto, unfolding(crate::specs::Ops::copied_r))]
fn duplicate_handle(
    s: &mut [u64],
    sh: Shape,
    h: PreparedHandle,
    rights: Rights,
) -> Result<ReservationId, Refusal>
    ensures { Gives s.new (reply id_words result) (λ os base. copied_r s.old os sh base rights.0 h) }
{
    check_copy(s, sh, h, rights)?;
    let id = layout::root_word(s, sh, field::ROOT_NEXT_ID);
    object::raise_object(s, sh, h.object);
    open_parcel(s, sh, h.object, rights.0, h.flags);
    Ok(ReservationId(id))
}

// "Duplicate: 16, 1, 2 or 3, 5, 9, 11, 12": the copy is a parcel.
#[tactic(auto, unfolding(crate::specs::Ops::duplicate_r, lookup::specs::View::open_of))]
pub fn duplicate(
    s: &mut [u64],
    sh: Shape,
    b: u64,
    v: HandleValue,
    rights: Rights,
) -> Result<ReservationId, Refusal>
    ensures { Gives s.new (reply id_words result) (λ os base. duplicate_r s.old os sh base b v.0 rights.0) }
{
    lookup::active_table(s, sh, b)?;
    if !book::row_left(s, sh) {
        return Err(Refusal::Allocation);
    }
    let h = lookup::find_handle(s, sh, b, v)?;
    duplicate_handle(s, sh, h, rights)
}

// The objects of the first n handles of the row in place x have one handle fewer each.
#[tactic(auto, unfolding(crate::specs::Ops::lowered_w), using(crate::proofs::Steps::one_left))]
fn lower_items(s: &mut [u64], sh: Shape, x: u64, n: u64)
    ensures words { s.new ≡ lowered_w s.old sh x 0 n }
{
    for i in 0..n {
        let o = layout::item_word(s, sh, x, i, field::ITEM_OBJECT);
        object::lower_object(s, sh, o);
    }
}

// The parcel in place x is released: its counts, then its row.
#[tactic(auto, unfolding(crate::specs::Ops::released_w))]
fn release_row(s: &mut [u64], sh: Shape, x: u64)
    ensures words { s.new ≡ released_w s.old sh x }
{
    let n = layout::row_word(s, sh, x, field::ROW_LENGTH);
    lower_items(s, sh, x, n);
    book::close_row(s, sh, x);
}

// "A parcel can be released, its counts with it"; "unknown .. open row of the kind named": 18.
#[tactic(auto, unfolding(answer::specs::Does::on_row_r))]
pub fn release_parcel(s: &mut [u64], sh: Shape, id: ReservationId) -> Result<(), Refusal>
    ensures { Gives s.new (reply no_words result) (λ os base. release_r s.old os sh base id.0) }
{
    let x = book::row_of_kind(s, sh, id, value::KIND_PARCEL).ok_or(Refusal::Misuse)?;
    release_row(s, sh, x);
    Ok(())
}

// An item of a publish: the id of the parcel that it names, and the place after its record.
#[derive(Clone, Copy)]
struct ParcelItem {
    id: ReservationId,
    end: usize,
}

// The item that is a record of the list: where that has no field but its id, that stands behind the operation. The map is tested here: with
// `Record::has_map` the check does not find that the two places fit.
#[tactic(auto, unfolding(request::specs::Place::parcel_at), using(crate::specs::Plain::plain_id, crate::specs::Plain::plain_end))]
fn read_item(item: &Record) -> ParcelItem
    ensures id { result.id.0 ≡ parcel_at item.now.words.now item.now.at }
    ensures end { result.end ≡ end_at item.now.words.now item.now.at }
{
    let Record { words, at } = *item;
    if at < words.len() && words[at] == format::maps::PARCEL_ITEM_MUST {
        return ParcelItem {
            id: ReservationId(words::word(words, at + 2)),
            end: at + 3,
        };
    }
    ParcelItem {
        id: ReservationId(item.field(FIELD_ID)),
        end: item.end(),
    }
}

// The parcels that a publish names, by their ids: its items, `count` records of the list from one on.
#[derive(Clone, Copy)]
pub struct ParcelIds<'a> {
    pub item: Record<'a>,
    pub count: u64,
}

impl<'a> Iterator for ParcelIds<'a> {
    type Item = ReservationId;

    ghost next_gives = { YieldsFirstBy (λ id. id.0) ids_left };

    ghost remaining = { λ s. at_most s.count };

    #[tactic(auto, unfolding(crate::specs::Publishing::ids_at, request::specs::Place::places_from))]
    fn next(&mut self) -> Option<ReservationId> {
        if self.count == 0 {
            return None;
        }
        let item = read_item(&self.item);
        self.item.at = item.end;
        self.count -= 1;
        Some(item.id)
    }
}

// Whether each id names a parcel and the parcels have n handles.
#[tactic(auto, unfolding(crate::specs::Publishing::fits))]
fn parcels_fit(s: &[u64], sh: Shape, parcels: ParcelIds, n: u64) -> bool
    ensures { result ≡ fits (loadAt s.now sh) sh (ids_left parcels.entry) n }
{
    let mut left = n;
    for id in parcels {
        let Some(x) = book::row_of_kind(s, sh, id, value::KIND_PARCEL) else {
            return false;
        };
        let c = layout::row_word(s, sh, x, field::ROW_LENGTH);
        if left < c {
            return false;
        }
        left -= c;
    }
    left == 0
}

// Whether an id is one of those.
fn named(mut parcels: ParcelIds, id: ReservationId) -> bool
    ensures { result ≡ member id.0 (ids_left parcels.entry) }
{
    parcels.any(|other| id == other)
}

// Whether no parcel is named twice. A batch has at most 64 slots and a parcel at least one handle, so that no more than 64 items come here.
fn distinct_ids(mut parcels: ParcelIds) -> bool
    ensures { result ≡ distinct (ids_left parcels.entry) }
{
    // Not a `for`: each id is looked for among those after it.
    while let Some(id) = parcels.next() {
        if named(parcels, id) {
            return false;
        }
    }
    true
}

// The n handles of the parcel in place y fill slots of the reservation in place x, of table b, from position p on. The reads of a
// handle stand in claim too, where one function of them was slower (`undo_entry`); a function of both crates would lie in a third.
#[tactic(auto, unfolding(crate::specs::Publishing::filled_w), using(crate::proofs::Steps::one_left))]
fn fill_from(s: &mut [u64], sh: Shape, b: u64, x: u64, p: u64, y: u64, n: u64)
    ensures words { s.new ≡ filled_w s.old sh b x p y 0 n }
{
    for i in 0..n {
        let k = layout::item_word(s, sh, x, p.saturating_add(i), field::ITEM_SLOT);
        let o = layout::item_word(s, sh, y, i, field::ITEM_OBJECT);
        let r = layout::item_word(s, sh, y, i, field::ITEM_RIGHTS);
        let f = layout::item_word(s, sh, y, i, field::ITEM_FLAGS);
        storage::occupy(s, sh, b, k, o, r, f);
    }
}

// "whose handles in order fill its slots": straight from the rows.
#[tactic(auto, unfolding(crate::specs::Publishing::published_w))]
fn fill_slots(s: &mut [u64], sh: Shape, b: u64, x: u64, parcels: ParcelIds)
    ensures words { s.new ≡ published_w s.old sh b x 0 (ids_left parcels.entry) }
{
    let mut p: u64 = 0;
    for id in parcels {
        let y = book::row_of_kind(s, sh, id, value::KIND_PARCEL).unwrap_or(0);
        let n = layout::row_word(s, sh, y, field::ROW_LENGTH);
        fill_from(s, sh, b, x, p, y, n);
        p = p.saturating_add(n);
    }
}

// The rows that the items name leave.
#[tactic(auto, unfolding(crate::specs::Publishing::dropped_w))]
fn close_parcels(s: &mut [u64], sh: Shape, parcels: ParcelIds)
    ensures words { s.new ≡ dropped_w s.old sh (ids_left parcels.entry) }
{
    for id in parcels {
        let y = book::row_of(s, sh, id.0).unwrap_or(0);
        book::close_row(s, sh, y);
    }
}

// The slots of the reservation in place x are filled; its row and the parcels' leave.
#[tactic(auto, unfolding(crate::specs::Publishing::spent_w))]
fn publish_row(s: &mut [u64], sh: Shape, x: u64, parcels: ParcelIds)
    ensures words { s.new ≡ spent_w s.old sh x (ids_left parcels.entry) }
{
    let b = layout::row_word(s, sh, x, field::ROW_TABLE);
    fill_slots(s, sh, b, x, parcels);
    book::close_row(s, sh, x);
    close_parcels(s, sh, parcels);
}

// "Publish names a reservation and one or more parcels, whose handles in order fill its slots"; "row named twice; lengths differ": 18. Its definitions stand in the contract of `answer_publish`.
#[tactic(auto, unfolding(crate::specs::Publishing::publish_r))]
pub fn publish(
    s: &mut [u64],
    sh: Shape,
    id: ReservationId,
    parcels: ParcelIds,
) -> Result<(), Refusal>
    ensures { Gives s.new (reply no_words result) (λ os base. publish_r s.old os sh base id.0 (ids_left parcels.entry)) }
{
    let x = book::row_of_kind(s, sh, id, value::KIND_RESERVATION).ok_or(Refusal::Misuse)?;
    let n = layout::row_word(s, sh, x, field::ROW_LENGTH);
    if !parcels_fit(s, sh, parcels, n) || !distinct_ids(parcels) {
        return Err(Refusal::Misuse);
    }
    publish_row(s, sh, x, parcels);
    Ok(())
}

// Publish with its answer, by both of its definitions: document 01's step, which gathers a batch of handles and lays it, and the one straight from the rows (document 02, 3), which goes as `fill_slots`
// does. These clauses follow from what the one call of `publish` ensures; `publish` itself has several ends, and each would have to show them. Inlined, it leaves the compiled code as it was without it.
#[inline(always)]
fn answer_publish(
    s: &mut [u64],
    sh: Shape,
    id: ReservationId,
    parcels: ParcelIds,
    out: &mut [u64],
    base: usize,
)
    ensures words { both s.new out.new ≡ publish_r s.old out.old sh base id.0 (ids_left parcels.entry) }
    ensures batch { Takes s.old out.old sh base (λ st. publish_of till st id.0 (ids_left parcels.entry)) (both s.new out.new) }
    ensures straight { Takes s.old out.old sh base (λ st. publish_straight till st id.0 (ids_left parcels.entry)) (both s.new out.new) }
{
    answer::outcome(out, base, publish(s, sh, id, parcels));
}

// The request of a list at a place: its fields are read.
pub fn serve_new_object(s: &mut [u64], sh: Shape, rq: &Record, out: &mut [u64], base: usize)
    ensures { both s.new out.new ≡ new_object_r s.old out.old sh base (word_of rq.now object_field) (word_of rq.now rights_field) (word_of rq.now flags_field) }
{
    let [object, rights, flags] = rq.fields(
        op::OP_NEW_OBJECT,
        [FIELD_OBJECT, FIELD_RIGHTS, FIELD_FLAGS],
    );
    match new_object(s, sh, object, Rights(rights), flags) {
        Ok(id) => answer::say(out, base, &[id.0]),
        Err(refusal) => answer::refuse(out, base, refusal.number()),
    }
}

pub fn serve_duplicate(s: &mut [u64], sh: Shape, rq: &Record, out: &mut [u64], base: usize)
    ensures { both s.new out.new ≡ duplicate_r s.old out.old sh base (word_of rq.now table_field) (word_of rq.now value_field) (word_of rq.now rights_field) }
{
    let [table, value, rights] = rq.fields(
        op::OP_DUPLICATE,
        [FIELD_TABLE, FIELD_VALUE, FIELD_RIGHTS],
    );
    match duplicate(s, sh, table, HandleValue(value), Rights(rights)) {
        Ok(id) => answer::say(out, base, &[id.0]),
        Err(refusal) => answer::refuse(out, base, refusal.number()),
    }
}

pub fn serve_release_parcel(s: &mut [u64], sh: Shape, rq: &Record, out: &mut [u64], base: usize)
    ensures { both s.new out.new ≡ release_r s.old out.old sh base (word_of rq.now id_field) }
{
    let id = rq.field(FIELD_ID);
    answer::outcome(out, base, release_parcel(s, sh, ReservationId(id)));
}

pub fn serve_retire_object(s: &mut [u64], sh: Shape, rq: &Record, out: &mut [u64], base: usize)
    ensures { both s.new out.new ≡ retire_r s.old out.old sh base (word_of rq.now object_field) }
{
    let object = rq.field(FIELD_OBJECT);
    answer::outcome(out, base, retire_object(s, sh, object));
}

pub fn serve_publish(s: &mut [u64], sh: Shape, rq: &Record, out: &mut [u64], base: usize)
    ensures { both s.new out.new ≡ publish_r s.old out.old sh base (word_of rq.now id_field) (ids_at rq.now.words.now (end_at rq.now.words.now rq.now.at) (count_at rq.now.words.now rq.now.at)) }
{
    let [id, count] = rq.fields(op::OP_PUBLISH, [FIELD_ID, FIELD_COUNT]);
    let parcels = ParcelIds {
        item: Record {
            at: rq.end(),
            ..*rq
        },
        count,
    };
    answer_publish(s, sh, ReservationId(id), parcels, out, base);
}
