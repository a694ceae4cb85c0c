// SPDX-FileCopyrightText: 2026 roolrz
// SPDX-License-Identifier: Apache-2.0
// Ported from src/capability/handle/mod.rs of HypeR-Proj/kernel, with changes.

// The requests that open a claim, prepare transfer and prepare consumption; and judge transfer, which goes by the checks of the first.
#![tactic(auto)]

ghost use Rattle.std.specs.Prelude.{◌≡◌, true, [], ◌<◌, ◌%◌, ◌^◌, length, eqb};
ghost use Rattle.std.specs.Int.Bits.{bit_or};
ghost use Rattle.std.specs.Iterator.{YieldsFirstBy, at_most};
ghost use Rattle.model.specs.Base.{member};
ghost use Rattle.model.specs.Words.{operation_of};
ghost use Rattle.model.specs.Transfer.{is_copy};
ghost use Rattle.format.specs.Fields.{value_field, table_field, count_field, rights_field, kind_field, koid_field};
ghost use Rattle.format.specs.Format.{transfer_item_must};
ghost use Rattle.format.specs.Refusals.{number_of};
ghost use Rattle.format.specs.Rules.{number_by};
ghost use Rattle.layout.specs.Layout.{item, place, load as loadAt};
ghost use Rattle.layout.specs.Fields.{item_operation};
ghost use Rattle.request.specs.Place.{end_at, item_at, has_map, word_of};
ghost use Rattle.book.specs.Ops.{spare};
ghost use Rattle.answer.specs.Does.{both, reply, id_words, Gives};
ghost use Rattle.transfer.specs.Ops.{moved_w, mark_item_w, marked_w, claim_w, consume_refusal, consumed_r, consumption_r};
ghost use Rattle.transfer.specs.Checks.{as_option, item_by, looked_at, RulesAt, items_left, earlier_left, stop_of, fault_of, batch_stop, route_bars, rights_stop, object_stop, handle_stop, item_stop, copy_stop, items_stop};
ghost use Rattle.transfer.specs.Seen.{bit_of, Seen};
ghost use Rattle.transfer.specs.Judging.{judged_list, judged_items, judged_batch, judging_at};
ghost use Rattle.transfer.specs.Preparing.{copy_link, link_of, raised, raised_item, tried, raised_items, tried_items, lowered_item, lowered_items, copied_w, handle_entry_w, entry_w, entries_w, refuse_spent_r, items_r, transfer_at};

use authority::Rights;
use codec::{HandleValue, Koid, ReservationId};
use format::field::{
    FIELD_COUNT, FIELD_EXPECTED_KIND, FIELD_FORBIDDEN_KIND, FIELD_FORBIDDEN_OBJECT, FIELD_KIND,
    FIELD_KOID, FIELD_OFFERED_KIND, FIELD_OFFERED_RIGHTS, FIELD_OP, FIELD_RIGHTS, FIELD_ROUTE,
    FIELD_TABLE, FIELD_VALUE,
};
use format::op;
use format::refusal::{DONE, Refusal};
use format::rule::Rule;
use layout::{Shape, field, place, size, value};
use lookup::PreparedHandle;
use object::ObjectRecord;
use request::Record;

// Where item j of the row in place x stands; where there is none, the length.
#[tactic(auto, using(crate::specs::Stored::item_stands, crate::specs::Stored::item_none))]
fn item_place(s: &[u64], sh: Shape, x: u64, j: u64) -> usize
    ensures stands { result ≡ place (length s.now) sh (item x j item_operation) }
    ensures room { result < 2 ^ 62 }
{
    if j < size::BATCH_MAX && x < sh.rows as u64 {
        let rows = layout::region_of(sh, layout::region::REGION_ROW);
        return (rows.low + (x * size::ROW_BLOCKS + j + 1) * size::BLOCK_SIZE) as usize;
    }
    s.len()
}

// The handle h moves, in item j of the row in place x; its receiver gets the rights r. Six words of one item: its place is computed once. By six
// calls of `layout::put_item` a transfer of 64 moves and its rollback took 6,140 ns for 5,630, 67,200 instructions for 57,000.
#[tactic(auto, using(crate::specs::Stored::moved_by))]
fn put_moved(s: &mut [u64], sh: Shape, x: u64, j: u64, h: PreparedHandle, r: u64)
    ensures words { s.new ≡ moved_w s.old sh x j h r }
{
    let at = item_place(s, sh, x, j);
    words::put(s, at, value::OPERATION_MOVE);
    words::put(s, at + place::ITEM_MOVED, h.slot);
    words::put(s, at + place::ITEM_OBJECT, h.object);
    words::put(s, at + place::ITEM_RIGHTS, h.rights);
    words::put(s, at + place::ITEM_FLAGS, h.flags);
    words::put(s, at + place::ITEM_GRANTED, r);
}

// The slot that item j of the claim in place x moves is TransferReserved by it; a copy marks none.
#[tactic(auto, unfolding(crate::specs::Ops::mark_item_w))]
fn mark_item(s: &mut [u64], sh: Shape, b: u64, x: u64, j: u64)
    ensures words { s.new ≡ mark_item_w s.old sh b x j }
{
    if layout::item_word(s, sh, x, j, field::ITEM_OPERATION) == value::OPERATION_MOVE {
        let k = layout::item_word(s, sh, x, j, field::ITEM_MOVED);
        storage::mark_moving(s, sh, b, k, x, j);
    }
}

// So for its first n items. A loop of one call stays a loop: a function for such loops would take the call as a closure, and state no more.
#[tactic(auto, unfolding(crate::specs::Ops::marked_w), using(crate::specs::Code::one_left))]
fn mark_items(s: &mut [u64], sh: Shape, b: u64, x: u64, n: u64)
    ensures words { s.new ≡ marked_w s.old sh b x 0 n }
{
    for j in 0..n {
        mark_item(s, sh, b, x, j);
    }
}

// A claim of table b opens, whose n items stand in its place already, and marks the slots that they move. As reserve's `open_batch`, but for the kind and the loop's call, which one function would take, and be no shorter.
#[tactic(auto, unfolding(crate::specs::Ops::claim_w))]
fn open_claim(s: &mut [u64], sh: Shape, b: u64, n: u64)
    ensures words { s.new ≡ claim_w s.old sh b n }
{
    let x = book::spare_place(s, sh);
    book::open_row(s, sh, value::KIND_CLAIM, b, n);
    mark_items(s, sh, b, x, n);
}

// What a consumption asks of a handle: rights, and the kind and the koid of its object.
#[derive(Clone, Copy)]
pub struct ConsumptionRules {
    pub required: Rights,
    pub expected_kind: u64,
    pub expected_koid: Koid,
}

// "Consumption: 16, 1, 2 or 3, 5, 4, 2, 12": from 5 on.
#[tactic(auto, unfolding(crate::specs::Ops::consume_refusal))]
fn check_consumption(
    s: &[u64],
    sh: Shape,
    h: PreparedHandle,
    t: ConsumptionRules,
) -> Result<(), Refusal>
    ensures { number_of result ≡ consume_refusal (loadAt s.now sh) h t.required.0 t.expected_kind t.expected_koid.0 }
{
    if !Rights(h.rights).contains(t.required) {
        return Err(Refusal::AccessDenied);
    }
    let info = lookup::info_of(s, sh, h);
    if info.kind != t.expected_kind {
        return Err(Refusal::WrongObjectType);
    }
    if info.koid != t.expected_koid {
        return Err(Refusal::InvalidHandle);
    }
    book::id_left(s, sh)
}

// The rest of `prepare_consumption`, on the handle found.
#[tactic(auto, unfolding(crate::specs::Ops::consumed_r))]
fn consume_handle(
    s: &mut [u64],
    sh: Shape,
    b: u64,
    h: PreparedHandle,
    t: ConsumptionRules,
) -> Result<ReservationId, Refusal>
    ensures { Gives s.new (reply id_words result) (λ os base. consumed_r s.old os sh base b t.required.0 t.expected_kind t.expected_koid.0 h) }
{
    check_consumption(s, sh, h, t)?;
    let id = layout::root_word(s, sh, field::ROOT_NEXT_ID);
    let x = book::spare_place(s, sh);
    put_moved(s, sh, x, 0, h, h.rights);
    open_claim(s, sh, b, 1);
    Ok(ReservationId(id))
}

// "Consumption: 16, 1, 2 or 3, 5, 4, 2, 12": the handle is the one entry of a claim, with all its rights.
#[tactic(auto, unfolding(crate::specs::Ops::consumption_r, lookup::specs::View::open_of))]
pub fn prepare_consumption(
    s: &mut [u64],
    sh: Shape,
    b: u64,
    v: HandleValue,
    t: ConsumptionRules,
) -> Result<ReservationId, Refusal>
    ensures { Gives s.new (reply id_words result) (λ os base. consumption_r s.old os sh base b v.0 t.required.0 t.expected_kind t.expected_koid.0) }
{
    lookup::active_table(s, sh, b)?;
    if !book::row_left(s, sh) {
        return Err(Refusal::Allocation);
    }
    let h = lookup::find_handle(s, sh, b, v)?;
    consume_handle(s, sh, b, h, t)
}

// What a transfer bars: classes by its route, an object by its koid, and a kind.
#[derive(Clone, Copy)]
pub struct TransferRules {
    pub route: u64,
    pub forbidden_object: Option<u64>,
    pub forbidden_kind: Option<u64>,
}

// An item: "One source handle and its attenuated rights in a transfer transaction".
#[derive(Clone, Copy)]
pub struct HandleTransferRequest {
    pub operation: u64,
    pub value: HandleValue,
    pub rights: Rights,
    pub offered_rights: Option<u64>,
    pub offered_kind: Option<u64>,
    pub expected_kind: Option<u64>,
}

impl HandleTransferRequest {
    // Whether the item copies.
    fn copies(self) -> bool
        ensures { result ≡ is_copy (operation_of self.operation) }
    {
        self.operation != value::OPERATION_MOVE
    }
}

// What the transfer of a record bars.
fn read_rules(rq: &Record) -> TransferRules
    ensures { RulesAt rq.now.words.now rq.now.at result }
{
    TransferRules {
        route: rq.field(FIELD_ROUTE),
        forbidden_object: rq.find(FIELD_FORBIDDEN_OBJECT),
        forbidden_kind: rq.find(FIELD_FORBIDDEN_KIND),
    }
}

// The item of a record, whatever its map.
#[tactic(auto, unfolding(crate::specs::Checks::item_by, request::specs::Place::item_at), using(crate::specs::Code::as_found))]
fn any_item(item: &Record) -> HandleTransferRequest
    ensures { item_by result ≡ item_at item.now.words.now item.now.at }
{
    HandleTransferRequest {
        operation: item.field(FIELD_OP),
        value: HandleValue(item.field(FIELD_VALUE)),
        rights: Rights(item.field(FIELD_RIGHTS)),
        offered_rights: item.find(FIELD_OFFERED_RIGHTS),
        offered_kind: item.find(FIELD_OFFERED_KIND),
        expected_kind: item.find(FIELD_EXPECTED_KIND),
    }
}

// The item of a record with no optional field: its words are read where they stand, which `Record::field` would count anew from the map for
// each field. 64 such items take 52,800 instructions with their rollback, 64 with one optional field, which `any_item` reads, 71,300.
#[tactic(auto, unfolding(crate::specs::Checks::item_by), using(crate::specs::Plain::plain_there, crate::specs::Plain::plain_item))]
fn plain_item(item: &Record) -> HandleTransferRequest
    requires { has_map item.now.words.now item.now.at transfer_item_must ≡ true }
    ensures { item_by result ≡ item_at item.now.words.now item.now.at }
{
    let Record { words, at } = *item;
    HandleTransferRequest {
        operation: words::word(words, at + 1),
        value: HandleValue(words::word(words, at + 2)),
        rights: Rights(words::word(words, at + 3)),
        offered_rights: None,
        offered_kind: None,
        expected_kind: None,
    }
}

// The place after such a record.
#[tactic(auto, using(crate::specs::Plain::plain_there, crate::specs::Plain::plain_end))]
fn plain_end(item: &Record) -> usize
    requires { has_map item.now.words.now item.now.at transfer_item_must ≡ true }
    ensures { result ≡ end_at item.now.words.now item.now.at }
{
    item.at + 4
}

// The items of a transfer: `count` records of the list, of which the first is given.
// Their table is no field: `listed` and `twice` need none, and the functions of one item take the table without the others.
#[derive(Clone, Copy)]
struct TransferItems<'a> {
    item: Record<'a>,
    count: u64,
}

impl<'a> TransferItems<'a> {
    // The first n of them.
    fn first(self, n: u64) -> TransferItems<'a>
        ensures item { result.item ≡ self.entry.item }
        ensures count { result.count ≡ n }
    {
        TransferItems { count: n, ..self }
    }
}

impl<'a> Iterator for TransferItems<'a> {
    type Item = HandleTransferRequest;

    ghost next_gives = { YieldsFirstBy item_by items_left };

    ghost remaining = { λ s. at_most s.count };

    // Compiled in place: a call would hand each item over in memory.
    #[inline(always)]
    #[tactic(auto, unfolding(crate::specs::Checks::items_at, request::specs::Place::places_from))]
    fn next(&mut self) -> Option<HandleTransferRequest> {
        if self.count == 0 {
            return None;
        }
        let item = self.item;
        self.count -= 1;
        if item.has_map(format::maps::TRANSFER_ITEM_MUST) {
            self.item.at = plain_end(&item);
            return Some(plain_item(&item));
        }
        self.item.at = item.end();
        Some(any_item(&item))
    }
}

// Where a transfer's checks stop: the rule, and the position of the item that it stops at.
#[derive(Clone, Copy)]
pub struct TransferFault {
    pub rule: Rule,
    pub position: u64,
}

// "Transfer: 16, 17, 13, 1, 12", for n items from table b. Its first three tests are those of `reserve::check_batch`, on which this crate does not build and which tells no place.
#[tactic(auto, unfolding(crate::specs::Checks::batch_stop))]
fn check_batch(s: &[u64], sh: Shape, b: u64, n: u64) -> Result<(), Rule>
    ensures { stop_of result ≡ batch_stop (loadAt s.now sh) sh b n }
{
    if layout::head_word(s, sh, b, field::HEAD_LIFECYCLE) != value::LIFE_ACTIVE {
        return Err(Rule::TableRetired);
    }
    if n == 0 {
        return Err(Rule::EmptyReservation);
    }
    if size::BATCH_MAX < n {
        return Err(Rule::ReservationTooLarge);
    }
    if !book::row_left(s, sh) {
        return Err(Rule::NoRow);
    }
    if book::id_left(s, sh).is_err() {
        return Err(Rule::NoId);
    }
    Ok(())
}

// mod.rs `permits`, turned round: Buffered bars RendezvousOnly, every route bars Never.
#[tactic(auto, unfolding(crate::specs::Checks::route_bars))]
fn route_bars(route: u64, class: u64) -> bool
    ensures { result ≡ route_bars route class }
{
    match class {
        value::CLASS_LEAF => false,
        value::CLASS_RENDEZVOUS_ONLY => route == value::ROUTE_BUFFERED,
        _ => true,
    }
}

// "5 (rights)" of an item: no TRANSFER, a copy without DUPLICATE, offered beyond the source's, requested beyond the offered; "absent rights mean the source's".
#[tactic(auto, unfolding(crate::specs::Checks::rights_stop, crate::specs::Checks::item_by))]
fn check_rights(held: Rights, q: HandleTransferRequest) -> Result<(), Rule>
    ensures { stop_of result ≡ rights_stop held.0 (item_by q) }
{
    let offered = Rights(q.offered_rights.unwrap_or(held.0));
    if !held.contains(Rights::TRANSFER) {
        return Err(Rule::LacksTransfer);
    }
    if q.copies() && !held.contains(Rights::DUPLICATE) {
        return Err(Rule::CopyLacksDuplicate);
    }
    if !held.contains(offered) {
        return Err(Rule::OfferedBeyondSource);
    }
    if !offered.contains(q.rights) {
        return Err(Rule::RequestedBeyondOffered);
    }
    Ok(())
}

// "8 (kind), 5 (object), 8 (route), 4" of an item whose object has the record x; "any other absence means no test".
#[tactic(auto, unfolding(crate::specs::Checks::object_stop, crate::specs::Checks::item_by))]
fn check_object(x: ObjectRecord, q: HandleTransferRequest, t: TransferRules) -> Result<(), Rule>
    ensures { stop_of result ≡ object_stop x t.route (as_option t.forbidden_object) (as_option t.forbidden_kind) (item_by q) }
{
    if t.forbidden_kind == Some(x.kind) {
        return Err(Rule::ForbiddenKind);
    }
    if t.forbidden_object == Some(x.koid.0) {
        return Err(Rule::ForbiddenObject);
    }
    if route_bars(t.route, x.class) {
        return Err(Rule::RouteBarsClass);
    }
    if q.offered_kind.is_some_and(|kind| kind != x.kind)
        || q.expected_kind.is_some_and(|kind| kind != x.kind)
    {
        return Err(Rule::OtherKind);
    }
    Ok(())
}

// What the checks look at of object o, its koid, kind and class, in a record whose other words are 0.
#[tactic(auto, unfolding(crate::specs::Checks::looked_at))]
fn look_at(s: &[u64], sh: Shape, o: u64) -> ObjectRecord
    ensures { result ≡ looked_at (loadAt s.now sh) o }
{
    ObjectRecord {
        koid: Koid(layout::object_word(s, sh, o, field::OBJECT_KOID)),
        kind: layout::object_word(s, sh, o, field::OBJECT_KIND),
        class: layout::object_word(s, sh, o, field::OBJECT_CLASS),
        ..ObjectRecord::default()
    }
}

// The checks of an item that names the handle h, from its rights on. (b, q) and (q, t) stay apart: a table, an item and the rules come from three places, and few functions look at two of them.
#[tactic(auto, unfolding(crate::specs::Checks::handle_stop, crate::specs::Checks::object_stop, crate::specs::Checks::looked_at, object::specs::Words::record_at), using(crate::specs::Code::rule_some))]
fn check_handle(
    s: &[u64],
    sh: Shape,
    h: PreparedHandle,
    q: HandleTransferRequest,
    t: TransferRules,
) -> Result<(), Rule>
    ensures { stop_of result ≡ handle_stop (loadAt s.now sh) h t.route (as_option t.forbidden_object) (as_option t.forbidden_kind) (item_by q) }
{
    check_rights(Rights(h.rights), q)?;
    check_object(look_at(s, sh, h.object), q, t)
}

// Whether one of the items has a value: "A value listed twice in one transfer gives InvalidHandle, even if one is Copy".
fn listed(mut items: TransferItems, v: HandleValue) -> bool
    ensures { result ≡ member v.0 (earlier_left items.entry) }
{
    items.any(|q| v == q.value)
}

// Bits of a word.
const WORD_BITS: u64 = u64::BITS as u64;

// A set of values by their remainders: a bit that does not stand tells that no value of that remainder is in it.
#[derive(Clone, Copy)]
struct SeenValues(u64);

impl SeenValues {
    // Whether the bit of a value stands.
    #[tactic(auto, unfolding(crate::specs::Seen::bit_of))]
    fn may_have(self, v: HandleValue) -> bool
        ensures { result ≡ eqb (bit_of self.0 v.0) 1 }
    {
        (self.0 >> (v.0 % WORD_BITS)) % 2 == 1
    }

    // The set with a value.
    fn with(self, v: HandleValue) -> SeenValues
        ensures { result.0 ≡ bit_or self.0 (2 ^ (v.0 % 64)) }
    {
        SeenValues(self.0 | 1 << (v.0 % WORD_BITS))
    }
}

// Whether one of the items, which a set has, has a value: no item is read where the set does not have it.
#[tactic(auto, using(crate::specs::Seen::seen_not))]
fn twice(items: TransferItems, seen: SeenValues, v: HandleValue) -> bool
    requires { Seen items.item.words.now items.item.at items.count seen.0 }
    ensures { result ≡ member v.0 (earlier_left items.entry) }
{
    seen.may_have(v) && listed(items, v)
}

// The checks of an item before which others stand, in the printed order.
#[tactic(auto, unfolding(crate::specs::Checks::item_stop, crate::specs::Checks::item_by))]
fn check_item(
    s: &[u64],
    sh: Shape,
    before: TransferItems,
    seen: SeenValues,
    b: u64,
    q: HandleTransferRequest,
    t: TransferRules,
) -> Result<(), Rule>
    requires { Seen before.item.words.now before.item.at before.count seen.0 }
    ensures { stop_of result ≡ item_stop (loadAt s.now sh) b t.route (as_option t.forbidden_object) (as_option t.forbidden_kind) (earlier_left before.entry) (item_by q) }
{
    if twice(before, seen, q.value) {
        return Err(Rule::ListedTwice);
    }
    match lookup::find_handle(s, sh, b, q.value) {
        Ok(h) => check_handle(s, sh, h, q, t),
        Err(Refusal::Busy) => Err(Rule::HandleBusy),
        Err(_) => Err(Rule::NoHandle),
    }
}

// "item by item": the first fault of the items.
#[tactic(auto, unfolding(crate::specs::Checks::items_stop, crate::specs::Checks::earlier_at), using(crate::specs::Code::rule_some, crate::specs::Code::items_none, crate::specs::Code::turn_rest, crate::specs::Code::turn_earlier, crate::specs::Code::turn_item, crate::specs::Seen::seen_none, crate::specs::Seen::seen_turn))]
fn check_items(
    s: &[u64],
    sh: Shape,
    items: TransferItems,
    b: u64,
    t: TransferRules,
) -> Result<(), TransferFault>
    ensures { fault_of result ≡ items_stop (loadAt s.now sh) b t.route (as_option t.forbidden_object) (as_option t.forbidden_kind) [] 0 (items_left items.entry) }
{
    let mut seen = SeenValues(0);
    for (i, q) in items.enumerate() {
        let position = i as u64;
        if let Err(rule) = check_item(s, sh, items.first(position), seen, b, q, t) {
            return Err(TransferFault { rule, position });
        }
        seen = seen.with(q.value);
    }
    Ok(())
}

// The object of the handle that an item copies; none of an item that moves.
#[tactic(auto, unfolding(crate::specs::Preparing::copy_link, crate::specs::Checks::item_by))]
fn copied_object(s: &[u64], sh: Shape, b: u64, q: HandleTransferRequest) -> Option<u64>
    ensures { link_of result ≡ copy_link (loadAt s.now sh) b (item_by q) }
{
    if !q.copies() {
        return None;
    }
    let h = lookup::find_handle(s, sh, b, q.value).ok()?;
    Some(h.object)
}

// "then copies 9, 11": whether object o can get one handle more.
#[tactic(auto, unfolding(crate::specs::Checks::copy_stop))]
fn check_copy(s: &[u64], sh: Shape, o: u64) -> Result<(), Rule>
    ensures { stop_of result ≡ copy_stop (loadAt s.now sh) o }
{
    if object::is_retired(s, sh, o) {
        return Err(Rule::CopyOfRetired);
    }
    if object::limit_reached(s, sh, o) {
        return Err(Rule::CopyAtLimit);
    }
    Ok(())
}

// The object of an item that copies gets one handle more, or refuses.
#[tactic(auto, unfolding(crate::specs::Preparing::raised_item), using(crate::specs::Code::same_stop, crate::specs::Code::same_step))]
fn raise_item(s: &mut [u64], sh: Shape, b: u64, q: HandleTransferRequest) -> Result<(), Rule>
    ensures { raised (stop_of result) s.new ≡ raised_item s.old sh b (item_by q) }
{
    if let Some(o) = copied_object(s, sh, b, q) {
        check_copy(s, sh, o)?;
        object::raise_object(s, sh, o);
    }
    Ok(())
}

// The object of an item that copies has one handle fewer.
#[tactic(auto, unfolding(crate::specs::Preparing::lowered_item), using(crate::specs::Code::same_step))]
fn lower_item(s: &mut [u64], sh: Shape, b: u64, q: HandleTransferRequest)
    ensures words { s.new ≡ lowered_item s.old sh b (item_by q) }
{
    if let Some(o) = copied_object(s, sh, b, q) {
        object::lower_object(s, sh, o);
    }
}

// So for each of the items. The counts do not depend on the order, so that no record is sought backwards.
#[tactic(auto, unfolding(crate::specs::Preparing::lowered_items))]
fn lower_items(s: &mut [u64], sh: Shape, items: TransferItems, b: u64)
    ensures words { s.new ≡ lowered_items s.old sh b (items_left items.entry) }
{
    for q in items {
        lower_item(s, sh, b, q);
    }
}

// Each copy's object gets one handle more, in order. Where one refuses, those before it are lowered again.
#[tactic(auto, unfolding(crate::specs::Preparing::raised_items), using(crate::specs::Code::rule_some, crate::specs::Code::items_none, crate::specs::Code::turn_rest, crate::specs::Code::turn_items))]
fn raise_items(s: &mut [u64], sh: Shape, items: TransferItems, b: u64) -> Result<(), TransferFault>
    ensures { tried (fault_of result) s.new ≡ raised_items s.old sh b [] 0 (items_left items.entry) }
{
    for (i, q) in items.enumerate() {
        let position = i as u64;
        if let Err(rule) = raise_item(s, sh, b, q) {
            lower_items(s, sh, items.first(position), b);
            return Err(TransferFault { rule, position });
        }
    }
    Ok(())
}

// All checks of the items and their copies, in the printed order. Where they pass, the copies' objects have their handles.
#[tactic(auto, unfolding(crate::specs::Preparing::tried_items), using(crate::specs::Code::rule_some))]
fn try_items(
    s: &mut [u64],
    sh: Shape,
    items: TransferItems,
    b: u64,
    t: TransferRules,
) -> Result<(), TransferFault>
    ensures { tried (fault_of result) s.new ≡ tried_items s.old sh b t.route (as_option t.forbidden_object) (as_option t.forbidden_kind) (items_left items.entry) }
{
    check_items(s, sh, items, b, t)?;
    raise_items(s, sh, items, b)
}

// A copy of the handle h with the rights r, in item j of the row in place x. By places, as in `put_moved`: by
// `layout::put_item` 64 copies took 59,200 instructions for 57,900.
#[tactic(auto, using(crate::specs::Stored::copied_by))]
fn put_copied(s: &mut [u64], sh: Shape, x: u64, j: u64, h: PreparedHandle, r: u64)
    ensures words { s.new ≡ copied_w s.old sh x j h r }
{
    let at = item_place(s, sh, x, j);
    words::put(s, at, value::OPERATION_COPY);
    words::put(s, at + place::ITEM_OBJECT, h.object);
    words::put(s, at + place::ITEM_RIGHTS, r);
    words::put(s, at + place::ITEM_FLAGS, h.flags);
}

// An item that names the handle h, as its claim keeps it, in item j of the row in place x.
#[tactic(auto, unfolding(crate::specs::Preparing::handle_entry_w, crate::specs::Checks::item_by))]
fn put_handle_entry(
    s: &mut [u64],
    sh: Shape,
    x: u64,
    j: u64,
    h: PreparedHandle,
    q: HandleTransferRequest,
)
    ensures words { s.new ≡ handle_entry_w s.old sh x j (item_by q) h }
{
    if q.copies() {
        put_copied(s, sh, x, j, h, q.rights.0);
    } else {
        put_moved(s, sh, x, j, h, q.rights.0);
    }
}

// So for the handle that its value names.
#[tactic(auto, unfolding(crate::specs::Preparing::entry_w, crate::specs::Checks::item_by))]
fn put_entry(s: &mut [u64], sh: Shape, b: u64, x: u64, j: u64, q: HandleTransferRequest)
    ensures words { s.new ≡ entry_w s.old sh b x j (item_by q) }
{
    if let Ok(h) = lookup::find_handle(s, sh, b, q.value) {
        put_handle_entry(s, sh, x, j, h, q);
    }
}

// So for every item, in the row that opens next.
#[tactic(auto, unfolding(crate::specs::Preparing::entries_w))]
fn put_entries(s: &mut [u64], sh: Shape, items: TransferItems, b: u64)
    ensures words { s.new ≡ entries_w s.old sh b (spare (loadAt s.old sh)) 0 (items_left items.entry) }
{
    let x = book::spare_place(s, sh);
    for (j, q) in items.enumerate() {
        put_entry(s, sh, b, x, j as u64, q);
    }
}

// A refusal from the id step on: the id is spent, and nothing else.
#[tactic(auto, unfolding(crate::specs::Preparing::refuse_spent_r))]
fn refuse_spent(s: &mut [u64], sh: Shape, rule: Rule) -> Result<ReservationId, Refusal>
    ensures { Gives s.new (reply id_words result) (λ os base. refuse_spent_r s.old os sh base (number_by rule)) }
{
    book::spend_id(s, sh);
    Err(rule.refusal())
}

// The rest of `prepare_transfer`, from the id step on.
#[tactic(auto, unfolding(crate::specs::Preparing::items_r, crate::specs::Preparing::opened_r), using(crate::specs::Code::items_length, crate::specs::Code::rule_some))]
fn prepare_items(
    s: &mut [u64],
    sh: Shape,
    items: TransferItems,
    b: u64,
    t: TransferRules,
) -> Result<ReservationId, Refusal>
    ensures { Gives s.new (reply id_words result) (λ os base. items_r s.old os sh base b t.route (as_option t.forbidden_object) (as_option t.forbidden_kind) (items_left items.entry)) }
{
    if let Err(fault) = try_items(s, sh, items, b, t) {
        return refuse_spent(s, sh, fault.rule);
    }
    let id = layout::root_word(s, sh, field::ROOT_NEXT_ID);
    put_entries(s, sh, items, b);
    open_claim(s, sh, b, items.count);
    Ok(ReservationId(id))
}

// The items of the transfer of a record: they stand after it in the list.
fn read_items<'a>(rq: &Record<'a>) -> TransferItems<'a>
    ensures words { result.item.words.now ≡ rq.now.words.now }
    ensures place { result.item.at ≡ end_at rq.now.words.now rq.now.at }
    ensures count { result.count ≡ word_of rq.now count_field }
{
    TransferItems {
        item: Record {
            at: rq.end(),
            ..*rq
        },
        count: rq.field(FIELD_COUNT),
    }
}

// "Transfer: 16, 17, 13, 1, 12; then item by item 2 (twice), 2 or 3 (lookup), 5 (rights), 8 (kind), 5 (object), 8 (route), 4; then copies
// 9, 11". Its items stand after its record in the list.
#[tactic(auto, unfolding(crate::specs::Preparing::transfer_at, crate::specs::Preparing::transfer_r), using(crate::specs::Code::items_length, crate::specs::Code::rule_some))]
pub fn prepare_transfer(s: &mut [u64], sh: Shape, rq: &Record) -> Result<ReservationId, Refusal>
    ensures { Gives s.new (reply id_words result) (λ os base. transfer_at s.old os sh base rq.now.words.now rq.now.at) }
{
    let b = rq.field(FIELD_TABLE);
    let count = rq.field(FIELD_COUNT);
    lookup::known_table(sh, b)?;
    if let Err(rule) = check_batch(s, sh, b, count) {
        return Err(rule.refusal());
    }
    prepare_items(s, sh, read_items(rq), b, read_rules(rq))
}

// The request of a list at a place.
pub fn serve_prepare_transfer(s: &mut [u64], sh: Shape, rq: &Record, out: &mut [u64], base: usize)
    ensures { both s.new out.new ≡ transfer_at s.old out.old sh base rq.now.words.now rq.now.at }
{
    match prepare_transfer(s, sh, rq) {
        Ok(id) => answer::say(out, base, &[id.0]),
        Err(refusal) => answer::refuse(out, base, refusal.number()),
    }
}

// The checks of the items and their copies, after which no count is other than before.
#[tactic(auto, unfolding(crate::specs::Judging::judged_items), using(crate::specs::Code::rule_some))]
fn judge_items(
    s: &mut [u64],
    sh: Shape,
    items: TransferItems,
    b: u64,
    t: TransferRules,
) -> Result<(), TransferFault>
    ensures { tried (fault_of result) s.new ≡ judged_items s.old sh b t.route (as_option t.forbidden_object) (as_option t.forbidden_kind) (items_left items.entry) }
{
    try_items(s, sh, items, b, t)?;
    lower_items(s, sh, items, b);
    Ok(())
}

// All checks of a transfer from table b, in the printed order.
#[tactic(auto, unfolding(crate::specs::Judging::judged_batch), using(crate::specs::Code::items_length, crate::specs::Code::rule_some))]
fn judge_batch(
    s: &mut [u64],
    sh: Shape,
    items: TransferItems,
    b: u64,
    t: TransferRules,
) -> Result<(), TransferFault>
    ensures { tried (fault_of result) s.new ≡ judged_batch s.old sh b t.route (as_option t.forbidden_object) (as_option t.forbidden_kind) (items_left items.entry) }
{
    if let Err(rule) = check_batch(s, sh, b, items.count) {
        return Err(TransferFault {
            rule,
            position: format::size::NO_ITEM,
        });
    }
    judge_items(s, sh, items, b, t)
}

// Where a transfer's preparation would stop; none where it "would be accepted". The copies' counts are raised and lowered again meanwhile; no word of the state is other afterwards.
#[tactic(auto, unfolding(crate::specs::Judging::judging_at, crate::specs::Judging::judging_r))]
pub fn judge_transfer(
    s: &mut [u64],
    sh: Shape,
    rq: &Record,
) -> Result<Option<TransferFault>, Refusal>
    ensures { Gives s.new (reply judged_list result) (λ os base. judging_at s.old os sh base rq.now.words.now rq.now.at) }
{
    let b = rq.field(FIELD_TABLE);
    lookup::known_table(sh, b)?;
    Ok(judge_batch(s, sh, read_items(rq), b, read_rules(rq)).err())
}

// The words that tell where a preparation stops.
fn judged_words(judged: Option<TransferFault>) -> [u64; 3]
    ensures { result ≡ judged_list judged }
{
    match judged {
        Some(fault) => [
            fault.rule.refusal().number(),
            fault.position,
            fault.rule.place(),
        ],
        None => [DONE, 0, 0],
    }
}

// The request of a list at a place.
pub fn serve_judge_transfer(s: &mut [u64], sh: Shape, rq: &Record, out: &mut [u64], base: usize)
    ensures { both s.new out.new ≡ judging_at s.old out.old sh base rq.now.words.now rq.now.at }
{
    match judge_transfer(s, sh, rq) {
        Ok(judged) => answer::say(out, base, &judged_words(judged)),
        Err(refusal) => answer::refuse(out, base, refusal.number()),
    }
}

// The request of a list at a place: its fields are read.
pub fn serve_prepare_consumption(
    s: &mut [u64],
    sh: Shape,
    rq: &Record,
    out: &mut [u64],
    base: usize,
)
    ensures { both s.new out.new ≡ consumption_r s.old out.old sh base (word_of rq.now table_field) (word_of rq.now value_field) (word_of rq.now rights_field) (word_of rq.now kind_field) (word_of rq.now koid_field) }
{
    let [table, value, rights, kind, koid] = rq.fields(
        op::OP_PREPARE_CONSUMPTION,
        [
            FIELD_TABLE,
            FIELD_VALUE,
            FIELD_RIGHTS,
            FIELD_KIND,
            FIELD_KOID,
        ],
    );
    let t = ConsumptionRules {
        required: Rights(rights),
        expected_kind: kind,
        expected_koid: Koid(koid),
    };
    match prepare_consumption(s, sh, table, HandleValue(value), t) {
        Ok(id) => answer::say(out, base, &[id.0]),
        Err(refusal) => answer::refuse(out, base, refusal.number()),
    }
}
