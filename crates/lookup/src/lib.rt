// SPDX-FileCopyrightText: 2026 roolrz
// SPDX-License-Identifier: Apache-2.0
// Ported from src/capability/handle/mod.rs of HypeR-Proj/kernel, with changes.

// Looking up a handle value, what is told of a handle, and two requests that only read: `resolve` and `scan_handles`.
#![tactic(auto)]

ghost use Rattle.std.specs.Prelude.{◌≡◌, ◌∷◌, ◌≤◌, ◌<◌, take};
ghost use Rattle.layout.specs.Layout.{load as loadAt};
ghost use Rattle.layout.specs.Fields.{slot_tag};
ghost use Rattle.representation.specs.Represents.{word_in, frame_of};
ghost use Rattle.format.specs.Format.{answer_words};
ghost use Rattle.request.specs.Answers.{puts};
ghost use Rattle.format.specs.Refusals.{number_of};
ghost use Rattle.answer.specs.Does.{both, answered, reply, Gives};
ghost use Rattle.lookup.specs.View.{handle_by, handle_at, shown, view_of, view_result, unknown_refusal, table_refusal, opened, open_of};
ghost use Rattle.lookup.specs.Read.{info_at, info_list, resolved_list, resolved_r, resolve_r};
ghost use Rattle.lookup.specs.Scan.{length_at, entry_by, entry_of, no_entry, FrameFor, ended_of, scan_of, entry_words, entry_list, page_list, scan_r};
ghost use Rattle.format.specs.Fields.{table_field, value_field, rights_field, kind_field, cursor_field};
ghost use Rattle.request.specs.Place.{word_of};

use authority::Rights;
use codec::{Decoded, HandleCodec, HandleValue, Koid};
use format::field::{FIELD_CURSOR, FIELD_KIND, FIELD_RIGHTS, FIELD_TABLE, FIELD_VALUE};
use format::op;
use format::refusal::Refusal;
use layout::{CellWords, Shape, field, size, value};
use request::Record;

// A handle by value, with its slot and the slot's generation. While a claim moves it, the slot is the one that it came from (crate info).
#[derive(Clone, Copy)]
pub struct PreparedHandle {
    pub slot: u64,
    pub generation: u64,
    pub object: u64,
    pub rights: u64,
    pub flags: u64,
}

// What is told of a handle.
#[derive(Clone, Copy, Default)]
pub struct HandleInfo {
    pub koid: Koid,
    pub kind: u64,
    pub rights: u64,
    pub flags: u64,
}

impl HandleInfo {
    // "1 koid, 2 kind, 3 rights, 4 flags": its words in an answer.
    pub fn words(self) -> [u64; 4]
        ensures { result ≡ info_list self }
    {
        [self.koid.0, self.kind, self.rights, self.flags]
    }
}

// What is told of a handle that may be used: the object's number, its koid and the rights held.
#[derive(Clone, Copy)]
pub struct Resolved {
    pub object: u64,
    pub koid: Koid,
    pub rights: u64,
}

// An occupied slot, as a scan shows it.
#[derive(Clone, Copy, Default)]
pub struct SnapshotEntry {
    pub value: HandleValue,
    pub info: HandleInfo,
}

// "A snapshot page holds 8 entries, a length and an optional next cursor. We add `examined`, the number of slots looked at".
#[derive(Clone, Copy)]
pub struct SnapshotPage {
    pub entries: [SnapshotEntry; format::size::SCAN_ENTRIES],
    pub len: usize,
    pub next: Option<u64>,
    pub examined: u64,
}

// The handle in slot k, whose words are given.
fn prepared(k: u64, w: CellWords) -> PreparedHandle
    ensures { result ≡ handle_by k w }
{
    PreparedHandle {
        slot: k,
        generation: w.generation,
        object: w.object,
        rights: w.rights,
        flags: w.flags,
    }
}

// The handle in slot k of table b.
pub fn handle_at(s: &[u64], sh: Shape, b: u64, k: u64) -> PreparedHandle
    ensures { result ≡ handle_at (loadAt s.now sh) b k }
{
    prepared(k, storage::slot_at(s, sh, b, k))
}

// "18 Misuse: .. unknown table".
pub fn known_table(sh: Shape, b: u64) -> Result<(), Refusal>
    ensures { number_of result ≡ unknown_refusal sh b }
{
    if sh.tables as u64 <= b {
        return Err(Refusal::Misuse);
    }
    Ok(())
}

// .. and "16 TableRetired: not active".
#[tactic(auto, unfolding(crate::specs::View::table_refusal))]
pub fn active_table(s: &[u64], sh: Shape, b: u64) -> Result<(), Refusal>
    ensures { number_of result ≡ table_refusal (loadAt s.now sh) sh b }
{
    known_table(sh, b)?;
    if layout::head_word(s, sh, b, field::HEAD_LIFECYCLE) != value::LIFE_ACTIVE {
        return Err(Refusal::TableRetired);
    }
    Ok(())
}

// What slot k, whose words are given, shows to a value of generation g: a slot of equal generation that is TransferReserved is Busy.
fn open_slot(k: u64, g: u64, w: CellWords) -> Result<PreparedHandle, Refusal>
    ensures { result ≡ view_result (shown g w.tag (handle_by k w)) }
{
    if g != w.generation {
        return Err(Refusal::InvalidHandle);
    }
    match w.tag {
        value::TAG_OCCUPIED => Ok(prepared(k, w)),
        value::TAG_TRANSFER_RESERVED => Err(Refusal::Busy),
        _ => Err(Refusal::InvalidHandle),
    }
}

// What a value names in table b, active or not: a handle, or why there is none. (b, v) stay two here and below: a request has them as two fields, and a struct would be made for one call.
#[tactic(auto, unfolding(crate::specs::View::view_of, crate::specs::View::slot_view))]
pub fn find_handle(s: &[u64], sh: Shape, b: u64, v: HandleValue) -> Result<PreparedHandle, Refusal>
    ensures { result ≡ view_result (view_of (loadAt s.now sh) b v.0) }
{
    let codec = HandleCodec {
        mask: layout::head_word(s, sh, b, field::HEAD_MASK),
    };
    let Decoded { slot, generation } = codec.decode(v).ok_or(Refusal::InvalidHandle)?;
    open_slot(slot, generation, storage::slot_at(s, sh, b, slot))
}

// The handle that a value names in an active table.
#[tactic(auto, unfolding(crate::specs::View::open_of))]
pub fn open_handle(s: &[u64], sh: Shape, b: u64, v: HandleValue) -> Result<PreparedHandle, Refusal>
    ensures { opened result ≡ open_of (loadAt s.now sh) sh b v.0 }
{
    active_table(s, sh, b)?;
    find_handle(s, sh, b, v)
}

// The info of a handle.
pub fn info_of(s: &[u64], sh: Shape, h: PreparedHandle) -> HandleInfo
    ensures { result ≡ info_at (loadAt s.now sh) h }
{
    HandleInfo {
        koid: Koid(layout::object_word(s, sh, h.object, field::OBJECT_KOID)),
        kind: layout::object_word(s, sh, h.object, field::OBJECT_KIND),
        rights: h.rights,
        flags: h.flags,
    }
}

// "Resolve: 16, 2 or 3, 5, 4".
#[tactic(auto, unfolding(crate::specs::Read::resolve_r, crate::specs::Read::resolved_r))]
pub fn resolve(
    s: &[u64],
    sh: Shape,
    b: u64,
    v: HandleValue,
    required: Rights,
    kind: u64,
) -> Result<Resolved, Refusal>
    ensures { Gives s.now (reply resolved_list result) (λ os base. resolve_r s.now os sh base b v.0 required.0 kind) }
{
    let h = open_handle(s, sh, b, v)?;
    if !Rights(h.rights).contains(required) {
        return Err(Refusal::AccessDenied);
    }
    let info = info_of(s, sh, h);
    if info.kind != kind {
        return Err(Refusal::WrongObjectType);
    }
    Ok(Resolved {
        object: h.object,
        koid: info.koid,
        rights: h.rights,
    })
}

// How many slots the pages have that table b has had, detached ones included.
#[tactic(auto, unfolding(model::specs::State::max_slots))]
pub fn table_length(s: &[u64], sh: Shape, b: u64) -> u64
    ensures { result ≡ length_at (loadAt s.now sh) b }
{
    let most = HandleCodec::SLOT_LIMIT + 1;
    let n = layout::head_word(s, sh, b, field::HEAD_PAGES);
    (n.min(size::PAGES_MAX) * size::PAGE_SIZE).min(most)
}

// The snapshot of slot k, whose words are given, in a table of that mask.
fn snapshot_by(s: &[u64], sh: Shape, mask: u64, k: u64, w: CellWords) -> SnapshotEntry
    ensures { result ≡ entry_by (loadAt s.now sh) mask k w }
{
    let codec = HandleCodec { mask };
    SnapshotEntry {
        value: codec.encode(k, w.generation),
        info: info_of(s, sh, prepared(k, w)),
    }
}

// The snapshot of slot k of table b, which is occupied.
pub fn snapshot_at(s: &[u64], sh: Shape, b: u64, k: u64) -> SnapshotEntry
    ensures { result ≡ entry_of (loadAt s.now sh) b k }
{
    let mask = layout::head_word(s, sh, b, field::HEAD_MASK);
    let w = storage::slot_at(s, sh, b, k);
    snapshot_by(s, sh, mask, k, w)
}

// The frame of the page that slot k stands on, plus 1; fr is that of the slot before it, and is read anew where a page begins.
fn frame_on(s: &[u64], sh: Shape, b: u64, k: u64, fr: u64) -> u64
    requires { FrameFor (loadAt s.now sh) b k fr }
    ensures { result ≡ frame_of (loadAt s.now sh) b k }
{
    if k % size::PAGE_SIZE == 0 {
        return storage::frame_link(s, sh, b, k);
    }
    fr
}

// The page of a scan that started and stopped at two slots: the next one goes on where slots are left.
fn ended(
    entries: [SnapshotEntry; format::size::SCAN_ENTRIES],
    len: usize,
    start: u64,
    stop: u64,
    length: u64,
) -> SnapshotPage
    requires { start ≤ stop }
    ensures { result ≡ ended_of entries len start stop length }
{
    SnapshotPage {
        entries,
        len,
        next: (stop < length).then_some(stop),
        examined: stop - start,
    }
}

// A page of at most 8 occupied slots, from at most 256 slots of table b. `len` counts the slots that are taken, not the turns.
pub fn scan(s: &[u64], sh: Shape, b: u64, cursor: u64) -> SnapshotPage
    ensures page { result ≡ scan_of (loadAt s.now sh) b cursor }
    ensures bounded { result.examined ≤ 256 }
{
    let length = table_length(s, sh, b);
    let start = cursor.min(length);
    let stop = length.min(start + format::size::SCAN_SLOTS);
    let mask = layout::head_word(s, sh, b, field::HEAD_MASK);
    // Past its length a page holds entries of zeros.
    let mut entries = [SnapshotEntry::default(); format::size::SCAN_ENTRIES];
    let mut len: usize = 0;
    let mut fr = storage::frame_link(s, sh, b, start);
    for at in start..stop {
        if format::size::SCAN_ENTRIES <= len {
            return ended(entries, len, start, at, length);
        }
        fr = frame_on(s, sh, b, at, fr);
        let tag = storage::frame_word(s, sh, fr, at % size::PAGE_SIZE, field::SLOT_TAG);
        if tag != value::TAG_OCCUPIED {
            continue;
        }
        let w = storage::cell_in(s, sh, fr, at % size::PAGE_SIZE);
        entries[len] = snapshot_by(s, sh, mask, at, w);
        len += 1;
    }
    ended(entries, len, start, stop, length)
}

// Puts an entry's words, from word i of the answer on: five puts are shorter than a loop over an array of five words.
#[tactic(auto, unfolding(request::specs::Answers::puts))]
fn put_entry(out: &mut [u64], base: usize, i: usize, x: SnapshotEntry)
    requires { i < answer_words }
    ensures { out.new ≡ puts out.old base i (entry_words x) }
{
    request::answer_put(out, base, i, x.value.0);
    request::answer_put(out, base, i + 1, x.info.koid.0);
    request::answer_put(out, base, i + 2, x.info.kind);
    request::answer_put(out, base, i + 3, x.info.rights);
    request::answer_put(out, base, i + 4, x.info.flags);
}

// Puts a page's entries, from word 5 of the answer on.
#[tactic(auto, unfolding(request::specs::Answers::puts), using(crate::specs::Pages::entries_more))]
fn put_entries(out: &mut [u64], base: usize, p: SnapshotPage)
    ensures { out.new ≡ puts out.old base 5 (entry_list (take p.len p.entries)) }
{
    let entries = &p.entries[..p.len.min(format::size::SCAN_ENTRIES)];
    for (k, entry) in entries.iter().enumerate() {
        put_entry(out, base, 5 + k * 5, *entry);
    }
}

// Answers a page.
#[tactic(auto, unfolding(request::specs::Answers::puts))]
fn say_page(out: &mut [u64], base: usize, p: SnapshotPage)
    ensures { out.new ≡ answered out.old base (0 ∷ page_list p) }
{
    answer::say(
        out,
        base,
        &[
            p.len as u64,
            p.next.is_some() as u64,
            p.next.unwrap_or(0),
            p.examined,
        ],
    );
    put_entries(out, base, p);
}

// "Unknown table, object or row first"; 16; else a page.
#[tactic(auto, unfolding(crate::specs::Scan::scan_r))]
pub fn scan_handles(s: &[u64], sh: Shape, b: u64, cursor: u64) -> Result<SnapshotPage, Refusal>
    ensures { Gives s.now (reply page_list result) (λ os base. scan_r s.now os sh base b cursor) }
{
    active_table(s, sh, b)?;
    Ok(scan(s, sh, b, cursor))
}

// The request of a list at a place: its fields are read.
pub fn serve_resolve(s: &mut [u64], sh: Shape, rq: &Record, out: &mut [u64], base: usize)
    ensures { both s.new out.new ≡ resolve_r s.old out.old sh base (word_of rq.now table_field) (word_of rq.now value_field) (word_of rq.now rights_field) (word_of rq.now kind_field) }
{
    let [table, value, rights, kind] = rq.fields(
        op::OP_RESOLVE,
        [FIELD_TABLE, FIELD_VALUE, FIELD_RIGHTS, FIELD_KIND],
    );
    match resolve(s, sh, table, HandleValue(value), Rights(rights), kind) {
        Ok(found) => answer::say(out, base, &[found.object, found.koid.0, found.rights]),
        Err(refusal) => answer::refuse(out, base, refusal.number()),
    }
}

pub fn serve_scan_handles(s: &mut [u64], sh: Shape, rq: &Record, out: &mut [u64], base: usize)
    ensures { both s.new out.new ≡ scan_r s.old out.old sh base (word_of rq.now table_field) (word_of rq.now cursor_field) }
{
    let [table, cursor] = rq.fields(op::OP_SCAN_HANDLES, [FIELD_TABLE, FIELD_CURSOR]);
    match scan_handles(s, sh, table, cursor) {
        Ok(page) => say_page(out, base, page),
        Err(refusal) => answer::refuse(out, base, refusal.number()),
    }
}
