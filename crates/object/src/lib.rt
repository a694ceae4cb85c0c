// Objects: records by value, a lent list of them that is updated by number, and the same over the state's words.
#![tactic(auto)]

ghost use Rattle.std.specs.Prelude.{◌≡◌, ℕ, eqb};
ghost use Rattle.layout.specs.Layout.{load as loadAt, writes};
ghost use Rattle.layout.specs.Values.{stage_retired};
ghost use Rattle.format.specs.Refusals.{number_of};
ghost use Rattle.object.specs.declared.ObjectRecord.{ObjectRecord};
ghost use Rattle.object.specs.Record.{activated_by, raised_by, lowered_by, retired_by, count_in, list_by, answer_by, Stepped};
ghost use Rattle.object.specs.Words.{record_at, standing_at, record_p, activate_w, raise_w, lower_w, retire_w, raise_refusal, step_w};

use codec::Koid;
use format::refusal::Refusal;
use layout::{Shape, field, value};

// "Objects: koid, kind, class, supported rights, exportable or not, state, active count, limit".
#[derive(Clone, Copy, Default)]
pub struct ObjectRecord {
    pub koid: Koid,
    pub kind: u64,
    pub class: u64,
    pub supported: u64,
    pub exportable: u64,
    pub stage: u64,
    pub count: u64,
    pub limit: u64,
}

// The steps by value.
impl ObjectRecord {
    // Activation: "else count 1".
    pub fn activated(self) -> ObjectRecord
        ensures { result ≡ activated_by self }
    {
        ObjectRecord {
            stage: value::STAGE_ACTIVE,
            count: 1,
            ..self
        }
    }

    // One handle more.
    pub fn raised(self) -> ObjectRecord
        ensures { result ≡ raised_by self }
    {
        ObjectRecord {
            count: self.count.saturating_add(1),
            ..self
        }
    }

    // One handle fewer: "Falling to count 0 retires the object".
    pub fn lowered(self) -> ObjectRecord
        ensures { result ≡ lowered_by self }
    {
        if 1 < self.count {
            ObjectRecord {
                count: self.count - 1,
                ..self
            }
        } else {
            ObjectRecord {
                stage: value::STAGE_RETIRED,
                count: 0,
                ..self
            }
        }
    }

    // "Its owner may retire it by a request accepted in any state".
    pub fn retired(self) -> ObjectRecord
        ensures { result ≡ retired_by self }
    {
        ObjectRecord {
            stage: value::STAGE_RETIRED,
            ..self
        }
    }
}

// ---- a lent list
// These functions are kept beside those over words: document 01 has object records as a lent slice of structs.

// Does a step on record i and answers the count that it had; 0 past the end.
#[tactic(auto, unfolding(crate::specs::Record::list_by))]
fn step<F: FnOnce(ObjectRecord) -> ObjectRecord>(
    objects: &mut [ObjectRecord],
    i: usize,
    f: F,
) -> u64
    requires { F.IsAlwaysCallable f }
    ensures answer { result ≡ answer_by count_in objects.old i }
    ensures record { Stepped (F.post f) objects.old objects.new i }
{
    if i < objects.len() {
        let o = objects[i];
        objects[i] = f(o);
        o.count
    } else {
        0
    }
}

// Activates record i and answers the count that it had; 0 past the end.
pub fn activate(objects: &mut [ObjectRecord], i: usize) -> u64
    ensures { (result ≡ answer_by count_in objects.old i) × (objects.new ≡ list_by activated_by objects.old i) }
{
    step(objects, i, ObjectRecord::activated)
}

// Raises record i and answers the count that it had; 0 past the end.
pub fn raise(objects: &mut [ObjectRecord], i: usize) -> u64
    ensures { (result ≡ answer_by count_in objects.old i) × (objects.new ≡ list_by raised_by objects.old i) }
{
    step(objects, i, ObjectRecord::raised)
}

// Lowers record i and answers the count that it had; 0 past the end.
pub fn lower(objects: &mut [ObjectRecord], i: usize) -> u64
    ensures { (result ≡ answer_by count_in objects.old i) × (objects.new ≡ list_by lowered_by objects.old i) }
{
    step(objects, i, ObjectRecord::lowered)
}

// Retires record i and answers the count that it had; 0 past the end.
pub fn retire(objects: &mut [ObjectRecord], i: usize) -> u64
    ensures { (result ≡ answer_by count_in objects.old i) × (objects.new ≡ list_by retired_by objects.old i) }
{
    step(objects, i, ObjectRecord::retired)
}

// ---- over the state's words

// The record of object o.
#[tactic(auto, unfolding(crate::specs::Words::record_at))]
pub fn read_object(s: &[u64], sh: Shape, o: u64) -> ObjectRecord
    ensures { result ≡ record_at (loadAt s.now sh) o }
{
    ObjectRecord {
        koid: Koid(layout::object_word(s, sh, o, field::OBJECT_KOID)),
        kind: layout::object_word(s, sh, o, field::OBJECT_KIND),
        class: layout::object_word(s, sh, o, field::OBJECT_CLASS),
        supported: layout::object_word(s, sh, o, field::OBJECT_SUPPORTED),
        exportable: layout::object_word(s, sh, o, field::OBJECT_EXPORTABLE),
        stage: layout::object_word(s, sh, o, field::OBJECT_STAGE),
        count: layout::object_word(s, sh, o, field::OBJECT_ACTIVE),
        limit: layout::object_word(s, sh, o, field::OBJECT_LIMIT),
    }
}

// What a step reads of object o, its stage and its count, in the record of no object: the words that no step looks at are not loaded.
#[tactic(auto, unfolding(crate::specs::Words::standing_at))]
fn standing_of(s: &[u64], sh: Shape, o: u64) -> ObjectRecord
    ensures { result ≡ standing_at (loadAt s.now sh) o }
{
    ObjectRecord {
        stage: layout::object_word(s, sh, o, field::OBJECT_STAGE),
        count: layout::object_word(s, sh, o, field::OBJECT_ACTIVE),
        ..ObjectRecord::default()
    }
}

// Stores what a step changes: the stage and the count.
fn write_object(s: &mut [u64], sh: Shape, o: u64, x: ObjectRecord)
    ensures { s.new ≡ writes s.old sh (record_p o x) }
{
    layout::put_object(s, sh, o, field::OBJECT_STAGE, x.stage);
    layout::put_object(s, sh, o, field::OBJECT_ACTIVE, x.count);
}

// Does a step of a lent list on object o, whose record is a list of one.
#[tactic(auto, unfolding(crate::specs::Record::list_by, crate::specs::Words::step_w), using(crate::specs::Words::step_is))]
fn step_object<F: FnOnce(&mut [ObjectRecord], usize) -> u64>(
    s: &mut [u64],
    sh: Shape,
    o: u64,
    step: F,
)
    requires { F.IsAlwaysCallable step }
    ensures { (f : ObjectRecord → ObjectRecord) → ((p : _) (i : ℕ) (n : ℕ) (q : _) → F.post step p i n q → q.now ≡ list_by f p.now i) → record_p o (f (standing_at (loadAt s.old sh) o)) ≡ record_p o (f (record_at (loadAt s.old sh) o)) → s.new ≡ step_w f s.old sh o }
{
    let mut objects = [standing_of(s, sh, o)];
    step(&mut objects, 0);
    write_object(s, sh, o, objects[0]);
}

// Object o is active and has its first handle.
#[tactic(auto, unfolding(crate::specs::Words::record_at, crate::specs::Words::standing_at))]
pub fn activate_object(s: &mut [u64], sh: Shape, o: u64)
    ensures words { s.new ≡ activate_w s.old sh o }
{
    step_object(s, sh, o, activate);
}

// Object o has one handle more.
#[tactic(auto, unfolding(crate::specs::Words::record_at, crate::specs::Words::standing_at))]
pub fn raise_object(s: &mut [u64], sh: Shape, o: u64)
    ensures words { s.new ≡ raise_w s.old sh o }
{
    step_object(s, sh, o, raise);
}

// Object o has one handle fewer.
#[tactic(auto, unfolding(crate::specs::Words::record_at, crate::specs::Words::standing_at))]
pub fn lower_object(s: &mut [u64], sh: Shape, o: u64)
    ensures words { s.new ≡ lower_w s.old sh o }
{
    step_object(s, sh, o, lower);
}

// Object o is retired by its owner.
#[tactic(auto, unfolding(crate::specs::Words::record_at, crate::specs::Words::standing_at))]
pub fn retire_object(s: &mut [u64], sh: Shape, o: u64)
    ensures words { s.new ≡ retire_w s.old sh o }
{
    step_object(s, sh, o, retire);
}

// Whether object o is retired.
#[tactic(auto, unfolding(crate::specs::Words::record_at))]
pub fn is_retired(s: &[u64], sh: Shape, o: u64) -> bool
    ensures { result ≡ eqb (record_at (loadAt s.now sh) o).stage stage_retired }
{
    layout::object_word(s, sh, o, field::OBJECT_STAGE) == value::STAGE_RETIRED
}

// Whether object o has as many handles as it may.
#[tactic(auto, unfolding(crate::specs::Words::record_at))]
pub fn limit_reached(s: &[u64], sh: Shape, o: u64) -> bool
    ensures { result ≡ eqb (record_at (loadAt s.now sh) o).count (record_at (loadAt s.now sh) o).limit }
{
    layout::object_word(s, sh, o, field::OBJECT_ACTIVE)
        == layout::object_word(s, sh, o, field::OBJECT_LIMIT)
}

// "9, 11" of a duplicate: whether object o can get one handle more.
#[tactic(auto, unfolding(crate::specs::Words::raise_refusal))]
pub fn may_raise(s: &[u64], sh: Shape, o: u64) -> Result<(), Refusal>
    ensures { number_of result ≡ raise_refusal (loadAt s.now sh) o }
{
    if is_retired(s, sh, o) {
        return Err(Refusal::ObjectRetired);
    }
    if limit_reached(s, sh, o) {
        return Err(Refusal::ActiveHandleLimit);
    }
    Ok(())
}
