// The part of the state check that looks at objects: their fields, and their counts.
//
// The counts are checked with no memory beside the state's: every handle is counted in the upper half of its object's count word, which is 0 where the
// fields are in range; then the halves are compared, and the lower ones are left. Whichever handles were counted, every word is then as it was. Only the objects
// up to the last that has a count are gone over again, or up to the last that a row has a handle of.
// Bounds that are taken here again hold where the parts before have passed; they make each contract true of any words.
#![tactic(auto)]

ghost use Rattle.std.specs.Prelude.{◌≡◌, ◌&&◌, ◌||◌, [], ◌∷◌, ◌≤◌, ◌<◌, eqb, length};
ghost use Rattle.layout.specs.Layout.{objects_at, total, load as loadAt, object, index, item};
ghost use Rattle.layout.specs.Fields.{object_active, item_object};
ghost use Rattle.counts.specs.Found.{gather, in_row, in_book};
ghost use Rattle.counts.specs.Shift.{plus, shift_w, shifted, unit};
ghost use Rattle.counts.specs.Objects.{object_b};
ghost use Rattle.counts.specs.Used.{idle_b, used_to, objects_read, raise, top_of};
ghost use Rattle.counts.specs.Halves.{half_b, halves_to, lower_w, lowered};

use layout::{Shape, field, place, size, value};

// One more in the upper half of a word.
const UNIT: u64 = size::NUMBER_32_MAX + 1;

// The objects of words that hold the whole state: the words, the state's shape, and where the first object's record stands.
#[derive(Clone, Copy)]
struct Objects<'a> {
    words: &'a [u64],
    sh: Shape,
    first: u64,
    ghost lent: { total sh ≤ length words.now },
    ghost placed: { first ≡ objects_at sh },
}

impl<'a> Objects<'a> {
    // Whether the fields of object o are in range; its supported rights may be any word. "a new object has count 0, an active one more"; a retired one may
    // have either. Few tests, each of which but that of the count goes the same way for every object in range.
    #[tactic(auto, using(crate::specs::Objects::object_is, std::proofs::lemmas::Bool::Decides::nat_tests))]
    fn object_ok(self, o: u64) -> bool
        requires { o < self.sh.objects }
        ensures { result ≡ object_b (loadAt self.entry.words.now self.entry.sh) o }
    {
        let s = self.words;
        let at = (self.first + o * size::OBJECT_SIZE) as usize;
        let koid = s[at];
        let kind = s[at + place::OBJECT_KIND];
        let class = s[at + place::OBJECT_CLASS];
        let exportable = s[at + place::OBJECT_EXPORTABLE];
        let stage = s[at + place::OBJECT_STAGE];
        let count = s[at + place::OBJECT_ACTIVE];
        let limit = s[at + place::OBJECT_LIMIT];
        if kind / UNIT + limit / UNIT + exportable / 2 != 0
            || koid == 0
            || class > value::CLASS_NEVER
        {
            return false;
        }
        if count == 0 {
            matches!(stage, value::STAGE_NEW | value::STAGE_RETIRED)
        } else {
            count <= limit && matches!(stage, value::STAGE_ACTIVE | value::STAGE_RETIRED)
        }
    }

    // Whether object o has no count and its fields are in range.
    #[tactic(auto, using(crate::specs::Shift::object_load), unfolding(crate::specs::Used::idle_b))]
    fn idle_ok(self, o: u64) -> bool
        requires { o < self.sh.objects }
        ensures { result ≡ idle_b (loadAt self.entry.words.now self.entry.sh) o }
    {
        let at = (self.first + o * size::OBJECT_SIZE + field::OBJECT_ACTIVE) as usize;
        self.words[at] == 0 && self.object_ok(o)
    }

    // How many are left without those at the end that have no count and whose fields are in range.
    // A loop, whose invariant is a line: what `find` gives is said over its closure, and takes a file of answers, as teardown's `occupied_on`.
    #[tactic(auto, unfolding(crate::specs::Used::used_to))]
    fn used(self) -> u64
        ensures { result ≡ used_to (loadAt self.entry.words.now self.entry.sh) self.entry.sh.objects }
    {
        for o in (0..self.sh.objects as u64).rev() {
            if !self.idle_ok(o) {
                return o + 1;
            }
        }
        0
    }
}

// Whether the fields of every object are in range, and how many objects may have handles.
pub fn check_objects(s: &[u64], sh: Shape) -> Option<u64>
    requires { total sh ≤ length s.now }
    ensures { result ≡ objects_read (loadAt s.now sh) sh }
{
    let first = layout::region_of(sh, layout::region::REGION_OBJECT).low;
    let objects = Objects {
        words: s,
        sh,
        first,
    };
    let n = objects.used();
    (0..n).all(|o| objects.object_ok(o)).then_some(n)
}

// Counts a handle of object o in the upper half of the object's count.
#[tactic(auto, unfolding(crate::specs::Shift::shift_w))]
fn note_count(s: &mut [u64], sh: Shape, o: u64)
    ensures { s.new ≡ shift_w s.old sh unit o }
{
    let c = layout::object_word(s, sh, o, field::OBJECT_ACTIVE);
    layout::put_object(s, sh, o, field::OBJECT_ACTIVE, c.wrapping_add(UNIT));
}

// The same where o is one of the state's objects and all words are lent: no further test.
// The functions that write are lent words and shape apart: a struct of both needs two clauses more in each, that the lent words and the shape stay the same ones.
#[tactic(auto, using(crate::specs::Shift::active_load, crate::specs::Shift::active_save), unfolding(crate::specs::Shift::shift_w))]
pub fn note_handle(s: &mut [u64], sh: Shape, o: u64)
    requires o_lt_objects { o < sh.objects }
    requires sh_in_bounds { total sh ≤ length s.old }
    ensures { s.new ≡ shift_w s.old sh unit o }
{
    let first = layout::region_of(sh, layout::region::REGION_OBJECT).low;
    let at = (first + o * size::OBJECT_SIZE + field::OBJECT_ACTIVE) as usize;
    s[at] = s[at].wrapping_add(UNIT);
}

// So many objects, the first ones, or as many more as it takes for o to be among them, if it is one of n.
fn raised(top: u64, n: u64, o: u64) -> u64
    ensures { result ≡ raise n top o }
{
    if (top..n).contains(&o) { o + 1 } else { top }
}

// (x, top) stay two in these: `top` goes on from call to call, the row's place is each call's own.
// Counts the handle of item j of the row in place x. The objects that may have a handle counted: so many as before, or up to that handle's.
fn note_item(s: &mut [u64], sh: Shape, x: u64, j: u64, top: u64) -> u64
    ensures noted { s.new ≡ shifted s.old sh unit (loadAt s.old sh (item x j item_object) ∷ []) }
    ensures reached { result ≡ top_of sh.objects top (loadAt s.old sh (item x j item_object) ∷ []) }
{
    let o = layout::item_word(s, sh, x, j, field::ITEM_OBJECT);
    note_count(s, sh, o);
    raised(top, sh.objects as u64, o)
}

// The same of the first n items of the row in place x.
fn note_items(s: &mut [u64], sh: Shape, x: u64, n: u64, top: u64) -> u64
    ensures noted { s.new ≡ shifted s.old sh unit (gather n (λ j. loadAt s.old sh (item x j item_object) ∷ [])) }
    ensures reached { result ≡ top_of sh.objects top (gather n (λ j. loadAt s.old sh (item x j item_object) ∷ [])) }
{
    let mut t = top;
    for j in 0..n {
        t = note_item(s, sh, x, j, t);
    }
    t
}

// The same of the row in place x, if it is a claim or a parcel.
fn note_row(s: &mut [u64], sh: Shape, x: u64, top: u64) -> u64
    ensures noted { s.new ≡ shifted s.old sh unit (in_row (loadAt s.old sh) x) }
    ensures reached { result ≡ top_of sh.objects top (in_row (loadAt s.old sh) x) }
{
    let kind = layout::row_word(s, sh, x, field::ROW_KIND);
    if !(value::KIND_CLAIM..=value::KIND_PARCEL).contains(&kind) {
        return top;
    }
    let count = layout::row_word(s, sh, x, field::ROW_LENGTH);
    let n = count.min(size::BATCH_MAX);
    note_items(s, sh, x, n, top)
}

// The same of the rows in use.
pub fn note_rows(s: &mut [u64], sh: Shape, top: u64) -> u64
    ensures noted { s.new ≡ shifted s.old sh unit (in_book (loadAt s.old sh) sh) }
    ensures reached { result ≡ top_of sh.objects top (in_book (loadAt s.old sh) sh) }
{
    let used = layout::root_word(s, sh, field::ROOT_USED_ROWS);
    let n = used.min(sh.rows as u64);
    let mut t = top;
    for i in 0..n {
        let x = layout::index_word(s, sh, i);
        t = note_row(s, sh, x, t);
    }
    t
}

// Leaves the lower half of the count of object o. Whether the upper half was equal.
#[tactic(auto, using(crate::specs::Shift::active_load, crate::specs::Shift::active_save, layout::specs::Layout::save_load), unfolding(crate::specs::Halves::lower_w))]
fn settle_one(s: &mut [u64], sh: Shape, first: u64, o: u64) -> bool
    requires first_value { (first ≡ objects_at sh) × (o < sh.objects) }
    requires sh_in_bounds { total sh ≤ length s.old }
    ensures words { s.new ≡ lower_w s.old sh o }
    ensures answer { result ≡ half_b (loadAt s.old sh (object o object_active)) }
{
    let at = (first + o * size::OBJECT_SIZE + field::OBJECT_ACTIVE) as usize;
    let c = s[at];
    if c == 0 {
        return true;
    }
    let low = c % UNIT;
    s[at] = low;
    low == c / UNIT
}

// Leaves the lower half of the count of each of the first n objects. Whether every upper half was equal.
#[tactic(auto, using(crate::specs::Halves::lowered_later), unfolding(crate::specs::Halves::lowered, words::specs::All::all))]
pub fn settle(s: &mut [u64], sh: Shape, n: u64) -> bool
    requires { (total sh ≤ length s.old) × (n ≤ sh.objects) }
    ensures words { s.new ≡ lowered s.old sh n }
    ensures answer { result ≡ halves_to (loadAt s.old sh) n }
{
    let first = layout::region_of(sh, layout::region::REGION_OBJECT).low;
    let mut equal = true;
    for o in 0..n {
        equal &= settle_one(s, sh, first, o);
    }
    equal
}
