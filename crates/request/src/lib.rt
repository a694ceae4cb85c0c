// Reads a list of requests in place, from lent words: document 01, "The request list". A record's place is the index of its bit map.
#![tactic(auto)]

ghost use Rattle.std.specs.Prelude.{◌≡◌, ◌+◌, ◌*◌, ◌%◌, ◌^◌, ◌<◌, ◌≤◌, ◌&&◌, length, get_or, drop, set, ltb};
ghost use Rattle.std.specs.Int.Count.{ones};
ghost use Rattle.format.specs.Format.{answer_words, field_count};
ghost use Rattle.format.specs.Kinds.{kind_number};
ghost use Rattle.model.specs.Base.{is_some};
ghost use Rattle.model.specs.Words.{odd, may, must, read_request, read_list};
ghost use Rattle.request.specs.Place.{next_of, placed, listed, optional, fields_from, fields_at, fields_of, has_map, words_by, end_at, kinds_of, fit_one, narrow_fit, walk, good_map, record_end, many_end, items_end, here, place_of, next_at};
ghost use Rattle.request.specs.Answers.{cleared};

use format::field::FieldKind;

// A record of a list of requests: the list's words, and the record's place in them.
#[derive(Clone, Copy)]
pub struct Record<'a> {
    pub words: &'a [u64],
    pub at: usize,
}

// The fields of a record: the list's words, the place of the first field in them, and the record's bit map. `Record` has `field` and `fields` too, each of one line or loop over its own `find`: a trait for
// both would be longer.
#[derive(Clone, Copy)]
struct FieldWords<'a> {
    words: &'a [u64],
    at: usize,
    map: u64,
    ghost inside: { at ≤ length words.now },
}

// Whether the lowest bit of a map stands.
fn lowest(map: u64) -> bool
    ensures { result ≡ odd map }
{
    map % 2 == 1
}

// How many fields of a map stand below a bit.
fn below(map: u64, bit: u64) -> usize
    requires { bit < 64 }
    ensures { result ≡ ones (map % 2 ^ bit) }
{
    (map % (1 << bit)).count_ones() as usize
}

// The map of the fields that do not take every word, bit 0 apart.
const NARROW: u64 = 1 << format::field::FIELD_FLAGS
    | 1 << format::field::FIELD_KIND
    | 1 << format::field::FIELD_KOID
    | 1 << format::field::FIELD_ROUTE
    | 1 << format::field::FIELD_OFFERED_KIND
    | 1 << format::field::FIELD_EXPECTED_KIND
    | 1 << format::field::FIELD_FORBIDDEN_OBJECT
    | 1 << format::field::FIELD_FORBIDDEN_KIND;

impl<'a> FieldWords<'a> {
    // The word at a place, where the lowest bit of a map stands.
    fn word_of(self, map: u64, at: usize) -> Option<u64>
        ensures { result ≡ optional (here (odd map) self.entry.words.now at) }
    {
        lowest(map).then(|| words::word(self.words, at))
    }

    // A field by its bit.
    #[tactic(auto, using(crate::specs::Counted::may_at, crate::specs::Counted::may_past))]
    fn find(self, bit: u64) -> Option<u64>
        ensures { result ≡ optional (may (fields_from field_count self.entry.map self.entry.words.now self.entry.at) bit) }
    {
        if bit >= format::field::FIELDS {
            return None;
        }
        self.word_of(self.map >> bit, self.at + below(self.map, bit))
    }

    // A field's word by its bit; 0 where it does not stand.
    fn field(self, bit: u64) -> u64
        ensures { result ≡ must (fields_from field_count self.entry.map self.entry.words.now self.entry.at) bit }
    {
        self.find(bit).unwrap_or(0)
    }

    // Fields by their bits, 0 for one that does not stand.
    #[tactic(auto, using(crate::specs::Counted::words_more))]
    fn fields<const N: usize>(self, bits: [u64; N]) -> [u64; N]
        ensures { result ≡ words_by (fields_from field_count self.entry.map self.entry.words.now self.entry.at) bits.entry }
    {
        let mut words = bits;
        for word in &mut words {
            *word = self.field(*word);
        }
        words
    }

    // "too wide or a koid of 0": whether the field of a bit, where it stands, fits a kind.
    #[tactic(auto, unfolding(crate::specs::Place::fit_one))]
    fn fit_one(self, bit: u64, kind: FieldKind) -> bool
        ensures { result ≡ fit_one (kind_number kind) (may (fields_from field_count self.entry.map self.entry.words.now self.entry.at) bit) }
    {
        self.find(bit).is_none_or(|w| kind.takes(w))
    }

    // Whether those fields fit that do not take every word, bit 0 apart, one after the other.
    #[tactic(auto, unfolding(crate::specs::Place::narrow_fit))]
    fn each_fits(self) -> bool
        ensures { result ≡ narrow_fit (fields_from field_count self.entry.map self.entry.words.now self.entry.at) }
    {
        let fits = |bit: u64, kind: FieldKind| self.fit_one(bit, kind);
        fits(format::field::FIELD_FLAGS, FieldKind::Number32)
            && fits(format::field::FIELD_KIND, FieldKind::Number32)
            && fits(format::field::FIELD_KOID, FieldKind::Koid)
            && fits(format::field::FIELD_ROUTE, FieldKind::Route)
            && fits(format::field::FIELD_OFFERED_KIND, FieldKind::Number32)
            && fits(format::field::FIELD_EXPECTED_KIND, FieldKind::Number32)
            && fits(format::field::FIELD_FORBIDDEN_OBJECT, FieldKind::Koid)
            && fits(format::field::FIELD_FORBIDDEN_KIND, FieldKind::Number32)
    }

    // Whether those fields fit that do not take every word, bit 0 apart: most maps have none of them.
    #[tactic(auto, using(crate::specs::Counted::none_narrow))]
    fn narrow_fit(self) -> bool
        ensures { result ≡ narrow_fit (fields_from field_count self.entry.map self.entry.words.now self.entry.at) }
    {
        self.map & NARROW == 0 || self.each_fits()
    }

    // "list ends inside a record"; "too wide or a koid of 0": the place after the fields; `first` is the number of the kind of bit 0's word.
    #[tactic(auto, unfolding(crate::specs::Place::fit_one), using(crate::specs::Counted::walk_is))]
    fn end(self, first: u64) -> Option<usize>
        ensures { result ≡ next_of (walk (kinds_of first) self.entry.words.now self.entry.map self.entry.at) }
    {
        let count = below(self.map, format::field::FIELDS);
        let fits = count <= self.words.len() - self.at
            && self
                .find(format::field::FIELD_OP)
                .is_none_or(|w| format::fits(first, w))
            && self.narrow_fit();
        fits.then_some(self.at + count)
    }
}

// (must, allowed) stay two: each call gives two maps of format's, and a struct of them would be made for that one call.
// "Bit 0 .. always stands"; "field missing, extra".
#[tactic(auto, unfolding(crate::specs::Place::good_map))]
fn map_ok(map: u64, must: u64, allowed: u64) -> bool
    ensures { result ≡ good_map map must allowed }
{
    lowest(map) && authority::contains(map, must) && authority::contains(allowed, map)
}

impl<'a> Record<'a> {
    // A field by its bit.
    #[tactic(auto, unfolding(crate::specs::Place::fields_at), using(crate::specs::Fields::find_out))]
    pub fn find(&self, bit: u64) -> Option<u64>
        ensures { result ≡ optional (may (fields_of self.now) bit) }
    {
        let map = *self.words.get(self.at)?;
        let fields = FieldWords {
            words: self.words,
            at: self.at + 1,
            map,
        };
        fields.find(bit)
    }

    // Whether a field stands.
    pub fn has(&self, bit: u64) -> bool
        ensures { result ≡ is_some (may (fields_of self.now) bit) }
    {
        self.find(bit).is_some()
    }

    // A field's word; 0 where it does not stand.
    pub fn field(&self, bit: u64) -> u64
        ensures { result ≡ must (fields_of self.now) bit }
    {
        self.find(bit).unwrap_or(0)
    }

    // Whether it has that map.
    #[tactic(auto, unfolding(crate::specs::Place::has_map))]
    pub fn has_map(&self, map: u64) -> bool
        ensures { result ≡ has_map self.now.words.now self.now.at map }
    {
        self.words.get(self.at) == Some(&map)
    }

    // Fields found one by one. A loop, since `map` of an array asks for a bound on `N`.
    #[cold]
    #[inline(never)]
    #[tactic(auto, using(crate::specs::Counted::words_more))]
    fn fields_found<const N: usize>(&self, bits: [u64; N]) -> [u64; N]
        ensures { result ≡ words_by (fields_of self.now) bits.entry }
    {
        let mut words = bits;
        for word in &mut words {
            *word = self.field(*word);
        }
        words
    }

    // Fields by their bits, 0 for one that does not stand. Where the map is the op's `must` map, their places are known from the op and the bits alone. Compiled in place: as a function of its
    // own, which is given the bits as an array in memory, a replace took 499 instructions in place of 425.
    #[inline(always)]
    #[tactic(auto, unfolding(crate::specs::Place::has_map, crate::specs::Place::fields_at))]
    pub fn fields<const N: usize>(&self, op: u64, bits: [u64; N]) -> [u64; N]
        ensures { result ≡ words_by (fields_of self.now) bits.entry }
    {
        let map = format::must(op);
        if self.has_map(map) {
            let known = FieldWords {
                words: self.words,
                at: self.at + 1,
                map,
            };
            return known.fields(bits);
        }
        self.fields_found(bits)
    }

    // The place after it; a place past the end stays.
    #[tactic(auto, unfolding(crate::specs::Place::end_at), using(crate::specs::Counted::after_ones))]
    pub fn end(&self) -> usize
        ensures { result ≡ end_at self.now.words.now self.now.at }
    {
        match self.words.get(self.at) {
            Some(map) => self.at + 1 + below(*map, format::field::FIELDS),
            None => self.at,
        }
    }

    // The place after it and the records that follow, `count` in all; a place past the end stays.
    #[tactic(auto, unfolding(crate::specs::Place::place_of), using(crate::specs::Laws::place_next, crate::specs::Lists::place_out))]
    pub fn records_end(&self, count: u64) -> usize
        ensures { result ≡ place_of count self.now.words.now self.now.at }
    {
        let mut record = *self;
        for _i in 0..count {
            if record.words.len() <= record.at {
                return record.at;
            }
            record.at = record.end();
        }
        record.at
    }

    // The place after the request, which is known to be well formed.
    #[tactic(auto, unfolding(crate::specs::Place::next_at))]
    pub fn next_request(&self) -> usize
        ensures { result ≡ next_at self.now.words.now self.now.at }
    {
        let op = self.field(format::field::FIELD_OP);
        let end = self.end();
        if matches!(
            op,
            format::op::OP_PUBLISH | format::op::OP_PREPARE_TRANSFER | format::op::OP_JUDGE_TRANSFER
        ) {
            let items = Record { at: end, ..*self };
            return items.records_end(self.field(format::field::FIELD_COUNT));
        }
        end
    }

    // Checks the record, which must carry the fields `must` and no others than `allowed`; `first` is the number of the kind of bit 0's word.
    #[tactic(auto, unfolding(crate::specs::Place::record_end))]
    pub fn record_ok(&self, first: u64, must: u64, allowed: u64) -> Option<usize>
        ensures { result ≡ next_of (record_end first must allowed self.now.words.now self.now.at) }
    {
        let map = *self.words.get(self.at)?;
        if !map_ok(map, must, allowed) {
            return None;
        }
        let fields = FieldWords {
            words: self.words,
            at: self.at + 1,
            map,
        };
        fields.end(first)
    }

    // Checks `count` records in a row, of which it is the first; it stops where the list ends.
    #[tactic(auto, unfolding(crate::specs::Place::many_end), using(crate::specs::Lists::many_more, crate::specs::Lists::many_stops))]
    pub fn records_ok(&self, count: u64, first: u64, must: u64, allowed: u64) -> Option<usize>
        ensures { result ≡ next_of (many_end first must allowed count self.now.words.now self.now.at) }
    {
        let mut record = *self;
        for _i in 0..count {
            record.at = record.record_ok(first, must, allowed)?;
        }
        Some(record.at)
    }

    // "A transfer's items, or a publish's parcels, follow as records of their own, as many as its count field says": those of an op, of which it is the first.
    #[tactic(auto, unfolding(crate::specs::Place::items_end))]
    fn items_ok(&self, op: u64, count: u64) -> Option<usize>
        ensures { result ≡ next_of (items_end op count self.now.words.now self.now.at) }
    {
        match op {
            format::op::OP_PUBLISH => self.records_ok(
                count,
                format::field::KIND_ZERO,
                format::maps::PARCEL_ITEM_MUST,
                format::maps::PARCEL_ITEM_MUST + format::maps::PARCEL_ITEM_MAY,
            ),
            format::op::OP_PREPARE_TRANSFER | format::op::OP_JUDGE_TRANSFER => self.records_ok(
                count,
                format::field::KIND_OPERATION,
                format::maps::TRANSFER_ITEM_MUST,
                format::maps::TRANSFER_ITEM_MUST + format::maps::TRANSFER_ITEM_MAY,
            ),
            _ => Some(self.at),
        }
    }

    // Checks the request, with its items, and gives the place after it.
    #[tactic(auto, using(crate::specs::Lists::request_bad, crate::specs::Lists::request_goes, format::proofs::Laws::must_below, format::proofs::Laws::may_below))]
    pub fn request_ok(&self) -> Option<usize>
        ensures { result ≡ placed self.now.words.now (read_request (drop self.now.at self.now.words.now)) }
    {
        let op = self.field(format::field::FIELD_OP);
        let must = format::must(op);
        let may = format::may(op);
        let end = self.record_ok(format::field::KIND_OP, must, must + may)?;
        let count = self.field(format::field::FIELD_COUNT);
        Record { at: end, ..*self }.items_ok(op, count)
    }
}

// "Order: .. list 19": how many requests a list has. "An empty list is accepted."
#[tactic(auto, using(crate::specs::Lists::count_all, crate::specs::Lists::count_turn, crate::specs::Lists::count_bad, crate::specs::Lists::count_end, crate::specs::Lists::place_rises))]
pub fn list_ok(rq: &[u64]) -> Option<u64>
    ensures { result ≡ listed (read_list rq.now) }
{
    let mut record = Record { words: rq, at: 0 };
    let mut count: u64 = 0;
    // A `while`: it goes from place to place, and no range or iterator has these places.
    while record.at < rq.len() {
        record.at = record.request_ok()?;
        count += 1;
    }
    Some(count)
}

// "AnswerShort: fewer than 72 words a request".
pub fn answers_short(out: &[u64], count: u64) -> bool
    ensures { result ≡ ltb (length out.now) (answer_words * count) }
{
    ((out.len() / format::size::ANSWER_PLACES) as u64) < count
}

// Puts a word of the answer whose words begin at `base`; nothing past the end.
pub fn answer_put(out: &mut [u64], base: usize, i: usize, v: u64)
    ensures { out.new ≡ set out.old (base + i) v }
{
    if base < out.len() && i < out.len() - base {
        out[base + i] = v;
    }
}

// "Each request answers 72 words, unused ones 0": clears those that are there.
#[tactic(auto, using(crate::specs::Answers::fill_is, crate::specs::Answers::cleared_out))]
pub fn clear_answer(out: &mut [u64], base: usize)
    ensures { out.new ≡ cleared out.old base answer_words }
{
    if base >= out.len() {
        return;
    }
    // Two fills: one fill, up to a computed end, was slower, since the compiler then does not know how many words it has.
    if out.len() - base < format::size::ANSWER_PLACES {
        out[base..].fill(0);
    } else {
        out[base..base + format::size::ANSWER_PLACES].fill(0);
    }
}
