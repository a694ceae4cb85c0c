// The part of the state check for the book: the row index and the rows in use, with the frames that plans hold; and the test of a mark, for the walk over the slots.
#![tactic(auto)]

ghost use Rattle.std.specs.Prelude.{◌≡◌, ◌≤◌, ◌<◌};
ghost use Rattle.words.specs.All.{all};
ghost use Rattle.layout.specs.Layout.{load as loadAt, item as item_at};
ghost use Rattle.structure.specs.Code.{counted, plus_one};
ghost use Rattle.ledger.specs.Items.{place_b, names_b, handle_b, claim_b, item_b};
ghost use Rattle.ledger.specs.Plans.{held_b, pages_b, plan_b, held_in, held_to, held_frames};
ghost use Rattle.ledger.specs.Ledger.{open_b, list_b, row_b, rank_b, hit_b, mark_b, book_b};

use layout::{Shape, field, size, value};

// An item of a row: the place of the row, and the item's number there.
#[derive(Clone, Copy)]
struct Item {
    row: u64,
    number: u64,
}

impl Item {
    // Its word f.
    fn word(self, s: &[u64], sh: Shape, f: u64) -> u64
        ensures { result ≡ loadAt s.now sh (item_at self.row self.number f) }
    {
        layout::item_word(s, sh, self.row, self.number, f)
    }

    // Whether slot k of table b has the tag t and names the item. (k, t) stay two: the tag is a constant at each call.
    #[tactic(auto, unfolding(crate::specs::Items::names_b))]
    fn is_named(self, s: &[u64], sh: Shape, b: u64, k: u64, t: u64) -> bool
        ensures { result ≡ names_b (loadAt s.now sh) b k t self.row self.number }
    {
        let Some(f) = storage::frame_link(s, sh, b, k).checked_sub(1) else {
            return false;
        };
        let q = k % size::PAGE_SIZE;
        layout::cell_word(s, sh, f, q, field::SLOT_TAG) == t
            && layout::cell_word(s, sh, f, q, field::SLOT_PLACE) == self.row
            && layout::cell_word(s, sh, f, q, field::SLOT_POSITION) == self.number
    }

    // Whether its handle is in range. Compiled in place: as a call the check of 240 parcels of 64 handles took three times as many instructions.
    #[inline(always)]
    #[tactic(auto, unfolding(crate::specs::Items::handle_b))]
    fn handle_ok(self, s: &[u64], sh: Shape) -> bool
        ensures { result ≡ handle_b (loadAt s.now sh) sh self.row self.number }
    {
        self.word(s, sh, field::ITEM_OBJECT) < sh.objects as u64
            && self.word(s, sh, field::ITEM_FLAGS) <= value::KNOWN_FLAGS
    }

    // Of a claim of table b.
    #[tactic(auto, unfolding(crate::specs::Items::claim_b))]
    fn claim_ok(self, s: &[u64], sh: Shape, b: u64) -> bool
        ensures { result ≡ claim_b (loadAt s.now sh) sh b self.row self.number }
    {
        if !self.handle_ok(s, sh) {
            return false;
        }
        match self.word(s, sh, field::ITEM_OPERATION) {
            value::OPERATION_MOVE => {
                let k = self.word(s, sh, field::ITEM_MOVED);
                self.is_named(s, sh, b, k, value::TAG_TRANSFER_RESERVED)
            }
            op => op == value::OPERATION_COPY,
        }
    }

    // Of a row that is a w and no plan: 1 a reservation, 2 a claim, else a parcel.
    #[tactic(auto, unfolding(crate::specs::Items::item_b))]
    fn item_ok(self, s: &[u64], sh: Shape, w: u64, b: u64) -> bool
        ensures { result ≡ item_b (loadAt s.now sh) sh w b self.row self.number }
    {
        match w {
            value::KIND_RESERVATION => {
                let k = self.word(s, sh, field::ITEM_SLOT);
                self.is_named(s, sh, b, k, value::TAG_RESERVED)
            }
            value::KIND_CLAIM => self.claim_ok(s, sh, b),
            _ => self.handle_ok(s, sh),
        }
    }

    // Of a plan: slots are still wanted, a table may have its page, and its frame is not below `low` and names this row as its owner.
    #[tactic(auto, unfolding(crate::specs::Plans::held_b))]
    fn held_ok(self, s: &[u64], sh: Shape, want: u64, low: u64) -> bool
        ensures { result ≡ held_b (loadAt s.now sh) sh self.row self.number want low }
    {
        let p = self.word(s, sh, field::ITEM_PAGE);
        let f = self.word(s, sh, field::ITEM_FRAME);
        want > 0
            && p < size::PAGES_MAX
            && (low..sh.frames as u64).contains(&f)
            && layout::owner_word(s, sh, f).checked_sub(size::PLAN_OWNER) == Some(self.row)
    }

    // Whether it names slot k, by the slot's tag t: a reservation's item in word 0, a claim's as a move.
    #[tactic(auto, unfolding(crate::specs::Ledger::hit_b))]
    fn hits(self, s: &[u64], sh: Shape, t: u64, k: u64) -> bool
        ensures { result ≡ hit_b (loadAt s.now sh) t self.row self.number k }
    {
        // The same word as ITEM_SLOT, of a reservation.
        let a = self.word(s, sh, field::ITEM_OPERATION);
        if t == value::TAG_RESERVED {
            k == a
        } else {
            a == value::OPERATION_MOVE && k == self.word(s, sh, field::ITEM_MOVED)
        }
    }
}

// Whether rank i of the index names a place, and the place knows its rank.
#[tactic(auto, unfolding(crate::specs::Items::place_b))]
fn place_ok(s: &[u64], sh: Shape, i: u64) -> bool
    ensures { result ≡ place_b (loadAt s.now sh) sh i }
{
    let x = layout::index_word(s, sh, i);
    x < sh.rows as u64 && layout::rank_word(s, sh, x) == i
}

fn places_ok(s: &[u64], sh: Shape) -> bool
    ensures { result ≡ all sh.rows (place_b (loadAt s.now sh) sh) }
{
    (0..sh.rows as u64).all(|i| place_ok(s, sh, i))
}

// Whether a row that is a w and no plan may name table b: it is there, and active. A parcel names none.
#[tactic(auto, unfolding(crate::specs::Ledger::open_b))]
fn open_ok(s: &[u64], sh: Shape, w: u64, b: u64) -> bool
    ensures { result ≡ open_b (loadAt s.now sh) sh w b }
{
    w == value::KIND_PARCEL
        || (b < sh.tables as u64
            && layout::head_word(s, sh, b, field::HEAD_LIFECYCLE) == value::LIFE_ACTIVE)
}

// The n entries of the row in place x, which is a w and no plan.
#[tactic(auto, unfolding(crate::specs::Ledger::list_b))]
fn list_ok(s: &[u64], sh: Shape, x: u64, w: u64, n: u64) -> bool
    ensures { result ≡ list_b (loadAt s.now sh) sh x w n }
{
    let b = layout::row_word(s, sh, x, field::ROW_TABLE);
    n > 0 && open_ok(s, sh, w, b) && (0..n).all(|j| Item { row: x, number: j }.item_ok(s, sh, w, b))
}

// The n pages and frames of the plan in place x: the pages are just enough for the slots that are wanted beside the free ones, and the frames rise.
#[tactic(auto, unfolding(words::specs::All::all), using(crate::specs::Code::pages_stop, crate::specs::Code::item_held, crate::specs::Code::want_next, crate::specs::Code::low_next, words::specs::All::all_more, crate::specs::Plans::held_is))]
fn pages_ok(s: &[u64], sh: Shape, x: u64, n: u64) -> bool
    ensures { result ≡ pages_b (loadAt s.now sh) sh x n }
{
    let count = layout::row_word(s, sh, x, field::ROW_COUNT);
    let free = layout::item_word(s, sh, x, 0, field::ITEM_FREE_SLOTS);
    let mut want = count.saturating_sub(free);
    let mut low: u64 = 0;
    for j in 0..n {
        let item = Item { row: x, number: j };
        if !item.held_ok(s, sh, want, low) {
            return false;
        }
        let p = item.word(s, sh, field::ITEM_PAGE);
        let f = item.word(s, sh, field::ITEM_FRAME);
        want = want.saturating_sub(head::slots_of(p) as u64);
        low = f + 1;
    }
    want == 0
}

// The plan in place x, with n pages and frames. Its table need not be active, and its kept epoch may be any word.
#[tactic(auto, unfolding(crate::specs::Plans::plan_b))]
fn plan_ok(s: &[u64], sh: Shape, x: u64, n: u64) -> bool
    ensures { result ≡ plan_b (loadAt s.now sh) sh x n }
{
    let b = layout::row_word(s, sh, x, field::ROW_TABLE);
    let count = layout::row_word(s, sh, x, field::ROW_COUNT);
    let free = layout::item_word(s, sh, x, 0, field::ITEM_FREE_SLOTS);
    b < sh.tables as u64
        && (1..=size::BATCH_MAX).contains(&count)
        && free <= size::SLOTS_MAX
        && pages_ok(s, sh, x, n)
}

// The row in place x, whose id must be above `last`.
#[tactic(auto, unfolding(crate::specs::Ledger::row_b, crate::specs::Ledger::body_b))]
fn row_ok(s: &[u64], sh: Shape, x: u64, last: u64) -> bool
    ensures { result ≡ row_b (loadAt s.now sh) sh x last }
{
    let id = layout::row_word(s, sh, x, field::ROW_ID);
    let next = layout::root_word(s, sh, field::ROOT_NEXT_ID);
    let w = layout::row_word(s, sh, x, field::ROW_KIND);
    let n = layout::row_word(s, sh, x, field::ROW_LENGTH);
    if id <= last || id >= next || n > size::BATCH_MAX {
        return false;
    }
    match w {
        value::KIND_RESERVATION..=value::KIND_PARCEL => list_ok(s, sh, x, w, n),
        value::KIND_PLAN => plan_ok(s, sh, x, n),
        _ => false,
    }
}

// How many frames the row in place x holds: a plan holds one for each of its pages.
fn held_in(s: &[u64], sh: Shape, x: u64) -> u64
    ensures { result ≡ held_in (loadAt s.now sh) x }
{
    match layout::row_word(s, sh, x, field::ROW_KIND) {
        value::KIND_PLAN => layout::row_word(s, sh, x, field::ROW_LENGTH),
        _ => 0,
    }
}

// How many frames the first n rows in use hold, by rank; none if a row is not as it must be.
#[tactic(auto, unfolding(words::specs::All::all), using(crate::specs::Code::rank_is, crate::specs::Code::held_few, crate::specs::Code::rows_stop, crate::specs::Code::before_next, words::specs::All::all_more, structure::specs::Code::sum_more, std::proofs::lemmas::Bool::Decides::nat_tests))]
fn rows_ok(s: &[u64], sh: Shape, n: u16) -> Option<u64>
    ensures { plus_one result ≡ counted (all n (rank_b (loadAt s.now sh) sh)) (held_to (loadAt s.now sh) n) }
{
    let mut held: u64 = 0;
    let mut last: u64 = 0;
    for i in 0..n {
        let x = layout::index_word(s, sh, i as u64);
        if !row_ok(s, sh, x, last) {
            return None;
        }
        held += held_in(s, sh, x);
        last = layout::row_word(s, sh, x, field::ROW_ID);
    }
    Some(held)
}

// Whether slot k of table b, which has the tag t, is item j of the row in place x.
// Its row and item stay two numbers: survey has them as words of a slot, and would make an `Item` for this one call.
#[tactic(auto, unfolding(crate::specs::Ledger::mark_b))]
pub fn mark_ok(s: &[u64], sh: Shape, b: u64, k: u64, t: u64, x: u64, j: u64) -> bool
    ensures { result ≡ mark_b (loadAt s.now sh) sh b k t x j }
{
    x < sh.rows as u64
        && layout::rank_word(s, sh, x) < layout::root_word(s, sh, field::ROOT_USED_ROWS)
        && j < layout::row_word(s, sh, x, field::ROW_LENGTH)
        && layout::row_word(s, sh, x, field::ROW_KIND) == t
        && layout::row_word(s, sh, x, field::ROW_TABLE) == b
        && Item { row: x, number: j }.hits(s, sh, t, k)
}

// How many frames plans hold; none if the book of a state, its marks aside, is not as a well-formed state's must be.
#[tactic(auto, unfolding(crate::specs::Ledger::book_b))]
pub fn check_book(s: &[u64], sh: Shape) -> Option<u64>
    ensures { plus_one result ≡ counted (book_b (loadAt s.now sh) sh) (held_frames (loadAt s.now sh)) }
{
    let used = layout::root_word(s, sh, field::ROOT_USED_ROWS);
    let next = layout::root_word(s, sh, field::ROOT_NEXT_ID);
    if used > sh.rows as u64 || next == 0 || !places_ok(s, sh) {
        return None;
    }
    rows_ok(s, sh, used as u16)
}
