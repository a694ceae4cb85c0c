// The walk of the state check over tables, pages and slots. Each page is gone over once: a slot is tested and, if it holds a handle, the handle is counted in
// the upper half of its object's count. A page's walk ends at a slot that fails; the walk goes on with the next page either way.
// A handle must be of one of the first `used` objects, those up to the last that has a count: no other can have one.
#![tactic(auto)]

ghost use Rattle.std.specs.Prelude.{◌≡◌, ◌+◌, ◌*◌, ◌≤◌, ◌<◌, length};
ghost use Rattle.layout.specs.Layout.{total, load as loadAt};
ghost use Rattle.layout.specs.Cells.{cell_at};
ghost use Rattle.layout.specs.Sizes.{page_size};
ghost use Rattle.counts.specs.Found.{gather};
ghost use Rattle.counts.specs.Shift.{unit, shifted};
ghost use Rattle.survey.specs.Code.{Onward, Other};
ghost use Rattle.survey.specs.Walk.{cell_b, frame_b, frame_found, page_b, page_found, table_b, table_found, survey_b};

mod page;

use layout::{CellWords, Shape, field, place, size, value};
use page::Page;

impl Page {
    // Slot j, in words that hold the whole state: no test of bounds.
    #[tactic(auto, using(crate::specs::Code::cell_is))]
    fn cell(self, s: &[u64], j: u64) -> CellWords
        requires j_lt_page_size { j < page_size }
        requires sh_in_bounds { total self.sh ≤ length s.now }
        ensures { result ≡ cell_at (loadAt s.now self.sh) self.frame j }
    {
        let e = layout::region_of(self.sh, layout::region::REGION_CELL);
        let at = (e.low + (self.frame * size::PAGE_SIZE + j) * size::SLOT_SIZE) as usize;
        CellWords {
            tag: s[at],
            generation: s[at + place::SLOT_GENERATION],
            object: s[at + place::SLOT_OBJECT],
            rights: s[at + place::SLOT_RIGHTS],
            flags: s[at + place::SLOT_FLAGS],
            unused: s[at + place::SLOT_UNUSED],
        }
    }

    // Slot j by its words: its handle's object is below the bound, a mark is an item of the row that it names.
    #[tactic(auto, unfolding(crate::specs::Walk::cell_b), using(std::proofs::lemmas::Bool::Decides::nat_tests))]
    fn slot_ok(self, s: &[u64], j: u64, c: CellWords) -> bool
        requires j_lt_page_size { j < page_size }
        ensures { result ≡ cell_b (loadAt s.now self.sh) self.sh self.table (self.number * page_size + j) self.bound self.high c }
    {
        let k = (self.number as u64) * size::PAGE_SIZE + j;
        structure::slot_ok(c, self.bound, self.high)
            && (c.tag == value::TAG_VACANT
                || c.tag >= value::TAG_OCCUPIED
                || ledger::mark_ok(s, self.sh, self.table, k, c.tag, c.object, c.rights))
    }

    // Counts the handles of the slots from `from` on that are occupied and right. The first slot that is not, n where all are.
    // A loop by hand and a number for its result: with `for`, or with an `Option`, the compiled loop is longer, and the check of 64 pages takes 13 of 100 longer (docs/performance.md, "Since the design pass").
    #[tactic(auto, unfolding(structure::specs::Checks::slot_c, structure::specs::Checks::handle_c), using(crate::specs::Code::onward_none, crate::specs::Code::onward_more, std::proofs::lemmas::Bool::Decides::nat_tests))]
    fn next_other(self, s: &mut [u64], from: u64, n: u64) -> u64
        requires n_le_page_size { (n ≤ page_size) × (from ≤ n) }
        requires sh_in_bounds { total self.sh ≤ length s.old }
        ensures noted { Onward s.old s.new self from result }
        ensures within { (from ≤ result) × (result ≤ n) }
        ensures other { result < n → Other self (cell_at (loadAt s.new self.sh) self.frame result) }
    {
        let mut j = from;
        while j < n {
            let c = self.cell(s, j);
            if c.tag != value::TAG_OCCUPIED || !structure::slot_ok(c, self.bound, self.high) {
                return j;
            }
            counts::note_handle(s, self.sh, c.object);
            j += 1;
        }
        j
    }

    // The first n slots: whether each is right and `busy` of them are busy. Most are occupied, and have a loop of their own: with one loop over all slots, in five forms, the check of 64 pages takes 12 of 100 longer or more.
    // So the outer loop goes from one other slot to the next, which are no range's.
    #[tactic(auto, using(crate::specs::Code::passed_none, crate::specs::Code::end_noted, crate::specs::Code::end_answer, crate::specs::Code::stop_noted, crate::specs::Code::stop_answer, crate::specs::Code::other_more))]
    fn walk(self, s: &mut [u64], n: u64, busy: u64) -> bool
        requires n_le_page_size { n ≤ page_size }
        requires sh_in_bounds { total self.sh ≤ length s.old }
        ensures noted { s.new ≡ shifted s.old self.sh unit (frame_found (loadAt s.old self.sh) self.sh self.table self.number self.bound self.high self.frame n) }
        ensures answer { result ≡ frame_b (loadAt s.old self.sh) self.sh self.table self.number self.bound self.high self.frame n busy }
    {
        let mut vacant: u64 = 0;
        let mut from: u64 = 0;
        loop {
            let k = self.next_other(s, from, n);
            if k == n {
                return n - vacant == busy;
            }
            let c = self.cell(s, k);
            if !self.slot_ok(s, k, c) {
                return false;
            }
            vacant += u64::from(c.tag == value::TAG_VACANT);
            from = k + 1;
        }
    }
}

// Page p of table b, whose first entry is e. That the words hold the whole state stands in the contracts of six functions: the words are lent to be written, and a struct of them and the shape would
// need two clauses more in each, as `layout::Shape` says.
#[tactic(auto, unfolding(crate::specs::Walk::page_b, crate::specs::Walk::page_found))]
fn walk_page(s: &mut [u64], sh: Shape, b: u64, bound: u64, e: u64, p: u32) -> bool
    requires bound_le_objects { bound ≤ sh.objects }
    requires sh_in_bounds { total sh ≤ length s.old }
    ensures noted { s.new ≡ shifted s.old sh unit (page_found (loadAt s.old sh) sh b bound e p) }
    ensures answer { result ≡ page_b (loadAt s.old sh) sh b bound e p }
{
    let q = p as u64;
    let link = storage::page_word(s, sh, e, q, field::ENTRY_FRAME);
    let Some(frame) = link.checked_sub(1) else {
        return true;
    };
    if frame >= sh.frames as u64 {
        return false;
    }
    let high = storage::page_word(s, sh, e, q, field::ENTRY_HIGH);
    let busy = storage::page_word(s, sh, e, q, field::ENTRY_BUSY);
    let n = head::slots_of(q) as u64;
    let page = Page {
        table: b,
        number: p,
        bound,
        high,
        frame,
        sh,
    };
    page.walk(s, n, busy)
}

// The pages of table b.
#[tactic(auto, unfolding(crate::specs::Walk::table_b, crate::specs::Walk::table_found, words::specs::All::all), using(crate::specs::Code::page_noted, crate::specs::Code::page_right))]
fn walk_table(s: &mut [u64], sh: Shape, used: u64, b: u64) -> bool
    requires used_le_objects { used ≤ sh.objects }
    requires sh_in_bounds { total sh ≤ length s.old }
    ensures noted { s.new ≡ shifted s.old sh unit (table_found (loadAt s.old sh) sh used b) }
    ensures answer { result ≡ table_b (loadAt s.old sh) sh used b }
{
    let life = layout::head_word(s, sh, b, field::HEAD_LIFECYCLE);
    let size = layout::head_word(s, sh, b, field::HEAD_PAGES);
    let e = layout::head_word(s, sh, b, field::HEAD_FIRST_ENTRY);
    let bound = structure::bound_of(used, life);
    let n = size.min(sh.pages as u64);
    let mut ok = true;
    for p in 0..n as u32 {
        let page = walk_page(s, sh, b, bound, e, p);
        ok &= page;
    }
    ok
}

// Whether the slots of every page are as a well-formed state's must be. Leaves every handle of a slot counted, of a page with a fault those before it.
#[tactic(auto, unfolding(crate::specs::Walk::survey_b, words::specs::All::all), using(crate::specs::Code::table_noted, crate::specs::Code::table_right))]
pub fn walk_slots(s: &mut [u64], sh: Shape, used: u64) -> bool
    requires used_le_objects { used ≤ sh.objects }
    requires sh_in_bounds { total sh ≤ length s.old }
    ensures noted { s.new ≡ shifted s.old sh unit (gather sh.tables (table_found (loadAt s.old sh) sh used)) }
    ensures answer { result ≡ survey_b (loadAt s.old sh) sh used }
{
    let mut ok = true;
    for b in 0..sh.tables as u64 {
        let table = walk_table(s, sh, used, b);
        ok &= table;
    }
    ok
}
