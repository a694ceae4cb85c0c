// Growth of a table: pages are attached in free frames, as many as a batch of slots needs. The pages that a table gets next, listed in a row, and whether they are those of a row.
#![tactic(auto)]

ghost use Rattle.std.specs.Prelude.{◌≡◌, ℕ, List, ◌+◌, ◌-◌, ◌*◌};
ghost use Rattle.layout.specs.Layout.{load as loadAt, writes, head};
ghost use Rattle.layout.specs.Fields.{head_first_detached, head_pages};
ghost use Rattle.storage.specs.Ops.{up};
ghost use Rattle.head.specs.Head.{attached_by, drawn_by, empty_by};
ghost use Rattle.growth.specs.Late.{fresh_from, detached_from, own_p};
ghost use Rattle.growth.specs.Words.{next_word, prev_word, cells_p, built_w, joined_w, attach_w, page_at, link_after, size_after, is_full, pages_needed, list_pages_w, pages_same, each_w, attach_next_w, attach_item_w, advance_w, aged_w, grow_w, grow_in_w};

use head::TableHead;
use layout::{Shape, field, size, value};

// The links of slot j of page p, which has n slots, in the free order; h is the link of the order that there was.
fn next_word(p: u32, h: u64, j: u8) -> u64
    ensures { result ≡ next_word p h j }
{
    if j == 0 {
        h
    } else {
        (p as u64) * size::PAGE_SIZE + (j as u64)
    }
}

fn prev_word(p: u32, n: u8, j: u8) -> u64
    ensures { result ≡ prev_word p n j }
{
    if (j as u64) + 1 == (n as u64) {
        0
    } else {
        (p as u64) * size::PAGE_SIZE + (j as u64) + 2
    }
}

// Slot j of frame f is vacant, with the generation g and its links.
fn build_slot(s: &mut [u64], sh: Shape, f: u64, j: u64, g: u64, x: u64, y: u64)
    ensures { s.new ≡ writes s.old sh (cells_p f j g x y) }
{
    layout::put_cell(s, sh, f, j, field::SLOT_TAG, value::TAG_VACANT);
    layout::put_cell(s, sh, f, j, field::SLOT_GENERATION, g);
    layout::put_cell(s, sh, f, j, field::SLOT_NEXT_FREE, x);
    layout::put_cell(s, sh, f, j, field::SLOT_PREVIOUS_FREE, y);
}

// Frame f has the slots of page p, as publishing them by rising slot leaves them.
#[tactic(auto, unfolding(crate::specs::Words::built_w), using(layout::specs::Turns::turns_none, layout::specs::Turns::turns_more))]
fn build_frame(s: &mut [u64], sh: Shape, f: u64, p: u32, g: u64, h: u64)
    ensures { s.new ≡ built_w s.old sh f p g h }
{
    let n = head::slots_of(p as u64);
    for j in 0..n {
        let x = next_word(p, h, j);
        let y = prev_word(p, n, j);
        build_slot(s, sh, f, j as u64, g, x, y);
    }
}

// The generation of a page that is attached: after its last; a new page has had none.
#[tactic(auto, unfolding(crate::specs::Late::fresh_from))]
fn fresh_generation(s: &[u64], sh: Shape, h: TableHead, p: u64) -> u64
    ensures { result ≡ fresh_from (loadAt s.now sh) h p }
{
    if p < h.pages {
        codec::next_generation(storage::page_word(s, sh, h.entry, p, field::ENTRY_HIGH))
    } else {
        1
    }
}

// The link of the first detached page without page p.
#[tactic(auto, unfolding(crate::specs::Late::detached_from))]
fn detached_with(s: &[u64], sh: Shape, h: TableHead, p: u64) -> u64
    ensures { result ≡ detached_from (loadAt s.now sh) h p }
{
    if h.first_detached == p.saturating_add(1) {
        storage::page_word(s, sh, h.entry, p, field::ENTRY_NEXT)
    } else {
        h.first_detached
    }
}

// Page p, of the table whose first entry is e, is attached in frame f with the generation g.
fn put_entry(s: &mut [u64], sh: Shape, e: u64, p: u64, f: u64, g: u64)
    ensures { s.new ≡ writes s.old sh (own_p e p f g) }
{
    storage::put_page(s, sh, e, p, field::ENTRY_FRAME, f.saturating_add(1));
    storage::put_page(s, sh, e, p, field::ENTRY_HIGH, g);
    storage::put_page(s, sh, e, p, field::ENTRY_BUSY, 0);
}

// The head with page p attached; d is the link of the first detached page then.
fn attached_head(h: TableHead, p: u64, d: u64) -> TableHead
    ensures { result ≡ empty_by (drawn_by (attached_by h p) d) (up p) }
{
    let mut t = h;
    t.attach(p);
    t.draw(d);
    t.empty(p.saturating_add(1));
    t
}

// Page p of table b stands in frame f, but for the frame's owner.
#[tactic(auto, using(crate::specs::Late::joined_by))]
fn join_page(s: &mut [u64], sh: Shape, b: u64, p: u32, f: u64)
    ensures { s.new ≡ joined_w s.old sh b p f }
{
    let q = p as u64;
    let h = head::load(s, sh, b);
    let x = h.first_free;
    let e = h.entry;
    let g = fresh_generation(s, sh, h, q);
    let fr = storage::link_frame(s, sh, h, x);
    let t = attached_head(h, q, detached_with(s, sh, h, q));
    build_frame(s, sh, f, p, g, x);
    storage::put_slot_link(
        s,
        sh,
        fr,
        x,
        field::SLOT_PREVIOUS_FREE,
        q * size::PAGE_SIZE + 1,
    );
    put_entry(s, sh, e, q, f, g);
    storage::link_page(s, sh, e, q, h.first_empty);
    head::store_pages(s, sh, b, t);
}

// Attaches page p of table b, the first detached one or a new one, in the free frame f.
#[tactic(auto, unfolding(crate::specs::Words::attach_w))]
pub fn attach_page(s: &mut [u64], sh: Shape, b: u64, p: u32, f: u64)
    ensures words { s.new ≡ attach_w s.old sh b p f }
{
    let e = layout::head_word(s, sh, b, field::HEAD_FIRST_ENTRY).min(size::NUMBER_32_MAX);
    join_page(s, sh, b, p, f);
    frames::take_frame(s, sh, f, (e + (p as u64)).saturating_add(1));
}

// The pages that a table gets next: the detached ones, by the link of the first, and then new ones, from a count on.
#[derive(Clone, Copy)]
struct Next {
    detached: u64,
    count: u64,
}

impl Next {
    // Of table b.
    fn of(s: &[u64], sh: Shape, b: u64) -> Next
        ensures detached { result.detached ≡ loadAt s.now sh (head b head_first_detached) }
        ensures count { result.count ≡ loadAt s.now sh (head b head_pages) }
    {
        Next {
            detached: layout::head_word(s, sh, b, field::HEAD_FIRST_DETACHED),
            count: layout::head_word(s, sh, b, field::HEAD_PAGES),
        }
    }

    // The first of them.
    fn page(self) -> u64
        ensures { result ≡ page_at self.detached self.count }
    {
        self.detached.checked_sub(1).unwrap_or(self.count)
    }

    // It is a new page and would pass the limit.
    fn is_full(self, limit: u64) -> bool
        ensures { result ≡ is_full self.detached self.count limit }
    {
        self.detached == 0 && self.count == limit
    }

    // The pages after it, of a table whose first entry is e.
    fn after(self, s: &[u64], sh: Shape, e: u64) -> Next
        ensures detached { result.detached ≡ link_after (loadAt s.now sh) e self.detached }
        ensures count { result.count ≡ size_after self.detached self.count }
    {
        match self.detached.checked_sub(1) {
            Some(p) => Next {
                detached: storage::page_word(s, sh, e, p, field::ENTRY_NEXT),
                ..self
            },
            None => Next {
                detached: 0,
                count: self.count.saturating_add(1),
            },
        }
    }
}

// More pages than a batch can need: no plan. It stays a number: the definitions test it as one, and a row of any lent words may hold it, which plan then finds equal; reserve and plan would turn an `Option` back into it.
pub const NO_PLAN: u64 = size::BATCH_MAX + 1;

// How many pages table b needs for a batch of k slots; NO_PLAN if a new one would pass the limit.
#[tactic(auto, unfolding(crate::specs::Words::pages_needed), using(crate::specs::Code::count_done, crate::specs::Code::count_full, crate::specs::Code::count_more, crate::specs::Code::count_end))]
pub fn pages_needed(s: &[u64], sh: Shape, b: u64, k: u64) -> u64
    ensures { result ≡ pages_needed (loadAt s.now sh) b k }
{
    let e = layout::head_word(s, sh, b, field::HEAD_FIRST_ENTRY);
    let limit = layout::head_word(s, sh, b, field::HEAD_PAGE_LIMIT);
    let mut need = k.saturating_sub(layout::head_word(s, sh, b, field::HEAD_FREE_SLOTS));
    let mut next = Next::of(s, sh, b);
    for c in 0..size::BATCH_MAX {
        if need == 0 {
            return c;
        }
        if next.is_full(limit) {
            return NO_PLAN;
        }
        need = need.saturating_sub(head::slots_of(next.page()) as u64);
        next = next.after(s, sh, e);
    }
    size::BATCH_MAX
}

// The next k pages of table b into the items of the row in place x.
#[tactic(auto, unfolding(crate::specs::Words::list_pages_w), using(crate::specs::Code::pages_step, crate::specs::Code::pages_end))]
pub fn list_pages(s: &mut [u64], sh: Shape, b: u64, x: u64, k: u64)
    ensures words { s.new ≡ list_pages_w s.old sh b x k }
{
    let e = layout::head_word(s, sh, b, field::HEAD_FIRST_ENTRY);
    let mut next = Next::of(s, sh, b);
    for j in 0..k {
        let p = next.page();
        next = next.after(s, sh, e);
        layout::put_item(s, sh, x, j, field::ITEM_PAGE, p);
    }
}

// Whether the next k pages of table b are those that the items of the row in place x name.
#[tactic(auto, unfolding(crate::specs::Words::pages_same), using(crate::specs::Code::same_step, crate::specs::Code::same_end))]
pub fn pages_same(s: &[u64], sh: Shape, b: u64, x: u64, k: u64) -> bool
    ensures { result ≡ pages_same (loadAt s.now sh) b x k }
{
    let e = layout::head_word(s, sh, b, field::HEAD_FIRST_ENTRY);
    let mut next = Next::of(s, sh, b);
    for j in 0..k {
        if layout::item_word(s, sh, x, j, field::ITEM_PAGE) != next.page() {
            return false;
        }
        next = next.after(s, sh, e);
    }
    true
}

// Attaches the next page in the lowest free frame.
#[tactic(auto, unfolding(crate::specs::Words::attach_next_w))]
fn attach_next(s: &mut [u64], sh: Shape, b: u64)
    ensures { s.new ≡ attach_next_w s.old sh b }
{
    let p = Next::of(s, sh, b).page().min(size::LAST_PAGE);
    let f = frames::lowest_free(s, sh);
    attach_page(s, sh, b, p as u32, f);
}

// Attaches the page that item j of the row in place x names, in the free frame that it names.
#[tactic(auto, unfolding(crate::specs::Words::attach_item_w))]
fn attach_item(s: &mut [u64], sh: Shape, b: u64, x: u64, j: u64)
    ensures { s.new ≡ attach_item_w sh b x j s.old }
{
    let p = layout::item_word(s, sh, x, j, field::ITEM_PAGE).min(size::LAST_PAGE);
    let f = layout::item_word(s, sh, x, j, field::ITEM_FRAME);
    attach_page(s, sh, b, p as u32, f);
}

// The table's epoch advances.
#[tactic(auto, unfolding(crate::specs::Words::advance_w, head::specs::Head::head_at))]
pub fn advance_epoch(s: &mut [u64], sh: Shape, b: u64)
    ensures words { s.new ≡ advance_w s.old sh b }
{
    let mut h = head::load(s, sh, b);
    let epoch = head::next_epoch(h.epoch);
    h.age(epoch);
    head::store_epoch(s, sh, b, h);
}

// Table b grows by n pages, each attached by a step that takes its number; its epoch advances once, and not for none.
#[tactic(auto, unfolding(crate::specs::Words::aged_w, crate::specs::Words::each_w), using(std::proofs::lemmas::Bool::Decides::nat_tests))]
fn grow_by<F: Fn(&mut [u64], u64)>(s: &mut [u64], sh: Shape, b: u64, n: u64, attach: F)
    requires { F.IsAlwaysCallable attach }
    ensures { (g : ℕ → List ℕ → List ℕ) → ((p : _) (j : ℕ) (q : _) → F.post attach p j tt q → q.now ≡ g j p.now) → s.new ≡ aged_w (each_w g 0 n s.old) sh b n }
{
    for j in 0..n {
        attach(s, j);
    }
    if n != 0 {
        advance_epoch(s, sh, b);
    }
}

// Table b grows by n pages: detached ones first, then new ones, each in the lowest free frame.
#[tactic(auto, unfolding(crate::specs::Words::grow_w))]
pub fn grow(s: &mut [u64], sh: Shape, b: u64, n: u64)
    ensures words { s.new ≡ grow_w s.old sh b n }
{
    grow_by(s, sh, b, n, |s, _| attach_next(s, sh, b));
}

// Table b grows by the pages of the first n items of the row in place x, each in the free frame of its item.
#[tactic(auto, unfolding(crate::specs::Words::grow_in_w))]
pub fn grow_in(s: &mut [u64], sh: Shape, b: u64, x: u64, n: u64)
    ensures words { s.new ≡ grow_in_w s.old sh b x n }
{
    grow_by(s, sh, b, n, |s, j| attach_item(s, sh, b, x, j));
}
