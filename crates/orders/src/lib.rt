// The part of the state check for the orders of each table: free slots, empty pages, detached pages. Each order is counted first and then walked so
// many steps.
#![tactic(auto)]

ghost use Rattle.std.specs.Prelude.{◌≡◌, ℕ, Bool, ◌<◌, ◌^◌};
ghost use Rattle.layout.specs.Layout.{load as loadAt};
ghost use Rattle.orders.specs.Walk.{walk};
ghost use Rattle.orders.specs.Check.{empty_at, detached_at, vacants_on, vacants};
ghost use Rattle.orders.specs.Check.{free_link, empty_link, detached_link, free_by, empty_by, detached_by, table_b, orders_b};

use layout::{Shape, field, size, value};

// The pages of a table: how many, and the number of the first one's entry.
#[derive(Clone, Copy)]
struct Pages {
    count: u32,
    first: u64,
}

impl Pages {
    // The vacant slots of page p: what the busy ones leave; none of a detached page.
    #[tactic(auto, unfolding(crate::specs::Check::vacants_on))]
    fn vacants_on(self, s: &[u64], sh: Shape, p: u32) -> u64
        ensures { result ≡ vacants_on (loadAt s.now sh) self.first p }
    {
        if storage::page_word(s, sh, self.first, p as u64, field::ENTRY_FRAME) == 0 {
            return 0;
        }
        let slots = head::slots_of(p as u64) as u64;
        slots.saturating_sub(storage::page_word(s, sh, self.first, p as u64, field::ENTRY_BUSY))
    }

    // The vacant slots of all pages. A loop, as structure's `free_in`.
    #[tactic(auto, using(crate::specs::Code::vacants_few), unfolding(crate::specs::Check::vacants))]
    fn vacants(self, s: &[u64], sh: Shape) -> u64
        ensures { result ≡ vacants (loadAt s.now sh) self.count self.first }
    {
        let mut c: u64 = 0;
        for p in 0..self.count {
            c += self.vacants_on(s, sh, p);
        }
        c
    }

    // Whether page p is one of them and attached, with no busy slot.
    #[tactic(auto, unfolding(crate::specs::Check::empty_at))]
    fn empty_at(self, s: &[u64], sh: Shape, p: u64) -> bool
        ensures { result ≡ empty_at (loadAt s.now sh) self.count self.first p }
    {
        p < self.count as u64
            && storage::page_word(s, sh, self.first, p, field::ENTRY_FRAME) != 0
            && storage::page_word(s, sh, self.first, p, field::ENTRY_BUSY) == 0
    }

    // Whether page p is one of them and detached.
    #[tactic(auto, unfolding(crate::specs::Check::detached_at))]
    fn detached_at(self, s: &[u64], sh: Shape, p: u64) -> bool
        ensures { result ≡ detached_at (loadAt s.now sh) self.count self.first p }
    {
        p < self.count as u64 && storage::page_word(s, sh, self.first, p, field::ENTRY_FRAME) == 0
    }

    // Whether the link at is one to an empty page, which links back to before.
    #[tactic(auto, unfolding(crate::specs::Check::empty_link))]
    fn empty_link(self, s: &[u64], sh: Shape, at: u64, before: u64) -> bool
        ensures { result ≡ empty_link (loadAt s.now sh) self.count self.first at before }
    {
        let Some(p) = at.checked_sub(1) else {
            return false;
        };
        self.empty_at(s, sh, p)
            && storage::page_word(s, sh, self.first, p, field::ENTRY_PREVIOUS) == before
    }

    // Whether the link at is one to a detached page; these have no links back.
    #[tactic(auto, unfolding(crate::specs::Check::detached_link))]
    fn detached_link(self, s: &[u64], sh: Shape, at: u64) -> bool
        ensures { result ≡ detached_link (loadAt s.now sh) self.count self.first at }
    {
        let Some(p) = at.checked_sub(1) else {
            return false;
        };
        self.detached_at(s, sh, p)
    }
}

// Whether the link at is one to a vacant slot of table b, which links back to before.
#[tactic(auto, unfolding(crate::specs::Check::free_link, crate::specs::Check::vacant_at))]
fn free_link(s: &[u64], sh: Shape, b: u64, at: u64, before: u64) -> bool
    ensures { result ≡ free_link (loadAt s.now sh) b at before }
{
    let Some(k) = at.checked_sub(1) else {
        return false;
    };
    let Some(f) = storage::frame_link(s, sh, b, k).checked_sub(1) else {
        return false;
    };
    let j = k % size::PAGE_SIZE;
    layout::cell_word(s, sh, f, j, field::SLOT_TAG) == value::TAG_VACANT
        && layout::cell_word(s, sh, f, j, field::SLOT_PREVIOUS_FREE) == before
}

// Whether an order, from its first link on, has so many links, each of which passes with the one before it; 0 stands before the first, and after the last.
#[tactic(auto, unfolding(crate::specs::Walk::walk), using(crate::specs::Code::walk_stop, crate::specs::Code::walk_on))]
fn walk<N: Fn(u64) -> u64, L: Fn(u64, u64) -> bool>(
    first: u64,
    count: u64,
    next: N,
    links: L,
) -> bool
    requires next_calls { N.IsAlwaysCallable next }
    requires links_calls { L.IsAlwaysCallable links }
    ensures { (n : ℕ → ℕ) (t : ℕ → ℕ → Bool) → ((k r : ℕ) → k < 2 ^ 64 → N.post next k r → r ≡ n k) → ((h p : ℕ) (r : Bool) → h < 2 ^ 64 → p < 2 ^ 64 → L.post links h p r → r ≡ t h p) → result ≡ walk n t count first 0 }
{
    let mut at = first;
    let mut before = 0;
    for _ in 0..count {
        if !links(at, before) {
            return false;
        }
        before = at;
        at = next(at.saturating_sub(1));
    }
    at == 0
}

// Whether table b's free order holds every vacant slot of its pages once and nothing else, and as many as its head says.
#[tactic(auto, unfolding(crate::specs::Check::free_by))]
fn check_free(s: &[u64], sh: Shape, b: u64, pages: Pages) -> bool
    ensures { result ≡ free_by (loadAt s.now sh) b pages.count pages.first }
{
    let count = layout::head_word(s, sh, b, field::HEAD_FREE_SLOTS);
    let first = layout::head_word(s, sh, b, field::HEAD_FIRST_FREE);
    pages.vacants(s, sh) == count
        && walk(
            first,
            count,
            |k| storage::slot_word(s, sh, b, k, field::SLOT_NEXT_FREE),
            |at, before| free_link(s, sh, b, at, before),
        )
}

// Whether the empty pages' order holds every empty page once and nothing else.
#[tactic(auto, unfolding(crate::specs::Check::empty_by))]
fn check_empty(s: &[u64], sh: Shape, b: u64, pages: Pages) -> bool
    ensures { result ≡ empty_by (loadAt s.now sh) b pages.count pages.first }
{
    let count = (0..pages.count)
        .filter(|p| pages.empty_at(s, sh, *p as u64))
        .count();
    walk(
        layout::head_word(s, sh, b, field::HEAD_FIRST_EMPTY),
        count as u64,
        |p| storage::page_word(s, sh, pages.first, p, field::ENTRY_NEXT),
        |at, before| pages.empty_link(s, sh, at, before),
    )
}

// Whether the detached pages' order holds every detached page once and nothing else.
#[tactic(auto, unfolding(crate::specs::Check::detached_by))]
fn check_detached(s: &[u64], sh: Shape, b: u64, pages: Pages) -> bool
    ensures { result ≡ detached_by (loadAt s.now sh) b pages.count pages.first }
{
    let count = (0..pages.count)
        .filter(|p| pages.detached_at(s, sh, *p as u64))
        .count();
    walk(
        layout::head_word(s, sh, b, field::HEAD_FIRST_DETACHED),
        count as u64,
        |p| storage::page_word(s, sh, pages.first, p, field::ENTRY_NEXT),
        |at, _| pages.detached_link(s, sh, at),
    )
}

#[tactic(auto, unfolding(crate::specs::Check::table_b))]
fn check_table(s: &[u64], sh: Shape, b: u64) -> bool
    ensures { result ≡ table_b (loadAt s.now sh) b }
{
    let size = layout::head_word(s, sh, b, field::HEAD_PAGES);
    if size > size::PAGES_MAX {
        return false;
    }
    let pages = Pages {
        count: size as u32,
        first: layout::head_word(s, sh, b, field::HEAD_FIRST_ENTRY),
    };
    check_free(s, sh, b, pages) && check_empty(s, sh, b, pages) && check_detached(s, sh, b, pages)
}

// Whether every table's orders hold what they are to hold.
pub fn check_orders(s: &[u64], sh: Shape) -> bool
    ensures { result ≡ orders_b (loadAt s.now sh) sh }
{
    (0..sh.tables).all(|b| check_table(s, sh, b as u64))
}
