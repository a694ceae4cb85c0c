// A table's head: its words as one struct, the steps on it by value, thin methods that it is lent to, and its loads and stores over the state's words.
#![tactic(auto)]

ghost use Rattle.std.specs.Prelude.{◌≡◌};
ghost use Rattle.model.specs.State.{till};
ghost use Rattle.model.specs.Storage.{slots_of};
ghost use Rattle.layout.specs.Layout.{load as loadAt, writes};
ghost use Rattle.head.specs.Head.{head_at, freed_by, taken_by, empty_by, attached_by, drawn_by, detached_by, aged_by, tearing_by, retired_by, pages_with, next_epoch, free_p, orders_p, pages_p, detached_p, epoch_p, life_p};

use layout::{Shape, field, size, value};

// The words of a head that change, and the number of the table's first page entry. Orders begin with a link, which is a number plus 1.
#[derive(Clone, Copy)]
pub struct TableHead {
    pub life: u64,
    pub cursor: u64,
    pub epoch: u64,
    pub pages: u64,
    pub first_free: u64,
    pub free: u64,
    pub first_empty: u64,
    pub first_detached: u64,
    pub entry: u64,
}

// Slots of a page, in a byte.
const PAGE_SIZE: u8 = size::PAGE_SIZE as u8;

const LAST_PAGE_SIZE: u8 = size::LAST_PAGE_SIZE as u8;

// How many slots page p has. "Page 262,143 has 63 slots".
#[tactic(auto, using(model::proofs::Bounds::slots_full, model::proofs::Bounds::slots_none, model::proofs::Bounds::slots_last))]
pub fn slots_of(p: u64) -> u8
    ensures { result ≡ slots_of till p }
{
    if p < size::LAST_PAGE {
        return PAGE_SIZE;
    }
    if p > size::LAST_PAGE {
        return 0;
    }
    LAST_PAGE_SIZE
}

// How many pages there are with page p, of n.
fn pages_with(n: u64, p: u64) -> u64
    ensures { result ≡ pages_with n p }
{
    if p == n { p.saturating_add(1) } else { n }
}

// "The epoch wraps from 2^64 - 1 to 0".
pub fn next_epoch(e: u64) -> u64
    ensures { result ≡ next_epoch e }
{
    e.wrapping_add(1)
}

// The steps by value.
impl TableHead {
    // A slot came to the head of the free order.
    pub fn freed(self, first: u64) -> TableHead
        ensures { result ≡ freed_by self first }
    {
        TableHead {
            first_free: first,
            free: self.free.saturating_add(1),
            ..self
        }
    }

    // A slot left the free order; the first then is given.
    pub fn taken(self, first: u64) -> TableHead
        ensures { result ≡ taken_by self first }
    {
        TableHead {
            first_free: first,
            free: self.free.saturating_sub(1),
            ..self
        }
    }

    // The first of the empty pages' order is given.
    pub fn emptied(self, first: u64) -> TableHead
        ensures { result ≡ empty_by self first }
    {
        TableHead {
            first_empty: first,
            ..self
        }
    }

    // Page p was attached: its slots came to the head of the free order, the last of them first.
    pub fn attached(self, p: u64) -> TableHead
        ensures { result ≡ attached_by self p }
    {
        let n = slots_of(p) as u64;
        TableHead {
            first_free: p.min(size::NUMBER_32_MAX) * size::PAGE_SIZE + n,
            free: self.free.min(size::SLOTS_MAX) + n,
            pages: pages_with(self.pages, p),
            ..self
        }
    }

    // The first of the detached pages' order is given.
    pub fn drawn(self, first: u64) -> TableHead
        ensures { result ≡ drawn_by self first }
    {
        TableHead {
            first_detached: first,
            ..self
        }
    }

    // A page came to the head of the detached pages' order; the epoch advances.
    pub fn detached(self, first: u64) -> TableHead
        ensures { result ≡ detached_by self first }
    {
        TableHead {
            first_detached: first,
            epoch: next_epoch(self.epoch),
            ..self
        }
    }

    // The epoch is given.
    pub fn aged(self, epoch: u64) -> TableHead
        ensures { result ≡ aged_by self epoch }
    {
        TableHead { epoch, ..self }
    }

    // Teardown stands at a cursor.
    pub fn tearing(self, cursor: u64) -> TableHead
        ensures { result ≡ tearing_by self cursor }
    {
        TableHead {
            life: value::LIFE_TEARING_DOWN,
            cursor,
            ..self
        }
    }

    // Teardown is finished.
    pub fn retired(self, cursor: u64) -> TableHead
        ensures { result ≡ retired_by self cursor }
    {
        TableHead {
            life: value::LIFE_RETIRED,
            cursor,
            ..self
        }
    }
}

// The same steps on a head that is lent: document 01 has both, a `TableHead` lent by `&mut` above steps by value.
impl TableHead {
    pub fn free(&mut self, first: u64)
        ensures { self.new ≡ freed_by self.old first }
    {
        *self = self.freed(first);
    }

    pub fn take(&mut self, first: u64)
        ensures { self.new ≡ taken_by self.old first }
    {
        *self = self.taken(first);
    }

    pub fn empty(&mut self, first: u64)
        ensures { self.new ≡ empty_by self.old first }
    {
        *self = self.emptied(first);
    }

    pub fn attach(&mut self, p: u64)
        ensures { self.new ≡ attached_by self.old p }
    {
        *self = self.attached(p);
    }

    pub fn draw(&mut self, first: u64)
        ensures { self.new ≡ drawn_by self.old first }
    {
        *self = self.drawn(first);
    }

    pub fn detach(&mut self, first: u64)
        ensures { self.new ≡ detached_by self.old first }
    {
        *self = self.detached(first);
    }

    pub fn age(&mut self, epoch: u64)
        ensures { self.new ≡ aged_by self.old epoch }
    {
        *self = self.aged(epoch);
    }

    pub fn tear(&mut self, cursor: u64)
        ensures { self.new ≡ tearing_by self.old cursor }
    {
        *self = self.tearing(cursor);
    }

    pub fn retire(&mut self, cursor: u64)
        ensures { self.new ≡ retired_by self.old cursor }
    {
        *self = self.retired(cursor);
    }
}

// ---- over words

// The head of table b. Compiled in place, so that a caller reads the words that it uses.
#[inline(always)]
#[tactic(auto, unfolding(crate::specs::Head::head_at))]
pub fn load(s: &[u64], sh: Shape, b: u64) -> TableHead
    ensures { result ≡ head_at (loadAt s.now sh) b }
{
    TableHead {
        life: layout::head_word(s, sh, b, field::HEAD_LIFECYCLE),
        cursor: layout::head_word(s, sh, b, field::HEAD_CURSOR),
        epoch: layout::head_word(s, sh, b, field::HEAD_EPOCH),
        pages: layout::head_word(s, sh, b, field::HEAD_PAGES),
        first_free: layout::head_word(s, sh, b, field::HEAD_FIRST_FREE),
        free: layout::head_word(s, sh, b, field::HEAD_FREE_SLOTS),
        first_empty: layout::head_word(s, sh, b, field::HEAD_FIRST_EMPTY),
        first_detached: layout::head_word(s, sh, b, field::HEAD_FIRST_DETACHED),
        entry: layout::head_word(s, sh, b, field::HEAD_FIRST_ENTRY),
    }
}

// (b, h) stay two in these: a head is lent by itself to the steps that change it, and with b in it each of them would have to say that b stays.
// Stores what a step changes: the free order's words.
pub fn store_free(s: &mut [u64], sh: Shape, b: u64, h: TableHead)
    ensures { s.new ≡ writes s.old sh (free_p b h) }
{
    layout::put_head(s, sh, b, field::HEAD_FIRST_FREE, h.first_free);
    layout::put_head(s, sh, b, field::HEAD_FREE_SLOTS, h.free);
}

// The free order's and the empty pages' order's.
pub fn store_orders(s: &mut [u64], sh: Shape, b: u64, h: TableHead)
    ensures { s.new ≡ writes s.old sh (orders_p b h) }
{
    layout::put_head(s, sh, b, field::HEAD_FIRST_FREE, h.first_free);
    layout::put_head(s, sh, b, field::HEAD_FREE_SLOTS, h.free);
    layout::put_head(s, sh, b, field::HEAD_FIRST_EMPTY, h.first_empty);
}

// All orders and the count of pages.
pub fn store_pages(s: &mut [u64], sh: Shape, b: u64, h: TableHead)
    ensures { s.new ≡ writes s.old sh (pages_p b h) }
{
    layout::put_head(s, sh, b, field::HEAD_FIRST_FREE, h.first_free);
    layout::put_head(s, sh, b, field::HEAD_FREE_SLOTS, h.free);
    layout::put_head(s, sh, b, field::HEAD_PAGES, h.pages);
    layout::put_head(s, sh, b, field::HEAD_FIRST_DETACHED, h.first_detached);
    layout::put_head(s, sh, b, field::HEAD_FIRST_EMPTY, h.first_empty);
}

// Those of a page that is detached: the empty pages' order's, the detached pages' order's and the epoch.
pub fn store_detached(s: &mut [u64], sh: Shape, b: u64, h: TableHead)
    ensures { s.new ≡ writes s.old sh (detached_p b h) }
{
    layout::put_head(s, sh, b, field::HEAD_FIRST_EMPTY, h.first_empty);
    layout::put_head(s, sh, b, field::HEAD_FIRST_DETACHED, h.first_detached);
    layout::put_head(s, sh, b, field::HEAD_EPOCH, h.epoch);
}

// The epoch.
pub fn store_epoch(s: &mut [u64], sh: Shape, b: u64, h: TableHead)
    ensures { s.new ≡ writes s.old sh (epoch_p b h) }
{
    layout::put_head(s, sh, b, field::HEAD_EPOCH, h.epoch);
}

// The lifecycle and teardown's cursor.
pub fn store_life(s: &mut [u64], sh: Shape, b: u64, h: TableHead)
    ensures { s.new ≡ writes s.old sh (life_p b h) }
{
    layout::put_head(s, sh, b, field::HEAD_LIFECYCLE, h.life);
    layout::put_head(s, sh, b, field::HEAD_CURSOR, h.cursor);
}
