// The state check, whole: whether lent words represent a well-formed state.
#![tactic(auto)]

ghost use Rattle.std.specs.Prelude.{◌≡◌, true, ◌≤◌, length};
ghost use Rattle.layout.specs.Layout.{total, load as loadAt};
ghost use Rattle.words.specs.Words.{Small};
ghost use Rattle.counts.specs.Used.{read_if, used_to};
ghost use Rattle.wellformed.specs.Whole.{well_b};
ghost use Rattle.wellformed.specs.Code.{quiet_b};

use layout::Shape;

// Does nothing: its contract says that lent words are below 2^64, which `sound` asks for.
pub fn are_words(s: &[u64])
    ensures { Small s.now }
{
    let _ = words::word(s, 0);
}

// The parts that write nothing: whether they pass, and how many objects may have handles. Words and shape stay two, as in what calls it, which writes.
#[tactic(auto, unfolding(crate::specs::Code::quiet_b, counts::specs::Used::objects_read), using(std::proofs::lemmas::Bool::Decides::nat_tests))]
fn check_parts(s: &[u64], sh: Shape) -> Option<u64>
    requires { total sh ≤ length s.now }
    ensures { result ≡ read_if (quiet_b (loadAt s.now sh) sh) (used_to (loadAt s.now sh) sh.objects) }
{
    let held = ledger::check_book(s, sh)?;
    if structure::check_outline(s, sh, held) && orders::check_orders(s, sh) {
        counts::check_objects(s, sh)
    } else {
        None
    }
}

// The slots and the objects' counts, where these parts have passed and the first `used` objects may have handles: the handles are counted in the upper halves of
// the counts, which are cleared again. Its two clauses have answers: each takes facts of all three calls.
#[tactic(auto, using(counts::specs::Used::used_few, counts::specs::Used::top_most))]
fn check_handles(s: &mut [u64], sh: Shape, used: u64) -> bool
    requires sh_in_bounds { total sh ≤ length s.old }
    requires sh_value { (quiet_b (loadAt s.old sh) sh ≡ true) × (used ≡ used_to (loadAt s.old sh) sh.objects) }
    ensures kept { s.new ≡ s.old }
    ensures answer { result ≡ well_b s.old sh }
{
    let slots = survey::walk_slots(s, sh, used);
    let top = counts::note_rows(s, sh, used);
    let counted = counts::settle(s, sh, top);
    slots & counted
}

// Whether the words of a shape represent a well-formed state.
#[tactic(auto, using(crate::proofs::Bodies::too_short, crate::proofs::Bodies::no_parts))]
pub fn check(s: &mut [u64], sh: Shape) -> bool
    ensures kept { s.new ≡ s.old }
    ensures answer { result ≡ well_b s.old sh }
{
    if (s.len() as u64) < layout::total_of(sh) {
        return false;
    }
    match check_parts(s, sh) {
        None => false,
        Some(used) => check_handles(s, sh, used),
    }
}
