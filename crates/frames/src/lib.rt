// The pool of frames over the state's words: the lowest free frame, a frame taken for a page or for a plan, a frame given back.
#![tactic(auto)]

ghost use Rattle.std.specs.Prelude.{◌≡◌, ℕ, ◌+◌, ◌≤◌};
ghost use Rattle.layout.specs.Layout.{load as loadAt, writes};
ghost use Rattle.frames.specs.Ops.{step_p, take_frame_w, give_frame_w, first_of, has_free, lowest_at};

use layout::{Shape, field};

// Whether number x of region k, frame owners or counts of free frames, has a free frame.
fn has_free(s: &[u64], sh: Shape, k: u64, x: u64) -> bool
    ensures { result ≡ has_free (loadAt s.now sh) k x }
{
    let w = layout::load(s, sh, k, x, 0, 0);
    if k == layout::region::REGION_OWNER {
        w == 0
    } else {
        w != 0
    }
}

// The first of 16 numbers of region k that has a free frame; the number past them if none does, as in the definition. An `Option` would be turned into that number at once, since the next level is read by it.
// A loop, whose invariant is a line: what `find` gives is said over its closure, and takes a file of answers, as teardown's `occupied_on`.
#[tactic(auto, using(crate::specs::Ops::first_step, crate::specs::Ops::first_end))]
fn first_free(s: &[u64], sh: Shape, k: u64, from: u64) -> u64
    requires { from ≤ 1000000 }
    ensures first { result ≡ first_of (has_free (loadAt s.now sh) k) from 16 }
    ensures near { result ≤ from + 16 }
{
    let end = from + 16;
    for x in from..end {
        if has_free(s, sh, k, x) {
            return x;
        }
    }
    end
}

// The lowest free frame. It looks at no more than 16 words of each level.
#[tactic(auto, unfolding(crate::specs::Ops::lowest_at))]
pub fn lowest_free(s: &[u64], sh: Shape) -> u64
    ensures { result ≡ lowest_at (loadAt s.now sh) }
{
    let c = first_free(s, sh, layout::region::REGION_GROUP_4096, 0);
    let b = first_free(s, sh, layout::region::REGION_GROUP_256, c * 16);
    let a = first_free(s, sh, layout::region::REGION_GROUP_16, b * 16);
    first_free(s, sh, layout::region::REGION_OWNER, a * 16)
}

// The words of frame f in the pool: its owner is o, and the counts of its groups of 16, 256 and 4,096 and of all go on by a step.
#[tactic(auto, unfolding(crate::specs::Ops::step_p))]
fn count_frame<F: Fn(u64) -> u64>(s: &mut [u64], sh: Shape, f: u64, o: u64, step: F)
    requires { F.IsAlwaysCallable step }
    ensures { (g : ℕ → ℕ) → ((x r : ℕ) → F.post step x r → r ≡ g x) → s.new ≡ writes s.old sh (step_p g (loadAt s.old sh) f o) }
{
    let a = step(layout::load(s, sh, layout::region::REGION_GROUP_16, f / 16, 0, 0));
    let b = step(layout::load(s, sh, layout::region::REGION_GROUP_256, f / 256, 0, 0));
    let c = step(layout::load(s, sh, layout::region::REGION_GROUP_4096, f / 4096, 0, 0));
    let n = step(layout::root_word(s, sh, field::ROOT_FREE_FRAMES));
    layout::put_owner(s, sh, f, o);
    layout::save(s, sh, layout::region::REGION_GROUP_16, f / 16, 0, 0, a);
    layout::save(s, sh, layout::region::REGION_GROUP_256, f / 256, 0, 0, b);
    layout::save(s, sh, layout::region::REGION_GROUP_4096, f / 4096, 0, 0, c);
    layout::put_root(s, sh, field::ROOT_FREE_FRAMES, n);
}

// Frame f is taken, and o is its owner word.
#[tactic(auto, unfolding(crate::specs::Ops::take_frame_w))]
pub fn take_frame(s: &mut [u64], sh: Shape, f: u64, o: u64)
    ensures words { s.new ≡ take_frame_w s.old sh f o }
{
    count_frame(s, sh, f, o, |n| n.saturating_sub(1));
}

// Frame f is given back.
#[tactic(auto, unfolding(crate::specs::Ops::give_frame_w))]
pub fn give_frame(s: &mut [u64], sh: Shape, f: u64)
    ensures words { s.new ≡ give_frame_w s.old sh f }
{
    count_frame(s, sh, f, 0, |n| n.saturating_add(1));
}
