// The runner: a list of requests over lent words. Document 01, "The request list": "The kernel's C entry calls the runner on word slices".
#![tactic(auto)]

ghost use Rattle.std.specs.Prelude.{◌≡◌, ◌*◌, ◌≤◌, length, ltb};
ghost use Rattle.words.specs.Pick.{pick};
ghost use Rattle.wellformed.specs.Whole.{well_b};
ghost use Rattle.format.specs.Format.{answer_words};
ghost use Rattle.request.specs.Answers.{cleared};
ghost use Rattle.answer.specs.Does.{both};
ghost use Rattle.layout.specs.Layout.{total};
ghost use Rattle.model.specs.Words.{read_list};
ghost use Rattle.contract.specs.Meets.{called, Meets};
ghost use Rattle.contract.specs.Run.{list_r};
ghost use Rattle.contract.specs.Call.{done, requests_w, checked_w, within_w, run_w};
ghost use Rattle.serve.specs.Serve.{one_r};
ghost use Rattle.format.specs.Refusals.{number_of};

use format::field;
use format::refusal::{self, Refusal};
use layout::Shape;
use request::Record;

// The request that is a record of the list, whose answer's 72 words begin at a base.
fn run_one(s: &mut [u64], sh: Shape, rq: &Record, out: &mut [u64], base: usize)
    ensures { both s.new out.new ≡ one_r s.old (cleared out.old base answer_words) sh rq.now.words.now rq.now.at base }
{
    request::clear_answer(out, base);
    let op = rq.field(field::FIELD_OP);
    serve::serve(s, sh, rq, op, out, base);
}

// "Then every request runs; a refused one does not stop the next": n requests, for whose answers there are words enough. The answer's place goes on with the record's, as in `list_r`: by i times 72 it would be computed anew, and the invariant no shorter.
#[tactic(auto, using(crate::proofs::Steps::list_step, crate::proofs::Steps::list_done))]
fn run_all(s: &mut [u64], sh: Shape, list: &[u64], n: u64, out: &mut [u64])
    requires { answer_words * n ≤ length out.old }
    ensures { both s.new out.new ≡ list_r one_r n s.old out.old sh list.now 0 0 }
{
    let mut rq = Record { words: list, at: 0 };
    let mut base: usize = 0;
    for i in 0..n {
        run_one(s, sh, &rq, out, base);
        rq.at = rq.next_request();
        base += format::size::ANSWER_PLACES;
    }
}

// "answer length 20"; then every request runs.
fn answer_all(s: &mut [u64], sh: Shape, rq: &[u64], n: u64, out: &mut [u64]) -> Result<(), Refusal>
    ensures { called (number_of result) s.new out.new ≡ pick (ltb (length out.old) (answer_words * n)) (called 20 s.old out.old) (done (list_r one_r n s.old out.old sh rq.now 0 0)) }
{
    if request::answers_short(out, n) {
        return Err(Refusal::AnswerShort);
    }
    run_all(s, sh, rq, n, out);
    Ok(())
}

// "list 19".
fn run_list(s: &mut [u64], sh: Shape, rq: &[u64], out: &mut [u64]) -> Result<(), Refusal>
    ensures { called (number_of result) s.new out.new ≡ requests_w one_r well_b s.old out.old sh rq.now (read_list rq.now) }
{
    match request::list_ok(rq) {
        Some(n) => answer_all(s, sh, rq, n, out),
        None => Err(Refusal::Malformed),
    }
}

// "state check 18".
fn run_checked(s: &mut [u64], sh: Shape, rq: &[u64], out: &mut [u64]) -> Result<(), Refusal>
    ensures { called (number_of result) s.new out.new ≡ checked_w one_r well_b s.old rq.now out.old sh }
{
    if !wellformed::check(s, sh) {
        return Err(Refusal::Misuse);
    }
    run_list(s, sh, rq, out)
}

// The state's words alone: those past its end are not lent on.
fn run_within(s: &mut [u64], sh: Shape, rq: &[u64], out: &mut [u64]) -> Result<(), Refusal>
    requires { total sh ≤ length s.old }
    ensures { called (number_of result) s.new out.new ≡ within_w one_r well_b s.old rq.now out.old sh }
{
    let end = layout::total_of(sh) as usize;
    run_checked(&mut s[0..end], sh, rq, out)
}

// The whole call, by the shape that the header gives.
#[tactic(auto, unfolding(contract::specs::Call::run_w), using(crate::proofs::Steps::shape_room))]
fn run(s: &mut [u64], rq: &[u64], out: &mut [u64]) -> Result<(), Refusal>
    ensures { called (number_of result) s.new out.new ≡ run_w one_r well_b s.old rq.now out.old }
{
    match layout::shape_of(s) {
        Some(sh) => run_within(s, sh, rq, out),
        None => Err(Refusal::Misuse),
    }
}

// A list of requests on a state. The result is 18, 19 or 20 and no lent word has changed, or 0 and every request has run: a number, since C calls it.
#[tactic(auto, using(crate::specs::Both::run_both))]
pub fn gurtxozal_run(state: &mut [u64], list: &[u64], answers: &mut [u64]) -> u64
    ensures words { called result state.new answers.new ≡ run_w one_r well_b state.old list.now answers.old }
    ensures meets { Meets state.old list.now answers.old (called result state.new answers.new) }
{
    wellformed::are_words(state);
    refusal::number_of(run(state, list, answers))
}
