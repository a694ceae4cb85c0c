// The answer of one request, in the words that begin at a base: a refusal's number, or 0 and the words of what was done.
// The answers' words and the base are two parameters. One struct of both was tried, with `refuse` and two stores as its methods: it proves, but where it is given by value the contract must
// call its words `self.exit.0.now`, since a moved struct has no field names there; and where it is lent, two clauses more say that the base and the lent words stay.
#![tactic(auto)]

ghost use Rattle.std.specs.Prelude.{◌≡◌, [], ◌∷◌};
ghost use Rattle.answer.specs.Does.{answered, reply, no_words};

use format::refusal::{DONE, Refusal};

// "The first of the 72 is the number; after a refusal the rest are 0".
#[tactic(auto, unfolding(request::specs::Answers::puts))]
pub fn refuse(out: &mut [u64], base: usize, n: u64)
    ensures { out.new ≡ answered out.old base (n ∷ []) }
{
    request::answer_put(out, base, 0, n);
}

// Done, with the words of what was done.
#[tactic(auto, unfolding(request::specs::Answers::puts), using(crate::specs::Code::one_more))]
pub fn say(out: &mut [u64], base: usize, words: &[u64])
    ensures { out.new ≡ answered out.old base (0 ∷ words.now) }
{
    request::answer_put(out, base, 0, DONE);
    for (i, word) in words.iter().enumerate() {
        request::answer_put(out, base, i + 1, *word);
    }
}

// The number alone: a refusal's, or 0 where a request says no more than that it is done.
#[tactic(auto, unfolding(request::specs::Answers::puts), using(crate::specs::Code::number_alone))]
pub fn outcome(out: &mut [u64], base: usize, outcome: Result<(), Refusal>)
    ensures { out.new ≡ answered out.old base (reply no_words outcome) }
{
    request::answer_put(out, base, 0, format::refusal::number_of(outcome));
}
