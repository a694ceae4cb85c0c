// Question four of a paper on retail systems: basket order never alters the total. The example of docs/reading.md.
#![tactic(auto)]

ghost use Rattle.std.specs.Prelude.{◌≡◌, min};
ghost use Rattle.basket.specs.Basket.{total};

// What the prices of a basket come to; the largest word where that does not fit a word.
#[tactic(auto, using(crate::proofs::Turns::one_more))]
fn total(prices: &[u64]) -> u64
    ensures { result ≡ min (total prices.now) 0xffff_ffff_ffff_ffff }
{
    let mut sum: u64 = 0;
    for price in prices {
        sum = sum.saturating_add(*price);
    }
    sum
}

// A loaf, rolls and a cheese, in cents, rung up in two orders. The proof of `main` shows that both checks hold.
fn main() {
    check::expect(total(&[420, 180, 950]) == 1550);
    check::expect(total(&[950, 420, 180]) == 1550);
}
