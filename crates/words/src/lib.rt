// Words that a caller lends: reads and stores that are exact for every index.
#![tactic(auto)]

ghost use Rattle.std.specs.Prelude.{◌≡◌, get_or, set};

// The word at a place; 0 past the end.
pub fn word(s: &[u64], at: usize) -> u64
    ensures { result ≡ get_or s.now at 0 }
{
    s.get(at).copied().unwrap_or(0)
}

// Puts a word at a place; nothing past the end.
// By an index: `get_mut` was tried, and the proof did not close, since its contract does not say what the words end as.
pub fn put(s: &mut [u64], at: usize, v: u64)
    ensures { s.new ≡ set s.old at v }
{
    if at < s.len() {
        s[at] = v;
    }
}
