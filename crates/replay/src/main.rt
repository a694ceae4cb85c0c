// Replays recorded lists on the port. Standard input is a stream of words, the low byte first, and holds records:
//   1, n, n words          a new state from these parameters, in words that hold a pattern
//   2, n, n words          a state of these words
//   3, m, n, n words       a call with this list, on the state, with m answer words that hold a fill
//   4                      the state is shown
// Each record has one line of standard output:
//   start R                the result of creation, or of an empty list on the given words
//   R W .. kept K          a call's result and answer words, without the zeros at their end; the last K of the lent words still hold the fill
//   state W ..             the state's words
// R and K are decimal. A word W is hexadecimal, and W*n stands for n times W. A record that has no room is read to its end, and its line says so; a start that
// has none leaves a state of no words.
// It reads and writes by `io`. A small program that read and printed words by `std::io` rested on C's lseek and errno too, and this one is to rest on read and write alone.
#![tactic(auto)]

ghost use Rattle.std.specs.Prelude.{◌≡◌, ◌≤◌, length, take, IfSome};
ghost use Rattle.replay.specs.Runs.{word_of, Cut, Run, Past};

// What state words hold before a creation.
const PATTERN: u64 = 0x5c5c_c5c5_5c5c_c5c5;

// What answer words hold before a call.
const FILL: u64 = 0xa5a5_5a5a_a5a5_5a5a;

// The rooms are arrays of a fixed size, and a length stands beside the state's: the project has no heap.
// Words of room for a state: the largest of the recorded lists that are replayed, but for those with 262,144 pages, has 15,508.
const STATE_ROOM: usize = 16384;

// Words of room for a list or for answers.
const CALL_ROOM: usize = 512;

// A word from its bytes, the lowest first.
fn word_of(bytes: &[u8; 8]) -> u64
    ensures { result ≡ word_of bytes.now }
{
    u64::from_le_bytes(*bytes)
}

// The next word, if the input has one.
fn read_word() -> Option<u64> {
    let mut bytes = [0; 8];
    if io::read_full(0, &mut bytes) < bytes.len() {
        return None;
    }
    Some(word_of(&bytes))
}

// Reads n words into a room, those for which it has room, if the input has them all.
#[tactic(auto, using(crate::specs::Runs::past_more))]
fn fetch(room: &mut [u64], n: usize) -> Option<()>
    ensures { Past n room.old room.new }
{
    for i in 0..n {
        words::put(room, i, read_word()?);
    }
    Some(())
}

// The words without those at their end that hold v.
fn cut(words: &[u64], v: u64) -> &[u64]
    ensures cut { Cut words.now (length words.now) v (length result.now) }
    ensures front { result.now ≡ take (length result.now) words.now }
{
    let n = words
        .iter()
        .rposition(|w| *w != v)
        .map_or(0, |last| last + 1);
    &words[..n]
}

// Writes the word of a run, and how many times it stands there if that is not once.
fn say_run(words: &[u64], at: usize, end: usize)
    requires { Run words.now at (length words.now) end }
{
    io::write_all(1, b" ");
    io::print_hex(1, words[at], 1);
    if end - at > 1 {
        io::write_all(1, b"*");
        io::print_decimal(1, (end - at) as u64);
    }
}

// Writes the words, one run of equal words after the other.
fn say_words(words: &[u64]) {
    let mut at = 0;
    for i in 0..words.len() {
        if words.get(i + 1) != Some(&words[at]) {
            say_run(words, at, i + 1);
            at = i + 1;
        }
    }
}

fn say_start(r: u64) {
    io::write_all(1, b"start ");
    io::print_decimal(1, r);
    io::write_all(1, b"\n");
}

fn say_answer(r: u64, answers: &[u64]) {
    let changed = cut(answers, FILL);
    io::print_decimal(1, r);
    say_words(cut(changed, 0));
    io::write_all(1, b" kept ");
    io::print_decimal(1, (answers.len() - changed.len()) as u64);
    io::write_all(1, b"\n");
}

fn say_no_room(n: u64) {
    io::write_all(1, b"no room for ");
    io::print_decimal(1, n);
    io::write_all(1, b" words\n");
}

fn creation(state: &mut [u64], list: &mut [u64]) -> Option<usize>
    ensures { IfSome result (λ n. n ≤ length state.new) }
{
    let n = read_word()?;
    fetch(list, n as usize)?;
    let Some(list) = list.get(..n as usize) else {
        say_no_room(n);
        return Some(0);
    };
    state.fill(PATTERN);
    say_start(create::gurtxozal_create(state, list));
    Some(state.len())
}

fn given(state: &mut [u64]) -> Option<usize>
    ensures { IfSome result (λ n. n ≤ length state.new) }
{
    let n = read_word()?;
    fetch(state, n as usize)?;
    let Some(state) = state.get_mut(..n as usize) else {
        say_no_room(n);
        return Some(0);
    };
    say_start(runner::gurtxozal_run(state, &[], &mut []));
    Some(state.len())
}

fn call(state: &mut [u64], list: &mut [u64], answers: &mut [u64]) -> Option<()> {
    let lent = read_word()?;
    let n = read_word()?;
    fetch(list, n as usize)?;
    let Some(list) = list.get(..n as usize) else {
        say_no_room(n);
        return Some(());
    };
    let Some(answers) = answers.get_mut(..lent as usize) else {
        say_no_room(lent);
        return Some(());
    };
    answers.fill(FILL);
    say_answer(runner::gurtxozal_run(state, list, answers), answers);
    Some(())
}

fn show(state: &[u64]) {
    io::write_all(1, b"state");
    say_words(state);
    io::write_all(1, b"\n");
}

// One record, on the state in the first `len` words of its room: how many words the state has then, if the input goes on.
// Its kind is a number of the input that is asked here alone: an enum of the kinds would be made by one match and asked by a second.
fn record(state: &mut [u64], len: usize, list: &mut [u64], answers: &mut [u64]) -> Option<usize>
    requires { len ≤ length state.old }
    ensures { IfSome result (λ n. n ≤ length state.new) }
{
    match read_word()? {
        1 => creation(state, list),
        2 => given(state),
        3 => {
            call(&mut state[..len], list, answers)?;
            Some(len)
        }
        4 => {
            show(&state[..len]);
            Some(len)
        }
        _ => {
            io::write_all(1, b"no such record\n");
            None
        }
    }
}

// A proved loop has to end, and nothing says that the input does: the turns are more than any run uses up.
fn replay(state: &mut [u64], list: &mut [u64], answers: &mut [u64]) {
    let mut len = 0;
    for _ in 0..u64::MAX {
        let Some(n) = record(state, len, list, answers) else {
            return;
        };
        len = n;
    }
}

fn main() {
    let mut state = [0; STATE_ROOM];
    let mut list = [0; CALL_ROOM];
    let mut answers = [0; CALL_ROOM];
    replay(&mut state, &mut list, &mut answers);
}
