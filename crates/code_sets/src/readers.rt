// The readers of sets A, B and C. Each reads a run of values in its set, and at a change hands on to the reader of the next. They write to a
// list of the call's own.
ghost use Rattle.std.specs.Prelude.{◌≡◌, true, [], ◌∷◌, ◌+◌, ◌/◌, ◌%◌, ◌≤◌, ◌<◌, length, take, drop};
ghost use Rattle.character_set_82.specs.Characters.{is_of82};
ghost use Rattle.refusal.specs.Fills.{FillsOwn};
ghost use Rattle.code_sets.specs.Sets.{set_a, set_b, set_c};
ghost use Rattle.code_sets.specs.Reading.{in_set, shifted_from};
ghost use Rattle.code_sets.specs.Readers.{read_on, changed, Runs, RunPuts};

use crate::sets;
use crate::sets::{Meaning, Set};
use character_set_82::SEPARATOR;
use refusal::Refusal;

// How far a reading has come: the place of the next value, and how many bytes of the text stand in the list. It goes on in the same set or
// in another.
#[derive(Clone, Copy)]
pub enum Run {
    On(usize, usize),
    ToA(usize, usize),
    ToB(usize, usize),
    ToC(usize, usize),
}

// Document 01, "Where to use each form", names the form: three readers that call each other at a change.
// They are alike but for their set. No value changes to the set that is being read, so a reader never calls itself.
#[cycle(readers)]
pub fn read_a(values: &[u8], from: usize, text: &mut [u8; 48], at: usize) -> Result<usize, Refusal>
    requires { (from ≤ length values.now) × (at ≤ 48) }
    ensures { FillsOwn (read_on (take at text.old) (in_set set_a) (drop from values.now)) text.old result text.new }
{
    match run_in(Set::A, values, from, text, at)? {
        Run::On(_, n) => Ok(n),
        Run::ToA(i, n) => read_a(values, i, text, n),
        Run::ToB(i, n) => read_b(values, i, text, n),
        Run::ToC(i, n) => read_c(values, i, text, n),
    }
}

#[cycle(readers)]
pub fn read_b(values: &[u8], from: usize, text: &mut [u8; 48], at: usize) -> Result<usize, Refusal>
    requires { (from ≤ length values.now) × (at ≤ 48) }
    ensures { FillsOwn (read_on (take at text.old) (in_set set_b) (drop from values.now)) text.old result text.new }
{
    match run_in(Set::B, values, from, text, at)? {
        Run::On(_, n) => Ok(n),
        Run::ToA(i, n) => read_a(values, i, text, n),
        Run::ToB(i, n) => read_b(values, i, text, n),
        Run::ToC(i, n) => read_c(values, i, text, n),
    }
}

#[cycle(readers)]
pub fn read_c(values: &[u8], from: usize, text: &mut [u8; 48], at: usize) -> Result<usize, Refusal>
    requires { (from ≤ length values.now) × (at ≤ 48) }
    ensures { FillsOwn (read_on (take at text.old) (in_set set_c) (drop from values.now)) text.old result text.new }
{
    match run_in(Set::C, values, from, text, at)? {
        Run::On(_, n) => Ok(n),
        Run::ToA(i, n) => read_a(values, i, text, n),
        Run::ToB(i, n) => read_b(values, i, text, n),
        Run::ToC(i, n) => read_c(values, i, text, n),
    }
}

// Reads in one set, up to a change, or on to the end of the values.
fn run_in(
    set: Set,
    values: &[u8],
    from: usize,
    text: &mut [u8; 48],
    at: usize,
) -> Result<Run, Refusal>
    requires { (from ≤ length values.now) × (at ≤ 48) }
    ensures { Runs (in_set set) set values.now from text.old at (length values.now) result text.new }
{
    let mut i = from;
    let mut n = at;
    // A shift takes two values, so the steps differ.
    while i < values.len() {
        let turn = turn_in(set, values, i, text, n)?;
        let Run::On(next, count) = turn else {
            return Ok(turn);
        };
        i = next;
        n = count;
    }
    Ok(Run::On(i, n))
}

// Reads one value, or a shift and the value after it.
fn turn_in(set: Set, values: &[u8], i: usize, text: &mut [u8; 48], n: usize) -> Result<Run, Refusal>
    requires { (i < length values.now) × (n ≤ 48) }
    ensures { Runs (in_set set) set values.now i text.old n (i + 1) result text.new }
{
    let next = i + 1;
    match sets::meaning_in(set, values[i]) {
        Meaning::Byte(byte) => put_byte(byte, next, text, n),
        Meaning::Pair(pair) => put_pair(pair, next, text, n),
        Meaning::Change(to) => Ok(change_to(to, next, n)),
        Meaning::Shift => shifted_in(set, values, next, text, n),
        Meaning::Separator => put(&[SEPARATOR], next, text, n),
        Meaning::Illegal => Err(Refusal::Sequence),
    }
}

fn change_to(next: Set, i: usize, n: usize) -> Run
    ensures { result ≡ changed next i n }
{
    match next {
        Set::A => Run::ToA(i, n),
        Set::B => Run::ToB(i, n),
        Set::C => Run::ToC(i, n),
    }
}

// "Shift reads the next character only in the other of A and B; that must be 0 to 95."
fn shifted_in(
    set: Set,
    values: &[u8],
    i: usize,
    text: &mut [u8; 48],
    n: usize,
) -> Result<Run, Refusal>
    requires { (i ≤ length values.now) × (n ≤ 48) }
    ensures { Runs (shifted_from set) set values.now i text.old n i result text.new }
{
    if values.len() <= i {
        return Err(Refusal::Sequence);
    }
    let value = values[i];
    if sets::BYTES <= value {
        return Err(Refusal::Sequence);
    }
    put_byte(sets::byte_in(sets::other_of(set), value), i + 1, text, n)
}

// Puts a byte, if it is one of the 82, and goes on at a place of the values.
fn put_byte(byte: u8, next: usize, text: &mut [u8; 48], n: usize) -> Result<Run, Refusal>
    requires { n ≤ 48 }
    ensures { RunPuts (is_of82 byte) (byte ∷ []) next n text.old result text.new }
{
    if character_set_82::is_of_82(byte) {
        put(&[byte], next, text, n)
    } else {
        Err(Refusal::Sequence)
    }
}

fn put_pair(pair: u8, next: usize, text: &mut [u8; 48], n: usize) -> Result<Run, Refusal>
    requires { n ≤ 48 }
    ensures { RunPuts true ((48 + pair / 10) ∷ (48 + pair % 10) ∷ []) next n text.old result text.new }
{
    put(&[b'0' + pair / 10, b'0' + pair % 10], next, text, n)
}

fn put(bytes: &[u8], next: usize, text: &mut [u8; 48], n: usize) -> Result<Run, Refusal>
    requires { n ≤ 48 }
    ensures { RunPuts true bytes.now next n text.old result text.new }
{
    let end = n + bytes.len();
    if text.len() < end {
        return Err(Refusal::Sequence);
    }
    text[n..end].copy_from_slice(bytes);
    Ok(Run::On(next, end))
}
