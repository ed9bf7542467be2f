// The best spelling of a message, in two passes: from the end on, a state at each place tells in which set the byte there is spelled;
// then the values are written.
#![tactic(auto)]

ghost use Rattle.std.specs.Prelude.{◌≡◌, true, false, cond, ◌++◌, ◌≤◌, ◌<◌, length, drop};
ghost use Rattle.laws.specs.First.{first_not};
ghost use Rattle.character_set_82.specs.Characters.{is_message_byte};
ghost use Rattle.spelling.specs.Best.{best_spelling};
ghost use Rattle.spelling.specs.States.{state_at, state_of, starts_in_c, StatesOf, Steps};

use character_set_82::SEPARATOR;

const FNC1: u8 = 102;

// The states below STAYS are those of a byte that is spelled in B, those from IN_C on of one that is spelled in C, and between them the
// set that is on stays on. They are numbers, since two tables are read by them. Each of these begins with the state of a separator; IN_B is that
// of any other byte too.
const IN_B: u8 = 0;

const STAYS: u8 = 4;

const IN_C: u8 = 12;

// The state at a digit and at a separator, by the state past it.
const AT_DIGIT: [u8; 16] = [1, 5, 6, 13, 2, 7, 10, 8, 11, 13, 14, 15, 3, 9, 10, 11];

const AT_SEPARATOR: [u8; 16] = [0, 0, 0, 0, 4, 4, 12, 4, 12, 0, 4, 12, 12, 12, 12, 12];

// One value, and how the spelling goes on: the place in the message, and whether set C is on.
#[derive(Clone, Copy)]
struct Step {
    value: u8,
    next: usize,
    c: bool,
}

// Writes the best spelling, a value at a time from the start on: the count of its values.
pub fn spell(message: &[u8], values: &mut [u8]) -> usize
    requires message_len_bound { length message.now ≤ 48 }
    requires message_value { first_not is_message_byte message.now ≡ length message.now }
    requires in_bounds { 50 ≤ length values.old }
    ensures value { result ≡ length (best_spelling message.now) }
    ensures values_after { values.new ≡ best_spelling message.now ++ drop result values.old }
{
    let mut states = [0u8; 48];
    let mut c = starts_in_c(plan(message, &mut states));
    values[0] = start_of(c);
    values[1] = FNC1;
    let mut n = 2;
    let mut i = 0;
    // A step goes on by one byte, by two, or at a change of set by none.
    while i < message.len() {
        let step = step_from(message, states[i], c, i);
        values[n] = step.value;
        n += 1;
        i = step.next;
        c = step.c;
    }
    n
}

fn starts_in_c(state: u8) -> bool
    requires { state < 16 }
    ensures { result ≡ starts_in_c state }
{
    AT_SEPARATOR[usize::from(state)] == IN_C
}

fn start_of(c: bool) -> u8
    ensures { result ≡ cond c 105 104 }
{
    if c { 105 } else { 104 }
}

// Finds the state at each place; and answers the first.
fn plan(message: &[u8], states: &mut [u8]) -> u8
    requires { length message.now ≤ length states.old }
    ensures value { result ≡ state_of message.now }
    ensures states_of { StatesOf message.now states.new }
{
    let mut state = STAYS;
    for i in (0..message.len()).rev() {
        state = state_at(message[i], state);
        states[i] = state;
    }
    state
}

// The state at a byte, by the state past it.
fn state_at(byte: u8, past: u8) -> u8
    requires { past < 16 }
    ensures { result ≡ state_at byte past }
{
    if digits::is_digit(byte) {
        AT_DIGIT[usize::from(past)]
    } else if byte == SEPARATOR {
        AT_SEPARATOR[usize::from(past)]
    } else {
        IN_B
    }
}

// The value at a place, in the set that is on, by the state there. What is known of message, place and state is said here and of both steps: a
// struct that holds it would be made in `spell` alone.
fn step_from(message: &[u8], state: u8, c: bool, at: usize) -> Step
    requires at_in_bounds { at < length message.now }
    requires message_value { first_not is_message_byte message.now ≡ length message.now }
    requires state_value { state ≡ state_of (drop at message.now) }
    ensures { Steps message.now c at result }
{
    if c {
        step_in_c(message, state, at)
    } else {
        step_in_b(message, state, at)
    }
}

// The change to C, or a byte's value.
fn step_in_b(message: &[u8], state: u8, at: usize) -> Step
    requires at_in_bounds { at < length message.now }
    requires message_value { first_not is_message_byte message.now ≡ length message.now }
    requires state_value { state ≡ state_of (drop at message.now) }
    ensures { Steps message.now false at result }
{
    if IN_C <= state {
        return Step {
            value: 99,
            next: at,
            c: true,
        };
    }
    let byte = message[at];
    if byte == SEPARATOR {
        return Step {
            value: FNC1,
            next: at + 1,
            c: false,
        };
    }
    Step {
        value: byte - 32,
        next: at + 1,
        c: false,
    }
}

// The change to B, FNC1 or two digits.
fn step_in_c(message: &[u8], state: u8, at: usize) -> Step
    requires at_in_bounds { at < length message.now }
    requires state_value { state ≡ state_of (drop at message.now) }
    ensures { Steps message.now true at result }
{
    if state < STAYS {
        return Step {
            value: 100,
            next: at,
            c: false,
        };
    }
    let byte = message[at];
    if byte == SEPARATOR {
        return Step {
            value: FNC1,
            next: at + 1,
            c: true,
        };
    }
    Step {
        value: 10 * (byte - b'0') + (message[at + 1] - b'0'),
        next: at + 2,
        c: true,
    }
}
