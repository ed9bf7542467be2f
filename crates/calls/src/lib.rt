// The desk's lines and their answers. Nothing here reads or writes anything but the bytes it is lent.
#![tactic(auto)]

ghost use Rattle.std.specs.Prelude.{◌≡◌, ◌≤◌, length};
ghost use Rattle.text.specs.Puts.{Puts};
ghost use Rattle.calls.specs.Answers.{called, answer_by, answer_to};

use answers::put_answer;
use requests::{Request, Word, faults};

mod messages;
mod records;
mod symbol_lines;

// Room and places are clauses in this crate and not arrays of a fixed length: the bytes are lent as slices, of which arrays would have to be cut.
const LONGEST_LINE: usize = 4096;

// The most places that a call is lent.
const PLACES: usize = 700;

// Answers a line, given without its byte 10, whatever its length. The answer's last byte is its byte 10.
pub fn answer(line: &[u8], out: &mut [u8]) -> usize
    requires { 1024 ≤ length out.old }
    ensures puts { Puts (answer_to line.now) out.old result out.new }
    ensures upper_bound { result ≤ length out.old }
{
    if LONGEST_LINE < line.len() {
        return answers::put_text(b"error: a line has at most 4096 bytes\n", out);
    }
    let mut typed = [0u8; LONGEST_LINE];
    let mut list = [0u8; PLACES];
    let end = text::message_in(line, &mut typed);
    answer_typed(&typed[..end], &mut list, out)
}

// Answers a line in which every `^` has become the separator that it stands for. A call is lent the front of the list.
fn answer_typed(line: &[u8], list: &mut [u8; PLACES], out: &mut [u8]) -> usize
    requires line_len_bound { length line.now ≤ 4096 }
    requires in_bounds { 1024 ≤ length out.old }
    ensures { Puts (answer_by line.now) out.old result out.new }
{
    match requests::request_of(line) {
        Ok(Request::Call(word, places, from)) => call(
            word,
            &line[from..],
            &mut list[..places],
            out,
        ),
        Ok(Request::Help) => faults::put_help(out),
        Err(fault) => faults::put_fault(fault, out),
    }
}

// The words are closed, and each has its line of the rule, so a `match` says which.
fn call(word: Word, typed: &[u8], list: &mut [u8], out: &mut [u8]) -> usize
    requires list_len_bound { length list.old ≤ 700 }
    requires typed_len_bound { length typed.now ≤ 4096 }
    requires in_bounds { 1024 ≤ length out.old }
    ensures { Puts (called word (length list.old) typed.now) out.old result out.new }
{
    match word {
        Word::Digit => put_answer(digits::check_digit(typed), out),
        Word::Draw(kind) => symbol_lines::draw(kind, typed, list, out),
        Word::Read(which) => symbol_lines::read(which, typed, list, out),
        Word::Test => put_answer(elements::test(typed), out),
        Word::Split => records::split(typed, list.len(), out),
        Word::Ask => messages::ask(typed, out),
        Word::Add => messages::add(typed, list, out),
    }
}
