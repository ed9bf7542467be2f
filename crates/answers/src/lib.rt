// Lines of answer, as both programs print them: what a call made, or its refusal. Each function writes at the front of what it is lent, and
// answers the count of bytes written: no memory is made, and the room is a clause, since the bytes are lent as a slice.
#![tactic(auto)]

ghost use Rattle.std.specs.Prelude.{◌≡◌, ◌+◌, ◌≤◌, length};
ghost use Rattle.text.specs.Puts.{Puts};
ghost use Rattle.answers.specs.Lines.{shown_as, Shows, Made, numbers_line, answer_line, counted_line, made_line};

use refusal::Refusal;

// How a list is shown, an enum since the promise of a line names it: a digit for each width, or the bytes of a number or a message, with `^` for a separator.
#[derive(Clone, Copy)]
pub enum Form {
    Widths,
    Bytes,
}

// A line for the number that a call made, or its refusal.
pub fn put_answer(answer: Result<usize, Refusal>, out: &mut [u8]) -> usize
    requires { 42 ≤ length out.old }
    ensures { Puts (answer_line answer) out.old result out.new }
{
    match answer {
        Ok(n) => put_numbers(0, n, out),
        Err(refusal) => put_numbers(refusal.number(), refusal.place(), out),
    }
}

// A line for the list that a call made at the front of `list`, or its refusal.
pub fn put_made(
    answer: Result<usize, Refusal>,
    form: Form,
    between: &[u8],
    list: &[u8],
    out: &mut [u8],
) -> usize
    requires made { Made form answer list.now }
    requires between_in_bounds { length list.now + length between.now + 42 ≤ length out.old }
    ensures { Puts (made_line form between.now answer list.now) out.old result out.new }
{
    let Ok(n) = answer else {
        return put_answer(answer, out);
    };
    put_counted(form, between, &list[..n], out)
}

// A line for a whole list: its count, the text between, and the list.
pub fn put_counted(form: Form, between: &[u8], list: &[u8], out: &mut [u8]) -> usize
    requires shows { Shows form list.now }
    requires between_in_bounds { length list.now + length between.now + 42 ≤ length out.old }
    ensures { Puts (counted_line form between.now list.now) out.old result out.new }
{
    let at = text::put_pair(0, list.len(), out);
    let from = at + put_text(between, &mut out[at..]);
    let end = from + put_list(form, list, &mut out[from..]);
    out[end] = b'\n';
    end + 1
}

// Text that is the same for everyone.
pub fn put_text(text: &[u8], out: &mut [u8]) -> usize
    requires { length text.now ≤ length out.old }
    ensures { Puts text.now out.old result out.new }
{
    out[..text.len()].copy_from_slice(text);
    text.len()
}

fn put_numbers(first: usize, second: usize, out: &mut [u8]) -> usize
    requires { 42 ≤ length out.old }
    ensures { Puts (numbers_line first second) out.old result out.new }
{
    let at = text::put_pair(first, second, out);
    out[at] = b'\n';
    at + 1
}

fn put_list(form: Form, list: &[u8], out: &mut [u8]) -> usize
    requires shows { Shows form list.now }
    requires list_in_bounds { length list.now ≤ length out.old }
    ensures puts { Puts (shown_as form list.now) out.old result out.new }
    ensures value { result ≡ length list.now }
{
    match form {
        Form::Widths => text::put_widths(list, out),
        Form::Bytes => text::put_message(list, out),
    }
}
