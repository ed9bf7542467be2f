// A message asked for an identifier, and added to.
ghost use Rattle.std.specs.Prelude.{◌≤◌, length};
ghost use Rattle.text.specs.Puts.{Puts};
ghost use Rattle.calls.specs.Answers.{asked_line, ask_typed, added_line, add_after, add_typed};

use answers::{Form, put_answer, put_counted, put_made};
use requests::faults::put_fault;
use requests::{Argument, Fault};

pub fn ask(typed: &[u8], out: &mut [u8]) -> usize
    requires { 1024 ≤ length out.old }
    ensures { Puts (ask_typed typed.now) out.old result out.new }
{
    match requests::identifier_in(typed, Argument::Message) {
        Ok((identifier, from)) => put_asked(&typed[from..], identifier, out),
        Err(fault) => put_fault(fault, out),
    }
}

fn put_asked(message: &[u8], identifier: usize, out: &mut [u8]) -> usize
    requires { 1024 ≤ length out.old }
    ensures { Puts (asked_line message.now identifier) out.old result out.new }
{
    let answer = asking::asked(message, identifier);
    let Ok(_) = answer else {
        return put_answer(answer, out);
    };
    put_counted(Form::Bytes, b" ", asking::ask(message, identifier), out)
}

pub fn add(typed: &[u8], buffer: &mut [u8], out: &mut [u8]) -> usize
    requires buffer_len_bound { length buffer.old ≤ 700 }
    requires in_bounds { 1024 ≤ length out.old }
    ensures { Puts (add_typed (length buffer.old) typed.now) out.old result out.new }
{
    match requests::identifier_in(typed, Argument::Data) {
        Ok((identifier, from)) => add_data(identifier, &typed[from..], buffer, out),
        Err(fault) => put_fault(fault, out),
    }
}

// Goes on after the identifier: the data up to a space, and then the message.
fn add_data(identifier: usize, typed: &[u8], buffer: &mut [u8], out: &mut [u8]) -> usize
    requires buffer_len_bound { length buffer.old ≤ 700 }
    requires in_bounds { 1024 ≤ length out.old }
    ensures { Puts (add_after (length buffer.old) identifier typed.now) out.old result out.new }
{
    let end = lines::word_end(typed, 0);
    if end == typed.len() {
        return put_fault(Fault::Missing(Argument::Message), out);
    }
    let from = end + 1;
    add_to(identifier, &typed[..end], &typed[from..], buffer, out)
}

// The buffer holds as much of the message as fits, and the length given is the message's own.
fn add_to(
    identifier: usize,
    content: &[u8],
    message: &[u8],
    buffer: &mut [u8],
    out: &mut [u8],
) -> usize
    requires buffer_len_bound { length buffer.old ≤ 700 }
    requires in_bounds { 1024 ≤ length out.old }
    ensures { Puts (added_line (length buffer.old) identifier content.now message.now) out.old result out.new }
{
    text::put_fitting(message, buffer);
    let answer = adding::add(buffer, message.len(), identifier, content);
    put_made(answer, Form::Bytes, b" ", buffer, out)
}
