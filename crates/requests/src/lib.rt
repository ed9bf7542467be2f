// A line of the desk as a request: which call it asks for, how many places that is lent, and where its arguments begin; or what is wrong with it.
#![tactic(auto)]

ghost use Rattle.std.specs.Prelude.{◌≡◌, ◌≤◌, length, unwrap_or};
ghost use Rattle.requests.specs.Requests.{request_of, in_room, call_at, leading_of, capped, Within, LeadsWithin};

use symbols::Kind;

pub mod faults;
mod words;

#[derive(Clone, Copy)]
pub enum Word {
    Digit,
    Draw(Kind),
    // as a symbol of a named kind, or of the one that the list has
    Read(Option<Kind>),
    Test,
    Split,
    Ask,
    Add,
}

// The arguments, by what stands for them in `help`.
#[derive(Clone, Copy)]
pub enum Argument {
    Places,
    Call,
    Digits,
    Number,
    Message,
    Widths,
    Identifier,
    Data,
}

#[derive(Clone, Copy)]
pub enum Fault {
    Empty,
    NoSuchCall,
    Missing(Argument),
    Malformed(Argument),
}

// A call with the count of places that it is lent, and where its arguments begin in the line.
#[derive(Clone, Copy)]
pub enum Request {
    Call(Word, usize, usize),
    Help,
}

// No identifier has five digits, so this one stands for every number from it on.
pub const UNLISTED: usize = 10000;

// What a line asks for: a call, before which `room N ` may stand, or `help`.
pub fn request_of(line: &[u8]) -> Result<Request, Fault>
    ensures value { result ≡ request_of line.now }
    ensures within { Within result (length line.now) }
{
    if line.len() == 0 {
        return Err(Fault::Empty);
    }
    let end = lines::word_end(line, 0);
    if !patterns::equal(&line[0..end], b"room") {
        return call_at(line, 0, None);
    }
    if end == line.len() {
        return Err(Fault::Missing(Argument::Places));
    }
    in_room(line, end + 1)
}

// What follows `room `: a number of places, and then a call.
fn in_room(line: &[u8], from: usize) -> Result<Request, Fault>
    requires { from ≤ length line.now }
    ensures value { result ≡ in_room line.now from }
    ensures within { Within result (length line.now) }
{
    let end = lines::word_end(line, from);
    let Some(places) = text::number_in(&line[from..end], 700) else {
        return Err(Fault::Malformed(Argument::Places));
    };
    if end == line.len() {
        return Err(Fault::Missing(Argument::Call));
    }
    call_at(line, end + 1, Some(places))
}

// The call that begins at a place, and is lent as many places as `room N ` says, or else the usual ones.
fn call_at(line: &[u8], from: usize, room: Option<usize>) -> Result<Request, Fault>
    requires from_in_bounds { from ≤ length line.now }
    requires room_bound { unwrap_or room 700 ≤ 700 }
    ensures value { result ≡ call_at line.now from room }
    ensures within { Within result (length line.now) }
{
    let end = lines::word_end(line, from);
    let word = &line[from..end];
    if patterns::equal(word, b"help") {
        return Ok(Request::Help);
    }
    let Some(named) = words::find(word) else {
        return Err(Fault::NoSuchCall);
    };
    if end == line.len() {
        return Err(Fault::Missing(named.first));
    }
    Ok(Request::Call(named.call, room.unwrap_or(named.usual), end + 1))
}

// The identifier before the first space, where another argument must follow; and where that begins.
pub fn identifier_in(typed: &[u8], next: Argument) -> Result<(usize, usize), Fault>
    ensures value { result ≡ capped (leading_of typed.now next) }
    ensures leads_within { LeadsWithin result (length typed.now) }
{
    let end = lines::word_end(typed, 0);
    let Some(identifier) = text::capped_in(&typed[0..end], UNLISTED) else {
        return Err(Fault::Malformed(Argument::Identifier));
    };
    if end == typed.len() {
        return Err(Fault::Missing(next));
    }
    Ok((identifier, end + 1))
}
