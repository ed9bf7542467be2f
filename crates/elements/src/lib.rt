// Element strings: one at a time, and the test of a whole message.
#![tactic(auto)]

ghost use Rattle.std.specs.Prelude.{◌≡◌, List};
ghost use Rattle.refusal.specs.Outcome.{made};
ghost use Rattle.refusal.specs.Fills.{answer_of, answered};
ghost use Rattle.elements.specs.declared.Element.{Element};
ghost use Rattle.elements.specs.Strings.{string_at, parsed, tested};
ghost use Rattle.elements.specs.Found.{sought};

use character_set_82::is_message_byte;
use identifiers::contents;
use refusal::Refusal;

mod messages;
mod strings;

// An element string as it stands in a message: the identifier as a number, where its data begins and how long it is; where the next
// string must begin, unless this is the last. `next` is no `Option`: the definition `string_at` says it of the last string too.
#[derive(Clone, Copy)]
pub struct Element {
    pub identifier: usize,
    pub begin: usize,
    pub length: usize,
    pub next: usize,
    pub last: bool,
}

// Tests a whole message: the count of its element strings, or refusal 1, 2, 9, 10 or 11.
pub fn test(message: &[u8]) -> Result<usize, Refusal>
    ensures { result ≡ answer_of (tested message.now) }
{
    if !(1..=48).contains(&message.len()) {
        return Err(Refusal::Count);
    }
    if let Some(place) = message.iter().position(|byte| !is_message_byte(*byte)) {
        return Err(Refusal::Character(place));
    }
    messages::count(message)
}

// The element string that must begin at a place, or refusal 9 or 10.
pub fn string_at(message: &[u8], at: usize) -> Result<Element, Refusal>
    ensures { result ≡ answered (string_at message.now at) }
{
    if message.len() < at {
        return Err(Refusal::Identifier(at));
    }
    let (identifier, kind) = identifiers::row_at(&message[at..]).ok_or(Refusal::Identifier(at))?;
    let begin = at + identifiers::digits_of(identifier);
    let length = strings::data_length(kind, &message[begin..]);
    let end = begin + length;
    if !contents::right_data(kind, &message[begin..end]) {
        return Err(Refusal::Data(at));
    }
    Ok(Element {
        identifier,
        begin,
        length,
        next: strings::next_after(kind, end),
        last: end == message.len(),
    })
}

// The element string of an identifier, or else the last string, of a message that is right.
pub fn sought(message: &[u8], identifier: usize) -> Result<Element, Refusal>
    ensures { (strings : List Element) → parsed message.now ≡ made strings → result ≡ answered (sought identifier strings) }
{
    let mut at = 0;
    // A `loop`: how far the next string is, only this one tells.
    loop {
        let element = string_at(message, at)?;
        if element.identifier == identifier || element.last {
            return Ok(element);
        }
        at = element.next;
    }
}
