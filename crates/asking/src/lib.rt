// Asking a message for one identifier: its data as the message's own bytes, and the companion call that tells why there is none.
#![tactic(auto)]

ghost use Rattle.std.specs.Prelude.{◌≡◌};
ghost use Rattle.refusal.specs.Fills.{answered};
ghost use Rattle.asking.specs.Asking.{asked, part_of, length_of};

use elements::Element;
use refusal::Refusal;

// The data of an identifier's element string, as that part of the message itself; an empty part where there is none.
pub fn ask(message: &[u8], identifier: usize) -> &[u8]
    ensures { result.now ≡ part_of message.now (asked message.now identifier) }
{
    let Ok(element) = find(message, identifier) else {
        return &message[..0];
    };
    let end = element.begin + element.length;
    &message[element.begin..end]
}

// The length of what `ask` gives; or refusal 1, 2, 9, 10, 11 or 13.
pub fn asked(message: &[u8], identifier: usize) -> Result<usize, Refusal>
    ensures { result ≡ answered (length_of (asked message.now identifier)) }
{
    let element = find(message, identifier)?;
    Ok(element.length)
}

// The string of an identifier, once the whole message was tested; or refusal 1, 2, 9, 10, 11 or 13.
fn find(message: &[u8], identifier: usize) -> Result<Element, Refusal>
    ensures { result ≡ answered (asked message.now identifier) }
{
    elements::test(message)?;
    let element = elements::sought(message, identifier)?;
    if element.identifier != identifier {
        return Err(Refusal::Absent);
    }
    Ok(element)
}
