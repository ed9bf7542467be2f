// Whether an element string may be added to a message, and what stands before it then.
ghost use Rattle.std.specs.Prelude.{◌≡◌, List, ◌≤◌, length};
ghost use Rattle.refusal.specs.Outcome.{made};
ghost use Rattle.refusal.specs.Fills.{answer_of};
ghost use Rattle.elements.specs.declared.Element.{Element};
ghost use Rattle.elements.specs.Messages.{closing};
ghost use Rattle.adding.specs.Adding.{sofar, unused_in, judged};

use elements::Element;
use identifiers::contents;
use refusal::Refusal;

// How many bytes stand between the message so far and the new string; or refusal 2, 9, 10, 11 or 8.
pub fn judge(old: &[u8], identifier: usize, content: &[u8]) -> Result<usize, Refusal>
    requires { length old.now ≤ 48 }
    ensures { result ≡ answer_of (judged old.now identifier content.now) }
{
    test_old(old)?;
    let (_, kind) = identifiers::row_of(identifier).ok_or(Refusal::Identifier(old.len()))?;
    if !contents::right_data(kind, content) {
        return Err(Refusal::Data(old.len()));
    }
    let closing = closing_of(old, identifier)?;
    let end = old.len() + closing + identifiers::digits_of(identifier);
    if 48 < end + content.len() {
        return Err(Refusal::Sequence);
    }
    Ok(closing)
}

// The test of the message so far; nothing is tested in a fresh one.
fn test_old(old: &[u8]) -> Result<usize, Refusal>
    ensures { result ≡ answer_of (sofar old.now) }
{
    if old.is_empty() {
        return Ok(0);
    }
    elements::test(old)
}

// What stands after the last string of a message that is right, unless one of its strings has the identifier: refusal 11.
fn closing_of(old: &[u8], identifier: usize) -> Result<usize, Refusal>
    ensures { (strings : List Element) → sofar old.now ≡ made strings → result ≡ answer_of (unused_in strings identifier (length old.now)) }
{
    if old.is_empty() {
        return Ok(0);
    }
    let element = elements::sought(old, identifier)?;
    if element.identifier == identifier {
        return Err(Refusal::Repeated(old.len()));
    }
    Ok(closing_after(element.identifier))
}

// How many bytes stand after a string that another one follows.
fn closing_after(identifier: usize) -> usize
    ensures { result ≡ length (closing identifier) }
{
    let Some((_, kind)) = identifiers::row_of(identifier) else {
        return 0;
    };
    if kind.predefined { 0 } else { 1 }
}
