// A whole message: one element string after the other.
ghost use Rattle.std.specs.Prelude.{◌≡◌, ◌≤◌, length};
ghost use Rattle.refusal.specs.Fills.{answer_of};
ghost use Rattle.elements.specs.Strings.{parsed};

use refusal::Refusal;

// The count of a message's element strings, or the refusal of the first bad one. A string that another one follows has four bytes or
// more, so twelve places hold the identifiers used. No memory is made, so these stand in an array with their count.
pub fn count(message: &[u8]) -> Result<usize, Refusal>
    requires { length message.now ≤ 48 }
    ensures { result ≡ answer_of (parsed message.now) }
{
    let mut used = [0usize; 12];
    let mut count = 0;
    let mut at = 0;
    // A `loop`: how far the next string is, only this one tells.
    loop {
        let element = crate::string_at(message, at)?;
        if used[..count].contains(&element.identifier) {
            return Err(Refusal::Repeated(at));
        }
        if element.last {
            return Ok(count + 1);
        }
        used[count] = element.identifier;
        count += 1;
        at = element.next;
    }
}
