// Adding an element string to a message in a lent buffer.
#![tactic(auto)]

ghost use Rattle.refusal.specs.Fills.{Fills};
ghost use Rattle.adding.specs.Adding.{adds};

use refusal::Refusal;

mod composing;
mod judging;

// Adds an element string to the message of so many bytes in a buffer: the new length; or refusal 1, 2, 9, 10, 11, 8 or 12, tested in
// that order.
pub fn add(
    buffer: &mut [u8],
    count: usize,
    identifier: usize,
    content: &[u8],
) -> Result<usize, Refusal>
    ensures { Fills (adds buffer.old count identifier content.now) buffer.old result buffer.new }
{
    if 48 < count || buffer.len() < count {
        return Err(Refusal::Count);
    }
    let closing = judging::judge(&buffer[..count], identifier, content)?;
    composing::compose(buffer, count, closing, identifier, content)
}
