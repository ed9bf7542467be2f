// The new element string after the message in a buffer.
ghost use Rattle.std.specs.Prelude.{◌≡◌, [], ◌∷◌, ◌++◌, ◌+◌, ◌≤◌, ◌<◌, length, take, drop};
ghost use Rattle.refusal.specs.Fills.{Fills, laying};
ghost use Rattle.character_set_82.specs.Characters.{separator};
ghost use Rattle.identifiers.specs.Identifiers.{spelled};

use refusal::Refusal;

// Writes what stands between and the new string after so many bytes of a buffer: the new length; or refusal 12.
pub fn compose(
    buffer: &mut [u8],
    count: usize,
    closing: usize,
    identifier: usize,
    content: &[u8],
) -> Result<usize, Refusal>
    requires count_in_bounds { count ≤ length buffer.old }
    requires closing_bound { closing ≤ 1 }
    requires identifier_bound { identifier < 10000 }
    requires content_bound { count + closing + length (spelled identifier) + length content.now ≤ 48 }
    ensures { Fills (laying (take count buffer.old ++ take closing (separator ∷ []) ++ spelled identifier ++ content.now) (length buffer.old)) buffer.old result buffer.new }
{
    let size = identifiers::digits_of(identifier);
    let end = count + closing + size + content.len();
    if buffer.len() < end {
        return Err(Refusal::Room);
    }
    let between = [character_set_82::SEPARATOR];
    let digits = identifiers::spelling(identifier);
    let mut at = put(&between[..closing], buffer, count);
    at = put(&digits[..size], buffer, at);
    Ok(put(content, buffer, at))
}

// Writes some bytes from a place of a list on, and answers where they end.
fn put(bytes: &[u8], to: &mut [u8], at: usize) -> usize
    requires { at + length bytes.now ≤ length to.old }
    ensures value { result ≡ at + length bytes.now }
    ensures to_after { to.new ≡ take at to.old ++ bytes.now ++ drop result to.old }
{
    let end = at + bytes.len();
    to[at..end].copy_from_slice(bytes);
    end
}
