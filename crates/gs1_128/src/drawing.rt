// Drawing: the characters of a message, and six widths at a time for each.
ghost use Rattle.std.specs.Prelude.{◌≡◌, ◌++◌, ◌*◌, ◌≤◌, length, take};
ghost use Rattle.laws.specs.First.{first_not};
ghost use Rattle.laws.specs.Below.{Below};
ghost use Rattle.refusal.specs.Fills.{Fills, laying};
ghost use Rattle.character_set_82.specs.Characters.{is_message_byte};
ghost use Rattle.patterns.specs.Patterns.{drawn};
ghost use Rattle.code128.specs.Characters.{patterns, stop};
ghost use Rattle.spelling.specs.Best.{best_spelling};
ghost use Rattle.gs1_128.specs.Symbol.{checked};

use crate::Gs1128;
use refusal::Refusal;

// The best spelling of a message and its check character: n + 2 characters in all.
pub fn characters_of(message: &[u8], characters: &mut [u8; Gs1128::WRITTEN_CHARACTERS]) -> usize
    requires message_len_bound { length message.now ≤ 48 }
    requires message_value { first_not is_message_byte message.now ≡ length message.now }
    ensures value { result ≡ length (checked (best_spelling message.now)) }
    ensures characters_after { take result characters.new ≡ checked (best_spelling message.now) }
{
    let count = spelling::spell(message, characters);
    let check = code128::check::check_of(usize::from(characters[0]), &characters[1..count]);
    // below 103, so nothing is cut off; `try_from` would make a refusal that can't come
    characters[count] = check as u8;
    count + 1
}

// Draws n + 2 characters and the stop: 6n + 19 widths, if there is room for them. That each is below 106 is a clause, since what is drawn is
// defined of lists of numbers.
pub fn draw(characters: &[u8], widths: &mut [u8]) -> Result<usize, Refusal>
    requires characters_len_bound { length characters.now ≤ 51 }
    requires below { Below 106 characters.now }
    ensures { Fills (laying (drawn patterns characters.now ++ stop) (length widths.old)) widths.old result widths.new }
{
    let end = Gs1128::CHARACTER * characters.len();
    let count = end + Gs1128::STOP_WIDTHS;
    if widths.len() < count {
        return Err(Refusal::Room);
    }
    draw_characters(characters, &mut widths[..end]);
    widths[end..count].copy_from_slice(&Gs1128::STOP);
    Ok(count)
}

// Lends six places on for each character.
fn draw_characters(characters: &[u8], to: &mut [u8])
    requires characters_len_bound { length characters.now ≤ 51 }
    requires below { Below 106 characters.now }
    requires to_len { length to.old ≡ 6 * length characters.now }
    ensures { to.new ≡ drawn patterns characters.now }
{
    for (i, character) in characters.iter().enumerate() {
        let at = Gs1128::CHARACTER * i;
        let part = &mut to[at..at + Gs1128::CHARACTER];
        code128::characters::put_pattern(usize::from(*character), part);
    }
}
