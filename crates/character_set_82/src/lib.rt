// The 82 characters of a message, and the separator.
#![tactic(auto)]

ghost use Rattle.std.specs.Prelude.{◌≡◌};
ghost use Rattle.character_set_82.specs.Characters.{is_of82, is_message_byte};

pub const SEPARATOR: u8 = 29;

// Whether a byte is one of the 82 characters. Digits are the commonest, then letters; one `matches!` of all the ranges compares a letter with
// each of them in turn.
#[tactic(auto, using(crate::proofs::CharacterLaws::ranges_of_82))]
pub fn is_of_82(byte: u8) -> bool
    ensures { result ≡ is_of82 byte }
{
    matches!(byte, b'%'..=b'?') || byte.is_ascii_alphabetic() || matches!(byte, b'!'..=b'"' | b'_')
}

// Whether a byte may stand in a message: one of the 82, or the separator.
pub fn is_message_byte(byte: u8) -> bool
    ensures { result ≡ is_message_byte byte }
{
    is_of_82(byte) || byte == SEPARATOR
}
