// The words that a call begins with, one row each.
ghost use Rattle.std.specs.Prelude.{◌≡◌, map};
ghost use Rattle.requests.specs.Words.{calls, named_in, row_of, named_by};

use crate::{Argument, Word};
use patterns::equal;
use symbols::Kind;

// What a word names: the argument that must follow it, how many places the call is usually lent, and the call.
#[derive(Clone, Copy)]
pub struct Named {
    pub first: Argument,
    pub usual: usize,
    pub call: Word,
}

// Each word, with what it names in the same order.
const CALLS: [(&[u8], Argument, usize, Word); 16] = [
    (b"digit", Argument::Digits, 64, Word::Digit),
    (b"ean13", Argument::Number, 700, Word::Draw(Kind::Ean13)),
    (b"ean8", Argument::Number, 700, Word::Draw(Kind::Ean8)),
    (b"upce", Argument::Number, 700, Word::Draw(Kind::UpcE)),
    (b"itf14", Argument::Number, 700, Word::Draw(Kind::Itf14)),
    (b"gs1", Argument::Message, 700, Word::Draw(Kind::Gs1128)),
    (
        b"read-ean13",
        Argument::Widths,
        64,
        Word::Read(Some(Kind::Ean13)),
    ),
    (
        b"read-ean8",
        Argument::Widths,
        64,
        Word::Read(Some(Kind::Ean8)),
    ),
    (
        b"read-upce",
        Argument::Widths,
        64,
        Word::Read(Some(Kind::UpcE)),
    ),
    (
        b"read-itf14",
        Argument::Widths,
        64,
        Word::Read(Some(Kind::Itf14)),
    ),
    (
        b"read-gs1",
        Argument::Widths,
        64,
        Word::Read(Some(Kind::Gs1128)),
    ),
    (b"read", Argument::Widths, 64, Word::Read(None)),
    (b"test", Argument::Message, 64, Word::Test),
    (b"split", Argument::Message, 12, Word::Split),
    (b"ask", Argument::Identifier, 64, Word::Ask),
    (b"add", Argument::Identifier, 64, Word::Add),
];

pub fn find(word: &[u8]) -> Option<Named>
    ensures { result ≡ named_in calls word.now }
{
    named_by(&CALLS, word)
}

// What the first row of a table that has the word says of it.
fn named_by(rows: &[(&[u8], Argument, usize, Word)], word: &[u8]) -> Option<Named>
    ensures { result ≡ named_by (map row_of rows.now) word.now }
{
    for (name, first, usual, call) in rows {
        if equal(word, name) {
            return Some(Named {
                first: *first,
                usual: *usual,
                call: *call,
            });
        }
    }
    None
}
