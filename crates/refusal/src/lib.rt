// The refusals of document 01, and the copy of a whole list into a lent one.
#![tactic(auto)]

ghost use Rattle.std.specs.Prelude.{◌≡◌, length, Some};
ghost use Rattle.refusal.specs.Numbers.{number_of, place_of, printed};
ghost use Rattle.refusal.specs.Fills.{Fills, laying};

use std::error::Error;
use std::fmt;

// One case for each number, those of document 01's table and then those of document 02's requests; a case that has a place holds it.
#[derive(Clone, Copy, Debug, PartialEq, Eq)]
pub enum Refusal {
    Count,
    Character(usize),
    CheckDigit,
    Guard,
    Pattern(usize),
    CheckCharacter,
    FirstCharacter,
    Sequence,
    Identifier(usize),
    Data(usize),
    Repeated(usize),
    Room,
    Absent,
    Condensed,
}

impl Refusal {
    pub fn number(self) -> usize
        ensures { result ≡ number_of self }
    {
        match self {
            Refusal::Count => 1,
            Refusal::Character(_) => 2,
            Refusal::CheckDigit => 3,
            Refusal::Guard => 4,
            Refusal::Pattern(_) => 5,
            Refusal::CheckCharacter => 6,
            Refusal::FirstCharacter => 7,
            Refusal::Sequence => 8,
            Refusal::Identifier(_) => 9,
            Refusal::Data(_) => 10,
            Refusal::Repeated(_) => 11,
            Refusal::Room => 12,
            Refusal::Absent => 13,
            Refusal::Condensed => 14,
        }
    }

    pub fn place(self) -> usize
        ensures { result ≡ place_of self }
    {
        match self {
            Refusal::Count => 0,
            Refusal::Character(place) => place,
            Refusal::CheckDigit => 0,
            Refusal::Guard => 0,
            Refusal::Pattern(place) => place,
            Refusal::CheckCharacter => 0,
            Refusal::FirstCharacter => 0,
            Refusal::Sequence => 0,
            Refusal::Identifier(place) => place,
            Refusal::Data(place) => place,
            Refusal::Repeated(place) => place,
            Refusal::Room => 0,
            Refusal::Absent => 0,
            Refusal::Condensed => 0,
        }
    }
}

// As document 01 prints it: "the refusal and its place, one space apart".
impl fmt::Display for Refusal {
    ghost output = { λ refusal. Some (printed refusal) };

    fn fmt<W: fmt::Write>(&self, f: &mut fmt::Formatter<W>) -> fmt::Result {
        let number = self.number();
        let place = self.place();
        write!(f, "{number} {place}")
    }
}

impl Error for Refusal {}

// Lays the whole of a list at the front of a lent one, or refuses and changes nothing.
pub fn lay(list: &[u8], lent: &mut [u8]) -> Result<usize, Refusal>
    ensures { Fills (laying list.now (length lent.old)) lent.old result lent.new }
{
    if lent.len() < list.len() {
        return Err(Refusal::Room);
    }
    lent[..list.len()].copy_from_slice(list);
    Ok(list.len())
}
