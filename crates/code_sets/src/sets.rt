// Document 01, "Code 128 characters": what a value means in each of the sets A, B and C.
ghost use Rattle.std.specs.Prelude.{◌≡◌, ◌<◌};
ghost use Rattle.code_sets.specs.Sets.{byte_in, other, letter_control, digit_control, meaning_in};

#[derive(Clone, Copy)]
pub enum Set {
    A,
    B,
    C,
}

#[derive(Clone, Copy)]
pub enum Meaning {
    Byte(u8),
    Pair(u8),
    Change(Set),
    Shift,
    Separator,
    Illegal,
}

// In sets A and B the values below 96 are bytes.
pub const BYTES: u8 = 96;

// In set C those below 100 are two digits.
const PAIRS: u8 = 100;

pub fn meaning_in(set: Set, value: u8) -> Meaning
    ensures { result ≡ meaning_in set value }
{
    match set {
        Set::A => {
            if value < BYTES {
                return Meaning::Byte(byte_in(Set::A, value));
            }
            letter_control(value, 100, Set::B)
        }
        Set::B => {
            if value < BYTES {
                return Meaning::Byte(byte_in(Set::B, value));
            }
            letter_control(value, 101, Set::A)
        }
        Set::C => {
            if value < PAIRS {
                return Meaning::Pair(value);
            }
            digit_control(value)
        }
    }
}

// The values from 96 on of set A or B, of which one changes to the other of the two. FNC2, FNC3 and FNC4 are illegal.
fn letter_control(value: u8, other_by: u8, to: Set) -> Meaning
    ensures { result ≡ letter_control other_by to value }
{
    if value == 98 {
        return Meaning::Shift;
    }
    if value == 99 {
        return Meaning::Change(Set::C);
    }
    if value == other_by {
        return Meaning::Change(to);
    }
    if value == 102 {
        return Meaning::Separator;
    }
    Meaning::Illegal
}

// The values from 100 on of set C.
fn digit_control(value: u8) -> Meaning
    ensures { result ≡ digit_control value }
{
    match value {
        100 => Meaning::Change(Set::B),
        101 => Meaning::Change(Set::A),
        102 => Meaning::Separator,
        _ => Meaning::Illegal,
    }
}

// The byte of a value below 96.
pub fn byte_in(set: Set, value: u8) -> u8
    requires { value < 96 }
    ensures { result ≡ byte_in set value }
{
    match set {
        Set::A => { if value < 64 { value + 32 } else { value - 64 } }
        Set::B => value + 32,
        Set::C => value + 32,
    }
}

// The other of A and B, for a shift.
pub fn other_of(set: Set) -> Set
    ensures { result ≡ other set }
{
    match set {
        Set::A => Set::B,
        Set::B => Set::A,
        Set::C => Set::C,
    }
}
