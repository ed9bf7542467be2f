// The elements of each digit, and of a pair.
ghost use Rattle.std.specs.Prelude.{◌≡◌, [], ◌+◌, ◌*◌, ◌<◌, get_or};
ghost use Rattle.itf14.specs.Tables.{pairs};

use crate::Itf14;

const N: u8 = Itf14::NARROW;

const W: u8 = Itf14::WIDE;

// The five elements of the digits 0 to 9.
const DIGITS: [[u8; 5]; 10] = [
    [N, N, W, W, N],
    [W, N, N, N, W],
    [N, W, N, N, W],
    [W, W, N, N, N],
    [N, N, W, N, W],
    [W, N, W, N, N],
    [N, W, W, N, N],
    [N, N, N, W, W],
    [W, N, N, W, N],
    [N, W, N, W, N],
];

// The widths of a pair: the first digit in the bars and the second in the spaces.
pub fn pair(first: usize, second: usize) -> [u8; Itf14::PAIR]
    requires first_bound { first < 10 }
    requires second_bound { second < 10 }
    ensures { result ≡ get_or pairs (10 * first + second) [] }
{
    let bars = DIGITS[first];
    let spaces = DIGITS[second];
    [
        bars[0], spaces[0], bars[1], spaces[1], bars[2], spaces[2], bars[3], spaces[3], bars[4],
        spaces[4],
    ]
}
