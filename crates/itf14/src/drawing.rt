// Drawing: ten widths at a time, each pair's lent on to be written. That digits are below ten is a clause, since what is drawn is defined of lists
// of numbers; and so is the length of what is lent, a part of the symbol.
ghost use Rattle.std.specs.Prelude.{◌≡◌, length};
ghost use Rattle.laws.specs.Below.{Below};
ghost use Rattle.patterns.specs.Patterns.{drawn};
ghost use Rattle.itf14.specs.Tables.{pairs};
ghost use Rattle.itf14.specs.Itf14.{paired, symbol};

use crate::{Itf14, tables};

// Draws fourteen digits between the start and the stop.
pub fn symbol(digits: &[u8; Itf14::DIGITS]) -> [u8; Itf14::WIDTHS]
    requires { Below 10 digits.now }
    ensures { result ≡ symbol digits.now }
{
    let mut symbol = [0u8; Itf14::WIDTHS];
    symbol[..Itf14::PAIRS_AT].copy_from_slice(&Itf14::START);
    draw_pairs(digits, &mut symbol[Itf14::PAIRS_AT..Itf14::STOP_AT]);
    symbol[Itf14::STOP_AT..].copy_from_slice(&Itf14::STOP);
    symbol
}

// Draws fourteen digits, two by two.
fn draw_pairs(digits: &[u8; Itf14::DIGITS], to: &mut [u8])
    requires below { Below 10 digits.now }
    requires to_len { length to.old ≡ 70 }
    ensures { to.new ≡ drawn pairs (paired digits.now) }
{
    for i in 0..Itf14::PAIRS {
        let at = Itf14::PAIR * i;
        let pair = tables::pair(usize::from(digits[2 * i]), usize::from(digits[2 * i + 1]));
        to[at..at + Itf14::PAIR].copy_from_slice(&pair);
    }
}
