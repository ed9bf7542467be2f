// The stages of UPC-E: from a short number to a symbol, and from a symbol to a short number. That digits are below ten is a clause, since what is
// drawn is defined of lists of numbers.
ghost use Rattle.std.specs.Prelude.{◌≡◌};
ghost use Rattle.laws.specs.Below.{Below};
ghost use Rattle.refusal.specs.Fills.{answered, FillsOwn};
ghost use Rattle.upc_e.specs.UpcE.{values_in, symbol, scanned};

use crate::UpcE;
use crate::condensing::SHORT;
use ean_upc::tables::{GUARD_WIDTHS, Sets};
use ean_upc::{drawing, scanning, tables};
use parity::rows::Rows;
use parity::{letters, rows};
use refusal::Refusal;

// how many digits are printed
const PRINTED: usize = 6;

const END_GUARD: [u8; 6] = [1, 1, 1, 1, 1, 1];

// where the end guard begins
const END: usize = 27;

// The check digit chooses the row of the six digits before it.
pub(crate) fn symbol(short: &[u8; SHORT]) -> [u8; UpcE::WIDTHS]
    requires { Below 10 short.now }
    ensures { result ≡ symbol short.now }
{
    let row = rows::row_of(Rows::CheckDigit, usize::from(short[PRINTED]));
    let values = letters::in_sets(row, &short[..PRINTED]);
    let mut symbol = [0u8; UpcE::WIDTHS];
    drawing::guarded_half(&tables::GUARD, Sets::AOrB, &values, &mut symbol[..END]);
    symbol[END..].copy_from_slice(&END_GUARD);
    symbol
}

// The short number that widths hold: the characters' digits, and the one whose row their letters are.
pub(crate) fn short_in(widths: &[u8]) -> Result<[u8; SHORT], Refusal>
    ensures { result ≡ answered (scanned widths.now) }
{
    let mut values = [0u8; PRINTED];
    values_in(widths, &mut values)?;
    let Some(check) = rows::digit_of(Rows::CheckDigit, &values) else {
        return Err(Refusal::Pattern(12));
    };
    let mut short = [check; SHORT];
    letters::digits_of(&values, &mut short[..PRINTED]);
    Ok(short)
}

// The values of the six characters between the guards.
fn values_in(widths: &[u8], values: &mut [u8; PRINTED]) -> Result<usize, Refusal>
    ensures { FillsOwn (values_in widths.now) values.old result values.new }
{
    if widths.len() != UpcE::WIDTHS {
        return Err(Refusal::Count);
    }
    if !patterns::equal(&widths[..GUARD_WIDTHS], &tables::GUARD) {
        return Err(Refusal::Guard);
    }
    if !patterns::equal(&widths[END..], &END_GUARD) {
        return Err(Refusal::Guard);
    }
    scanning::half(Sets::AOrB, 0, &widths[GUARD_WIDTHS..], values)
}
