// The symbols that hold one number: what each kind draws and scans, and the calls that write and read it.
ghost use Rattle.std.specs.Prelude.{◌≡◌, ℕ, ◌^◌, ◌≤◌, ◌<◌, List, length, IfOk};
ghost use Rattle.laws.specs.Below.{Below};
ghost use Rattle.refusal.specs.Outcome.{Outcome};
ghost use Rattle.refusal.specs.Fills.{answered, Fills};
ghost use Rattle.digits.specs.Numbered.{number_written, number_read};

use refusal::Refusal;

// A kind of symbol, by the digits of its number and the widths that it has.
pub trait Numbered<const DIGITS: usize, const WIDTHS: usize> {
    ghost symbol: { List ℕ → List ℕ };

    ghost scanned: { List ℕ → Outcome (List ℕ) };

    // Draws the digits of a right number.
    fn symbol(digits: &[u8; DIGITS]) -> [u8; WIDTHS]
        requires { Below 10 digits.now }
        ensures { result ≡ symbol digits.now };

    // The digits that widths hold, the last of them a check digit or not.
    fn scan(widths: &[u8]) -> Result<[u8; DIGITS], Refusal>
        ensures value { result ≡ answered (scanned widths.now) }
        ensures below { IfOk result (Below 10) };

    // The test of a number takes 1 to 18 digits, and an array has less than 2^63 bytes.
    ghost sizes: { (0 < DIGITS) × (DIGITS ≤ 18) × (WIDTHS < 2 ^ 63) };
}

// Draws a number: refusals 1, 2, 3 and 12, or the widths of its symbol.
pub fn write<S: Numbered<DIGITS, WIDTHS>, const DIGITS: usize, const WIDTHS: usize>(
    number: &[u8],
    widths: &mut [u8],
) -> Result<usize, Refusal>
    ensures { Fills (number_written DIGITS S.symbol number.now (length widths.old)) widths.old result widths.new }
{
    let mut digits = [0u8; DIGITS];
    crate::values_of(number, &mut digits)?;
    refusal::lay(&S::symbol(&digits), widths)
}

// Reads a number: the scan's refusals, then 3 and 12, or the digits.
pub fn read<S: Numbered<DIGITS, WIDTHS>, const DIGITS: usize, const WIDTHS: usize>(
    widths: &[u8],
    number: &mut [u8],
) -> Result<usize, Refusal>
    ensures { Fills (number_read (S.scanned widths.now) (length number.old)) number.old result number.new }
{
    let digits = S::scan(widths)?;
    crate::lay_values(&digits, number)
}
