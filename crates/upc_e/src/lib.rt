// UPC-E: a number of twelve digits that begins with 0, condensed and drawn as widths, and widths read as such a number.
#![tactic(auto)]

ghost use Rattle.std.specs.Prelude.{length};
ghost use Rattle.refusal.specs.Fills.{Fills};
ghost use Rattle.upc_e.specs.UpcE.{writes, reads};

mod condensing;
mod stages;

use refusal::Refusal;

// The calls on UPC-E symbols. They are none of `digits::numbered`: a short number stands in the middle, and a refusal of its own between 3 and 12.
#[derive(Clone, Copy)]
pub struct UpcE;

impl UpcE {
    // the room that a reading needs, and that a symbol needs
    pub const DIGITS: usize = 12;

    pub const WIDTHS: usize = 33;

    // Draws a number of twelve digits: refusals 1, 2, 3, 14 and 12, or 33 widths.
    pub fn write(number: &[u8], widths: &mut [u8]) -> Result<usize, Refusal>
        ensures { Fills (writes number.now (length widths.old)) widths.old result widths.new }
    {
        let mut digits = [0u8; UpcE::DIGITS];
        digits::values_of(number, &mut digits)?;
        let short = condensing::condense(&digits)?;
        refusal::lay(&stages::symbol(&short), widths)
    }

    // Reads a symbol: refusals 1, 4, 5, 3, 14 and 12, or twelve digits.
    pub fn read(widths: &[u8], number: &mut [u8]) -> Result<usize, Refusal>
        ensures { Fills (reads widths.now (length number.old)) number.old result number.new }
    {
        let short = stages::short_in(widths)?;
        let digits = condensing::expanded(&short);
        let mut bytes = [0u8; UpcE::DIGITS];
        digits::lay_values(&digits, &mut bytes)?;
        if !condensing::is_own(&short, &digits) {
            return Err(Refusal::Condensed);
        }
        refusal::lay(&bytes, number)
    }
}
