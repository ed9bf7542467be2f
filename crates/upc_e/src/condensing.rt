// The short number of a UPC-E, six printed digits and the check digit, and the twelve digits that it stands for.
ghost use Rattle.std.specs.Prelude.{◌≡◌, [], ◌<◌, get_or};
ghost use Rattle.refusal.specs.Fills.{answered};
ghost use Rattle.upc_e.specs.Condensing.{expanded, shorts, condensed, is_own};

use crate::UpcE;
use refusal::Refusal;

pub(crate) const SHORT: usize = 7;

// how many rules there are, by the last of the six digits: 0 to 2, 3, 4, and 5 to 9
const RULES: usize = 4;

// The digits that a short number stands for.
pub(crate) fn expanded(short: &[u8; SHORT]) -> [u8; UpcE::DIGITS]
    ensures { result ≡ expanded short.now }
{
    let [a, b, c, d, e, last, check] = *short;
    match last {
        0..=2 => [0, a, b, last, 0, 0, 0, 0, c, d, e, check],
        3 => [0, a, b, c, 0, 0, 0, 0, 0, d, e, check],
        4 => [0, a, b, c, d, 0, 0, 0, 0, 0, e, check],
        _ => [0, a, b, c, d, e, 0, 0, 0, 0, last, check],
    }
}

// The short number of twelve digits, by the first rule that fits; or 14.
pub(crate) fn condense(digits: &[u8; UpcE::DIGITS]) -> Result<[u8; SHORT], Refusal>
    ensures { result ≡ answered (condensed digits.now) }
{
    for rule in 0..RULES {
        let short = short_by(rule, digits);
        if expanded(&short) == *digits {
            return Ok(short);
        }
    }
    Err(Refusal::Condensed)
}

// What a rule would leave of the digits. The rules are those of the list `shorts`, by number, so a `match` says which.
fn short_by(rule: usize, digits: &[u8; UpcE::DIGITS]) -> [u8; SHORT]
    requires { rule < 4 }
    ensures { result ≡ get_or (shorts digits.now) rule [] }
{
    let [_, a, b, c, d, e, _, _, third, next_to_last, last, check] = *digits;
    match rule {
        0 => [a, b, third, next_to_last, last, c, check],
        1 => [a, b, c, next_to_last, last, 3, check],
        2 => [a, b, c, d, last, 4, check],
        _ => [a, b, c, d, e, last, check],
    }
}

// Whether the digits that a short number stands for are condensed to it.
pub(crate) fn is_own(short: &[u8; SHORT], digits: &[u8; UpcE::DIGITS]) -> bool
    requires { digits.now ≡ expanded short.now }
    ensures { result ≡ is_own short.now }
{
    match condense(digits) {
        Ok(own) => own == *short,
        Err(_) => false,
    }
}
