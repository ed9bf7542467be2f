// The parity rows: the six letters that stand for a digit, and the digit that six letters stand for. Six values may be a part of a longer list,
// so their count is a clause.
ghost use Rattle.std.specs.Prelude.{◌≡◌, [], map, ◌/◌, ◌<◌, length, get_or};
ghost use Rattle.patterns.specs.Matching.{match_in, Candidate};
ghost use Rattle.parity.specs.Rows.{by_first_digit, by_check_digit, rows_of};

use crate::letters;
use crate::letters::{A, B};

// Which digit the rows stand for: the first one of an EAN-13, or the check digit of a UPC-E.
#[derive(Clone, Copy)]
pub enum Rows {
    FirstDigit,
    CheckDigit,
}

const BY_FIRST_DIGIT: [[u8; 6]; 10] = [
    [A, A, A, A, A, A],
    [A, A, B, A, B, B],
    [A, A, B, B, A, B],
    [A, A, B, B, B, A],
    [A, B, A, A, B, B],
    [A, B, B, A, A, B],
    [A, B, B, B, A, A],
    [A, B, A, B, A, B],
    [A, B, A, B, B, A],
    [A, B, B, A, B, A],
];

const BY_CHECK_DIGIT: [[u8; 6]; 10] = [
    [B, B, B, A, A, A],
    [B, B, A, B, A, A],
    [B, B, A, A, B, A],
    [B, B, A, A, A, B],
    [B, A, B, B, A, A],
    [B, A, A, B, B, A],
    [B, A, A, A, B, B],
    [B, A, B, A, B, A],
    [B, A, B, A, A, B],
    [B, A, A, B, A, B],
];

// The digit that has these letters: three of them, as a binary number, choose the row, and three the place in it. The rows of first digits
// begin with A and those of check digits with B, so both have room in one table. Where no digit has the letters stands 0: the row of what is
// found here is compared with them.
const DIGITS: [[u8; 8]; 8] = [
    [0, 0, 0, 0, 0, 0, 0, 0],
    [0, 0, 0, 1, 0, 2, 3, 0],
    [0, 0, 0, 4, 0, 7, 8, 0],
    [0, 5, 9, 0, 6, 0, 0, 0],
    [0, 0, 0, 6, 0, 9, 5, 0],
    [0, 8, 7, 0, 4, 0, 0, 0],
    [0, 3, 2, 0, 1, 0, 0, 0],
    [0, 0, 0, 0, 0, 0, 0, 0],
];

// The letters that stand for a digit.
pub fn row_of(rows: Rows, digit: usize) -> [u8; 6]
    requires { digit < 10 }
    ensures { result ≡ get_or (rows_of rows) digit [] }
{
    match rows {
        Rows::FirstDigit => BY_FIRST_DIGIT[digit],
        Rows::CheckDigit => BY_CHECK_DIGIT[digit],
    }
}

// The digit whose row the letters of six values are.
pub fn digit_of(rows: Rows, values: &[u8]) -> Option<u8>
    requires { length values.now ≡ 6 }
    ensures { result ≡ match_in (rows_of rows) (map (λ v. v / 10) values.now) }
{
    let letters = letters::letters_of(values);
    let digit = candidate(letters);
    let row = row_of(rows, usize::from(digit));
    if patterns::equal(&row, &letters) {
        Some(digit)
    } else {
        None
    }
}

// The one digit that can have these letters, by either table.
fn candidate(letters: [u8; 6]) -> u8
    ensures upper_bound { result < 10 }
    ensures candidate { Candidate by_first_digit letters result }
    ensures candidate_2 { Candidate by_check_digit letters result }
{
    let first_three = letters[0] % 2 * 4 + letters[1] % 2 * 2 + letters[2] % 2;
    let last_three = letters[3] % 2 * 4 + letters[4] % 2 * 2 + letters[5] % 2;
    let row = DIGITS[usize::from(first_three)];
    row[usize::from(last_three)]
}
