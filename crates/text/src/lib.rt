// Text, as it is typed and printed: numbers, widths and messages. No memory is made: what is written stands at the front of what is lent, and its
// count is the answer.
#![tactic(auto)]

mod typed;
mod widths;

ghost use Rattle.std.specs.Prelude.{◌≡◌, ◌≤◌, length};
ghost use Rattle.text.specs.Puts.{Puts};
ghost use Rattle.text.specs.Decimal.{last_of, decimal_of, apart_by, apart, record_text};
ghost use Rattle.text.specs.Numeral.{number_in, capped_in};

pub use typed::{message_in, put_fitting, put_message};
pub use widths::{put_widths, widths_in};

// Writes a number's digits, the fewest that hold it, and answers how many they are: 20 at most.
pub fn put_number(n: usize, out: &mut [u8]) -> usize
    requires { 20 ≤ length out.old }
    ensures puts { Puts (decimal_of n) out.old result out.new }
    ensures upper_bound { result ≤ 20 }
{
    put_digits(n, out)
}

// Writes two numbers, one space apart, and answers how many bytes they are: 41 at most.
pub fn put_pair(first: usize, second: usize, out: &mut [u8]) -> usize
    requires { 41 ≤ length out.old }
    ensures puts { Puts (apart first second) out.old result out.new }
    ensures upper_bound { result ≤ 41 }
{
    put_apart(first, b' ', second, out)
}

// Writes a space and three numbers with colons between them, and answers how many bytes they are: 63 at most.
pub fn put_record(identifier: usize, begin: usize, size: usize, out: &mut [u8]) -> usize
    requires { 63 ≤ length out.old }
    ensures puts { Puts (record_text identifier begin size) out.old result out.new }
    ensures upper_bound { result ≤ 63 }
{
    out[0] = b' ';
    let at = 1 + put_apart(identifier, b':', begin, &mut out[1..]);
    out[at] = b':';
    let from = at + 1;
    from + put_number(size, &mut out[from..])
}

// Writes two numbers with a byte between them.
fn put_apart(first: usize, byte: u8, second: usize, out: &mut [u8]) -> usize
    requires { 41 ≤ length out.old }
    ensures puts { Puts (apart_by byte first second) out.old result out.new }
    ensures upper_bound { result ≤ 41 }
{
    let at = put_number(first, out);
    out[at] = byte;
    let from = at + 1;
    from + put_number(second, &mut out[from..])
}

// The number that a decimal numeral says, if that is at most `most`.
pub fn number_in(bytes: &[u8], most: usize) -> Option<usize>
    requires { most ≤ 9999 }
    ensures { result ≡ number_in bytes.now most }
{
    let value = capped_in(bytes, most + 1)?;
    if most < value { None } else { Some(value) }
}

// The number that a decimal numeral says, or `cap` where it says a larger one.
pub fn capped_in(bytes: &[u8], cap: usize) -> Option<usize>
    requires { cap ≤ 10000 }
    ensures { result ≡ capped_in bytes.now cap }
{
    if bytes.is_empty() || digits::first_other(bytes) < bytes.len() {
        return None;
    }
    let mut value = 0;
    for byte in bytes {
        value = (value * 10 + digits::value_of(*byte)).min(cap);
    }
    Some(value)
}

// The digits of its tenth part, and then the last one: what `decimal_of` says. `write!` would need a writer over what is lent.
fn put_digits(n: usize, out: &mut [u8]) -> usize
    requires { length (decimal_of n) ≤ length out.old }
    ensures { Puts (decimal_of n) out.old result out.new }
{
    if n < 10 {
        out[0] = last_of(n);
        return 1;
    }
    let at = put_digits(n / 10, out);
    out[at] = last_of(n);
    at + 1
}

// The byte of a number's last digit.
fn last_of(n: usize) -> u8
    ensures { result ≡ last_of n }
{
    // one digit, so nothing is cut off; `try_from` would make a refusal that can't come
    b'0' + (n % 10) as u8
}
