// Widths as text, both ways. That a width has one digit is a clause, since what is drawn is defined of lists of numbers.
ghost use Rattle.std.specs.Prelude.{◌≡◌, ◌≤◌, ◌<◌, length};
ghost use Rattle.laws.specs.Below.{Below};
ghost use Rattle.text.specs.Puts.{Puts};
ghost use Rattle.text.specs.Widths.{run_together, digits_in, numbers_in, widths_in, Takes};

// Writes widths, one digit each, and answers their count.
pub fn put_widths(widths: &[u8], out: &mut [u8]) -> usize
    requires below { Below 10 widths.now }
    requires widths_in_bounds { length widths.now ≤ length out.old }
    ensures puts { Puts (run_together widths.now) out.old result out.new }
    ensures value { result ≡ length widths.now }
{
    for (i, width) in widths.iter().enumerate() {
        out[i] = b'0' + *width;
    }
    widths.len()
}

// Puts the widths that a text says at the front of `widths`: without a space one digit to a width, with spaces decimal numbers from 0 to 255.
pub fn widths_in(typed: &[u8], widths: &mut [u8]) -> Option<usize>
    requires { length typed.now < length widths.old }
    ensures { Takes (widths_in typed.now) result widths.new }
{
    if typed.contains(&b' ') {
        numbers_in(typed, widths)
    } else {
        digits_in(typed, widths)
    }
}

fn digits_in(typed: &[u8], widths: &mut [u8]) -> Option<usize>
    requires { length typed.now < length widths.old }
    ensures { Takes (digits_in typed.now) result widths.new }
{
    for (i, byte) in typed.iter().enumerate() {
        if !digits::is_digit(*byte) {
            return None;
        }
        widths[i] = *byte - b'0';
    }
    Some(typed.len())
}

// Each number ends before a space or at the end of the text.
fn numbers_in(typed: &[u8], widths: &mut [u8]) -> Option<usize>
    requires { length typed.now < length widths.old }
    ensures { Takes (numbers_in typed.now) result widths.new }
{
    let mut count = 0;
    for word in typed.split(|byte| *byte == b' ') {
        let width = crate::number_in(word, 255)?;
        // at most 255, so nothing is cut off; `try_from` would make a refusal that can't come
        widths[count] = width as u8;
        count += 1;
    }
    Some(count)
}
