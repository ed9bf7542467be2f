// Bytes cut at a byte: blocks into lines, lines into words.
#![tactic(auto)]

ghost use Rattle.std.specs.Prelude.{◌≡◌, ◌+◌, ◌≤◌, length, drop};
ghost use Rattle.laws.specs.First.{first_not};
ghost use Rattle.lines.specs.Cut.{other_than};

// The place of the first byte 10 at or after `from`, or the count of bytes where there is none.
pub fn line_end(bytes: &[u8], from: usize) -> usize
    requires { from ≤ length bytes.now }
    ensures value { result ≡ from + first_not (other_than 10) (drop from bytes.now) }
    ensures upper_bound { result ≤ length bytes.now }
{
    place_of(bytes, b'\n', from)
}

// The place of the first space at or after `from`, or the count of bytes where there is none.
pub fn word_end(bytes: &[u8], from: usize) -> usize
    requires { from ≤ length bytes.now }
    ensures value { result ≡ from + first_not (other_than 32) (drop from bytes.now) }
    ensures upper_bound { result ≤ length bytes.now }
{
    place_of(bytes, b' ', from)
}

fn place_of(bytes: &[u8], byte: u8, from: usize) -> usize
    requires { from ≤ length bytes.now }
    ensures value { result ≡ from + first_not (other_than byte) (drop from bytes.now) }
    ensures upper_bound { result ≤ length bytes.now }
{
    let rest = &bytes[from..];
    from + rest.iter().position(|b| *b == byte).unwrap_or(rest.len())
}
