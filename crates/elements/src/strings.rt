// Where an element string ends, and where the next one must begin.
ghost use Rattle.std.specs.Prelude.{◌≡◌, ◌+◌, ◌^◌, ◌<◌, length};
ghost use Rattle.elements.specs.Strings.{data_of, next_after};

use character_set_82::SEPARATOR;
use identifiers::Kind;

// How many bytes of data there are at the front of the bytes after an identifier: a predefined length, as far as the message goes, or
// all up to the next separator.
pub fn data_length(kind: Kind, bytes: &[u8]) -> usize
    ensures { result ≡ length (data_of kind bytes.now) }
{
    if kind.predefined {
        kind.most.min(bytes.len())
    } else {
        bytes
            .iter()
            .position(|byte| *byte == SEPARATOR)
            .unwrap_or(bytes.len())
    }
}

// Where the string after one whose data ends at `end` must begin.
pub fn next_after(kind: Kind, end: usize) -> usize
    requires { end < 2 ^ 63 }
    ensures { result ≡ next_after kind end }
{
    if kind.predefined { end } else { end + 1 }
}
