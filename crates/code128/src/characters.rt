// The symbol characters: a value's pattern, and the value of six widths. Six widths are a part of a longer list, so their count is a clause.
ghost use Rattle.std.specs.Prelude.{◌≡◌, [], ◌<◌, length, get_or};
ghost use Rattle.patterns.specs.Matching.{match_in};
ghost use Rattle.code128.specs.Characters.{patterns};
ghost use Rattle.code128.specs.Matching.{six_packed, key_of, candidate_of};

use crate::tables;

// The stop has seven widths; its first six are no value's pattern.
pub const STOP: [u8; 7] = [2, 3, 3, 1, 1, 1, 2];

pub fn pattern_of(value: usize) -> [u8; 6]
    requires { value < 106 }
    ensures { result ≡ get_or patterns value [] }
{
    let [a, b, c, d, e, f, _, _] = tables::packed_of(value).to_le_bytes();
    [a, b, c, d, e, f]
}

// Writes a value's pattern over the six places that are lent.
pub fn put_pattern(value: usize, to: &mut [u8])
    requires value_bound { value < 106 }
    requires to_len { length to.old ≡ 6 }
    ensures { to.new ≡ get_or patterns value [] }
{
    to.copy_from_slice(&pattern_of(value));
}

// The value of six widths, judged on their own. Only one pattern can be theirs: its value is looked up, and the widths are compared with
// it, all six as one number.
pub fn value_of(part: &[u8]) -> Option<u8>
    requires { length part.now ≡ 6 }
    ensures { result ≡ match_in patterns part.now }
{
    let widths = packed_six(part);
    let candidate = candidate_of(key_of(widths));
    if widths == tables::packed_of(candidate) {
        // below 106, so nothing is cut off; `try_from` would make a refusal that can't come
        Some(candidate as u8)
    } else {
        None
    }
}

// The one value whose pattern has the key.
fn candidate_of(key: u64) -> usize
    requires { key < 256 }
    ensures value { result ≡ candidate_of key }
    ensures upper_bound { result < 106 }
{
    let eight = tables::eight_of(key / 8);
    // below 128, so nothing is cut off; `try_from` would make a refusal that can't come
    ((eight >> (8 * (key % 8))) % 128) as usize
}

// The weights are any that give each pattern another key.
fn key_of(widths: u64) -> u64
    ensures value { result ≡ key_of widths }
    ensures upper_bound { result < 256 }
{
    let four = widths % 0x1_0000_0000;
    let two = widths / 0x1_0000_0000;
    (four * 0x23d_5000 + two * 0x10d_a000) / 0x100_0000 % 256
}

fn packed_six(part: &[u8]) -> u64
    requires { length part.now ≡ 6 }
    ensures { result ≡ six_packed part.now }
{
    u64::from_le_bytes([part[0], part[1], part[2], part[3], part[4], part[5], 0, 0])
}
