// Letters: which of sets A and B a digit is in. Its value in both is the digit, or ten more in set B: ten times the letter more, so a letter is
// a number and no case of an enum.
ghost use Rattle.std.specs.Prelude.{◌≡◌, map, ◌/◌, ◌%◌, length};
ghost use Rattle.laws.specs.Below.{Below};
ghost use Rattle.parity.specs.Letters.{in_sets};

pub(crate) const A: u8 = 0;

pub(crate) const B: u8 = 1;

// The values of six digits, each in the set that its letter names.
pub fn in_sets(letters: [u8; 6], digits: &[u8]) -> [u8; 6]
    requires below { Below 2 letters }
    requires digits_len { length digits.now ≡ 6 }
    requires below_2 { Below 10 digits.now }
    ensures { result ≡ in_sets letters digits.now }
{
    std::array::from_fn(|i| 10 * letters[i] + digits[i])
}

// The letter of each of six values.
pub(crate) fn letters_of(values: &[u8]) -> [u8; 6]
    requires { length values.now ≡ 6 }
    ensures { result ≡ map (λ v. v / 10) values.now }
{
    std::array::from_fn(|i| values[i] / 10)
}

// The digit of each value.
pub fn digits_of(values: &[u8], digits: &mut [u8])
    requires { length digits.old ≡ length values.now }
    ensures { digits.new ≡ map (λ v. v % 10) values.now }
{
    for (i, value) in values.iter().enumerate() {
        digits[i] = *value % 10;
    }
}
