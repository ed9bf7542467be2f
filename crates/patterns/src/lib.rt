// What every table of width patterns has in common.
#![tactic(auto)]

ghost use Rattle.std.specs.Prelude.{◌≡◌};
ghost use Rattle.patterns.specs.Patterns.{same};

// Whether widths are those of a pattern. A function of its own, since every table's rule is in the terms of `same`. It goes one by one, which is
// inlined: on slices `==` is a call, and costs more than lists as short as these do.
pub fn equal(widths: &[u8], pattern: &[u8]) -> bool
    ensures { result ≡ same widths.now pattern.now }
{
    widths.len() == pattern.len()
        && widths
            .iter()
            .zip(pattern)
            .all(|(width, other)| width == other)
}
