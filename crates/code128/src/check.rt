// The modulo 103 check. Values are numbers, as the definition has them, so their bounds are clauses.
ghost use Rattle.std.specs.Prelude.{◌≡◌, ◌<◌, ◌≤◌, length};
ghost use Rattle.code128.specs.Check.{check_of};

// The check of a start and the values after it, the first FNC1 among them.
pub fn check_of(start: usize, values: &[u8]) -> usize
    requires start_bound { start < 106 }
    requires values_len_bound { length values.now ≤ 102 }
    ensures { result ≡ check_of start values.now }
{
    let mut sum = start;
    for (i, value) in values.iter().enumerate() {
        sum += (i + 1) * usize::from(*value);
    }
    sum % 103
}
