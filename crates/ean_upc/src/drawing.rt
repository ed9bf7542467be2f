// Drawing: four widths at a time, each lent on to be written. A half is a part of a longer list, so its length is a clause; and that digits are
// below ten is one too, since what is drawn is defined of lists of numbers.
ghost use Rattle.std.specs.Prelude.{◌≡◌, ◌++◌, ◌*◌, ◌+◌, length};
ghost use Rattle.laws.specs.Below.{Below};
ghost use Rattle.patterns.specs.Patterns.{drawn};
ghost use Rattle.ean_upc.specs.Halves.{patterns_of, halves_drawn};

use crate::tables;
use crate::tables::{CENTRE_WIDTHS, CHARACTER, GUARD_WIDTHS, Sets};

// Draws two halves between their guards, the right one in set C.
pub fn halves(sets: Sets, left: &[u8], right: &[u8], to: &mut [u8])
    requires to_len { length to.old ≡ 3 + 4 * length left.now + 5 + 4 * length right.now + 3 }
    requires below { Below (length (patterns_of sets)) left.now }
    requires below_2 { Below 10 right.now }
    ensures { to.new ≡ halves_drawn sets left.now right.now }
{
    let centre_at = GUARD_WIDTHS + CHARACTER * left.len();
    let end = centre_at + CENTRE_WIDTHS + CHARACTER * right.len();
    guarded_half(&tables::GUARD, sets, left, &mut to[..centre_at]);
    guarded_half(&tables::CENTRE, Sets::C, right, &mut to[centre_at..end]);
    to[end..].copy_from_slice(&tables::GUARD);
}

// Draws a guard and the half that follows it.
pub fn guarded_half(guard: &[u8], sets: Sets, values: &[u8], to: &mut [u8])
    requires to_len { length to.old ≡ length guard.now + 4 * length values.now }
    requires below { Below (length (patterns_of sets)) values.now }
    ensures { to.new ≡ guard.now ++ drawn (patterns_of sets) values.now }
{
    let at = guard.len();
    to[..at].copy_from_slice(guard);
    half(sets, values, &mut to[at..]);
}

// Draws the characters of a half.
fn half(sets: Sets, values: &[u8], to: &mut [u8])
    requires to_len { length to.old ≡ 4 * length values.now }
    requires below { Below (length (patterns_of sets)) values.now }
    ensures { to.new ≡ drawn (patterns_of sets) values.now }
{
    for (i, value) in values.iter().enumerate() {
        let at = CHARACTER * i;
        let widths = tables::pattern(sets, usize::from(*value));
        to[at..at + CHARACTER].copy_from_slice(&widths);
    }
}
