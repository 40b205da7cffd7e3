// A question's pair, added to the total.
ghost use Rattle.std.specs.Prelude.{◌≡◌};
ghost use Rattle.accumulator_spec.specs.Columns.{column};
ghost use Rattle.sheet_spec.specs.Printed.{half_terms};

use pattern::both_finite;

// Both halves, if both are finite: those of inexact products too.
pub fn halves(total: &mut [u32], first: u32, second: u32)
    ensures { total.new ≡ column total.old (half_terms first second) }
{
    if both_finite(first, second) {
        // A total of the program's own refuses none: it has room for both halves of every line that there can be.
        let _ = accumulator::add_pattern(total, first);
        let _ = accumulator::add_pattern(total, second);
    }
}
