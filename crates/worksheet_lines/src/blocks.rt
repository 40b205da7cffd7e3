// What the lines of sums and products share.
ghost use Rattle.std.specs.Prelude.{◌+◌, ◌<◌, ◌≤◌};
ghost use Rattle.worksheet_spec.specs.Lines.{most_lines, ends};
ghost use Rattle.worksheet_spec.specs.Sheets.{recomposition, zero_finish, recomposed_finished, edge_finish};
ghost use Rattle.worksheet_lines.specs.declared.Lines.{Lines};
ghost use Rattle.worksheet_lines.specs.Inner.{Follows};

use crate::{Foot, Lines};
use pattern::flipped;
use worksheet_spec::{KAPPA, MINUS_TWO, PLUS_ZERO, PSI, TWO};

// A foot to which no more lines lead: one result, twice.
pub fn first_line(a: u32) -> Foot
    ensures { (lines : Lines) → Follows lines lines (ends a a) result }
{
    Foot {
        first: a,
        second: a,
    }
}

#[inline(always)]
pub fn recomposition(lines: &mut Lines, a: u32, b: u32) -> Foot
    requires { lines.old.used + 3 ≤ most_lines }
    ensures { Follows lines.old lines.new (recomposition a b) result }
{
    let z = lines.mul(PSI, a);
    let d = lines.sub(z, a);
    let e = lines.mul(TWO, b);
    if worksheet_choices::equal(e, d) {
        return Foot {
            first: z,
            second: flipped(b),
        };
    }
    Foot {
        first: a,
        second: b,
    }
}

// A second that is zero gets the sign that first has (R5.6).
pub fn zero_finish(lines: &mut Lines, first: u32, second: u32) -> Foot
    requires { lines.old.used < most_lines }
    ensures { Follows lines.old lines.new (zero_finish first second) result }
{
    if pattern::is_zero(second) {
        let nought = lines.mul(PLUS_ZERO, first);
        return Foot {
            first,
            second: nought,
        };
    }
    Foot { first, second }
}

#[inline(always)]
pub fn recomposed_finished(lines: &mut Lines, a: u32, b: u32) -> Foot
    requires { lines.old.used + 3 < most_lines }
    ensures { Follows lines.old lines.new (recomposed_finished a b) result }
{
    let pair = recomposition(lines, a, b);
    zero_finish(lines, pair.first, pair.second)
}

// An infinite a stands for a pair at the edge, or for itself twice.
pub fn edge_finish(lines: &mut Lines, a: u32, half: u32, rest: u32) -> Foot
    requires { lines.old.used + 1 < most_lines }
    ensures { Follows lines.old lines.new (edge_finish a half rest) result }
{
    if worksheet_choices::at_edge(half, rest) {
        let first = lines.mul(KAPPA, half);
        let second = lines.mul(MINUS_TWO, rest);
        return Foot { first, second };
    }
    Foot {
        first: a,
        second: a,
    }
}
