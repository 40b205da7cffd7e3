// The lines of a sum. The first one ends the sheet where it is NaN.
ghost use Rattle.std.specs.Prelude.{◌+◌, ◌≤◌};
ghost use Rattle.worksheet_spec.specs.Lines.{most_lines};
ghost use Rattle.worksheet_spec.specs.Sheets.{halved_sum, sum_from, sum_in_order, sum_sheet};
ghost use Rattle.worksheet_lines.specs.Inner.{from_first, Follows};

use choose::choose;
use worksheet_lines::{Foot, Lines, blocks};
use worksheet_spec::HALF;

// A sheet begins in the first row, and the rows behind it stay as they were.
pub fn sum(lines: &mut Lines, x: u32, y: u32) -> Foot
    ensures { Follows (from_first lines.old) lines.new (sum_sheet x y) result }
{
    lines.used = 0;
    let swap = worksheet_choices::swaps(x, y);
    in_order(lines, choose(swap, y, x), choose(swap, x, y))
}

// The first operand is not the smaller one.
fn in_order(lines: &mut Lines, x: u32, y: u32) -> Foot
    requires { lines.old.used + 13 ≤ most_lines }
    ensures { Follows lines.old lines.new (sum_in_order x y) result }
{
    let a = lines.add(x, y);
    if pattern::is_nan(a) {
        return blocks::first_line(a);
    }
    after_sum(lines, x, y, a)
}

// With an infinite a no half is zero, so that recomposition has made all three lines, and no more.
fn after_sum(lines: &mut Lines, x: u32, y: u32, a: u32) -> Foot
    requires { lines.old.used + 12 ≤ most_lines }
    ensures { Follows lines.old lines.new (sum_from x y a) result }
{
    let v = lines.sub(a, x);
    let b = lines.sub(y, v);
    let pair = blocks::recomposed_finished(lines, a, b);
    if worksheet_choices::overflows(pair.second, a) {
        return halved(lines, x, y, a);
    }
    pair
}

// Half the operands have a finite sum.
fn halved(lines: &mut Lines, x: u32, y: u32, a: u32) -> Foot
    requires { lines.old.used + 7 ≤ most_lines }
    ensures { Follows lines.old lines.new (halved_sum x y a) result }
{
    let p = lines.mul(HALF, x);
    let q = lines.mul(HALF, y);
    let half = lines.add(p, q);
    let v = lines.sub(half, p);
    let rest = lines.sub(q, v);
    blocks::edge_finish(lines, a, half, rest)
}
