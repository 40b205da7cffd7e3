// The lines of a product. The first one decides on the others.
ghost use Rattle.std.specs.Prelude.{◌+◌, ◌≤◌};
ghost use Rattle.worksheet_spec.specs.Lines.{most_lines};
ghost use Rattle.worksheet_spec.specs.Sheets.{infinite_product, tiny_product, scaled_down, middle_product, other_product, product_sheet};
ghost use Rattle.worksheet_lines.specs.Inner.{from_first, Follows};

use pattern::flipped;
use worksheet_lines::{Foot, Lines, blocks};
use worksheet_spec::{Branch, HALF, PLUS_ZERO, SMALLEST, TWO_TO_24, TWO_TO_48, TWO_TO_MINUS_24};

// A sheet begins in the first row, and the rows behind it stay as they were.
pub fn product(lines: &mut Lines, x: u32, y: u32) -> Foot
    ensures { Follows (from_first lines.old) lines.new (product_sheet x y) result }
{
    lines.used = 0;
    let a = lines.mul(x, y);
    match worksheet_choices::branch_of(a) {
        Branch::NotANumber => blocks::first_line(a),
        Branch::Infinite => infinite(lines, x, y, a),
        Branch::Zero => blocks::first_line(a),
        Branch::Tiny => tiny(lines, x, y, a),
        Branch::Middle => middle(lines, x, y),
        Branch::Other => other(lines, x, y, a),
    }
}

// Half an operand has a finite product.
fn infinite(lines: &mut Lines, x: u32, y: u32, a: u32) -> Foot
    requires { lines.old.used + 5 ≤ most_lines }
    ensures { Follows lines.old lines.new (infinite_product x y a) result }
{
    let h = lines.mul(HALF, x);
    let half = lines.mul(h, y);
    let rest = lines.fused(h, y, flipped(half));
    blocks::edge_finish(lines, a, half, rest)
}

// The rest is lost, but tells a tie.
fn tiny(lines: &mut Lines, x: u32, y: u32, a: u32) -> Foot
    requires { lines.old.used + 10 ≤ most_lines }
    ensures { Follows lines.old lines.new (tiny_product x y a) result }
{
    let m = lines.mul(TWO_TO_24, x);
    let n = lines.mul(TWO_TO_24, y);
    let t1 = lines.mul(m, n);
    let t2 = lines.fused(m, n, flipped(t1));
    let g = lines.mul(TWO_TO_48, a);
    let t3 = lines.sub(t1, g);
    let z = lines.add(t2, t3);
    let w = lines.sub(z, t3);
    if worksheet_choices::tiny_tie(a, z, w, t2) {
        let first = lines.sub(a, pattern::copy_sign(SMALLEST, a));
        let second = lines.mul(PLUS_ZERO, first);
        return Foot { first, second };
    }
    let second = lines.mul(PLUS_ZERO, a);
    Foot { first: a, second }
}

// The pair is found 2^24 times as large.
fn middle(lines: &mut Lines, x: u32, y: u32) -> Foot
    requires { lines.old.used + 12 ≤ most_lines }
    ensures { Follows lines.old lines.new (middle_product x y) result }
{
    let m = lines.mul(TWO_TO_24, x);
    let a = lines.mul(m, y);
    let b = lines.fused(m, y, flipped(a));
    let pair = blocks::recomposition(lines, a, b);
    scaled_down(lines, pair.first, pair.second)
}

// A rest that was a tie is rounded again, toward zero.
fn scaled_down(lines: &mut Lines, a: u32, b: u32) -> Foot
    requires { lines.old.used + 6 ≤ most_lines }
    ensures { Follows lines.old lines.new (scaled_down a b) result }
{
    let first = lines.mul(TWO_TO_MINUS_24, a);
    let beta = lines.mul(TWO_TO_MINUS_24, b);
    let g = lines.mul(TWO_TO_24, beta);
    let r = lines.sub(g, b);
    if worksheet_choices::rest_tie(beta, r) {
        let second = lines.sub(beta, pattern::copy_sign(SMALLEST, beta));
        return blocks::zero_finish(lines, first, second);
    }
    blocks::zero_finish(lines, first, beta)
}

fn other(lines: &mut Lines, x: u32, y: u32, a: u32) -> Foot
    requires { lines.old.used + 5 ≤ most_lines }
    ensures { Follows lines.old lines.new (other_product x y a) result }
{
    let b = lines.fused(x, y, flipped(a));
    blocks::recomposed_finished(lines, a, b)
}
