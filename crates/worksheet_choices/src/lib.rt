// What the rules of a step sheet ask of patterns (R5.3, R5.4): by the values that they stand for, and without a line.
#![tactic(auto)]

ghost use Rattle.std.specs.Prelude.{◌≡◌};
ghost use Rattle.worksheet_spec.specs.Lines.{value, equal};
ghost use Rattle.worksheet_spec.specs.Sheets.{swaps, at_edge, overflows, tiny_tie, rest_tie, branch_of};

use choose::choose;
use pattern::{copy_sign, flipped, is_infinite, is_zero};
use worksheet_spec::Branch;

// What results are compared with: 2^127, 2^102, 2^-102 and 2^-126.
const TWO_TO_127: u32 = 0x7f00_0000;

const TWO_TO_102: u32 = 0x7280_0000;

const TWO_TO_MINUS_102: u32 = 0x0c80_0000;

const TWO_TO_MINUS_126: u32 = 0x0080_0000;

// Patterns that differ have equal values only where both are zeros; a pattern equals itself unless it is a NaN's.
pub fn equal(x: u32, y: u32) -> bool
    ensures { result ≡ equal x y }
{
    let size = x % 0x8000_0000;
    let other = y % 0x8000_0000;
    choose(x == y, size <= 0x7f80_0000, size + other == 0)
}

// |y| > |x|. The bits of a NaN x are above those of every y that is no NaN, so that x needs no test of its own.
pub fn swaps(x: u32, y: u32) -> bool
    ensures { result ≡ swaps x y }
{
    let other = y % 0x8000_0000;
    choose(other <= 0x7f80_0000, x % 0x8000_0000 < other, false)
}

// a is 2^127 of either sign, and b is 2^102 with the other one. Such values have one pattern each, so that patterns are compared.
pub fn at_edge(a: u32, b: u32) -> bool
    ensures { result ≡ at_edge a b }
{
    let half = a == copy_sign(TWO_TO_127, a);
    let rest = b == flipped(copy_sign(TWO_TO_102, a));
    choose(half, rest, false)
}

pub fn overflows(second: u32, a: u32) -> bool
    ensures { result ≡ overflows second a }
{
    choose(is_zero(second), false, is_infinite(a))
}

// Where a tiny product is lowered (R5.16).
pub fn tiny_tie(a: u32, z: u32, w: u32, t2: u32) -> bool
    ensures { result ≡ tiny_tie a z w t2 }
{
    let half = z == flipped(copy_sign(TWO_TO_MINUS_102, a));
    choose(half, equal(w, t2), false)
}

// beta is not zero, and r is 2^-126 with its sign.
pub fn rest_tie(beta: u32, r: u32) -> bool
    ensures { result ≡ rest_tie beta r }
{
    let half = r == copy_sign(TWO_TO_MINUS_126, beta);
    choose(is_zero(beta), false, half)
}

// The bits below the sign are in the order of magnitudes: 2^-125 is 0x0100_0000.
pub fn branch_of(a: u32) -> Branch
    ensures { result ≡ branch_of (value a) }
{
    match a % 0x8000_0000 {
        0 => Branch::Zero,
        1..=0x00ff_ffff => Branch::Tiny,
        0x0100_0000..=0x0c80_0000 => Branch::Middle,
        0x0c80_0001..=0x7f7f_ffff => Branch::Other,
        0x7f80_0000 => Branch::Infinite,
        _ => Branch::NotANumber,
    }
}
