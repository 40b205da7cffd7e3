// The four rounding steps on binary32 patterns: the exact result on integers, and one rounding. The mark (R2.8) says whether that lost
// nothing, or something, or whether there was nothing to round.
#![tactic(auto)]

ghost use Rattle.std.specs.Prelude.{◌≡◌};
ghost use Rattle.binary32_spec.specs.Steps.{add_step, sub_step, mul_step, fma_step};
ghost use Rattle.binary32_spec.specs.Marks.{add_mark, sub_mark, mul_mark, fma_mark};

use binary32_add::marks::{rounded, special};
pub use binary32_spec::Outcome;
use pattern::{flipped, infinity, is_nan, nan_of};
use pattern_spec::Class;

pub fn add(x: u32, y: u32) -> Outcome
    ensures result_value { result.result ≡ add_step x y }
    ensures mark_value { result.mark ≡ add_mark x y }
{
    binary32_add::of_patterns(x, y)
}

// The addend is flipped; a NaN in its place keeps its sign.
pub fn sub(x: u32, y: u32) -> Outcome
    ensures result_value { result.result ≡ sub_step x y }
    ensures mark_value { result.mark ≡ sub_mark x y }
{
    if is_nan(y) {
        return special(nan_of([x, y]));
    }
    binary32_add::of_patterns(x, flipped(y))
}

pub fn mul(x: u32, y: u32) -> Outcome
    ensures result_value { result.result ≡ mul_step x y }
    ensures mark_value { result.mark ≡ mul_mark x y }
{
    match exact::product(x, y) {
        Class::NotANumber => special(nan_of([x, y])),
        Class::Infinite(s) => special(infinity(s)),
        Class::Finite(n) => rounded(n),
    }
}

pub fn fma(x: u32, y: u32, z: u32) -> Outcome
    ensures result_value { result.result ≡ fma_step x y z }
    ensures mark_value { result.mark ≡ fma_mark x y z }
{
    binary32_fma::of_patterns(x, y, z)
}
