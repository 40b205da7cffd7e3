// Direct pairs of two binary32 patterns: the result rounded to nearest with ties to zero, RN0 of what that left over, and the flags.
#![tactic(auto)]

mod raised;

ghost use Rattle.std.specs.Prelude.{◌≡◌, true};
ghost use Rattle.rounding_spec.specs.Format.{binary32};
ghost use Rattle.rounding_spec.specs.Value.{decode, is_finite};
ghost use Rattle.augmented_spec.specs.Pairs.{sum_pair, difference_pair, product_pair};
ghost use Rattle.augmented_spec.specs.Direct.{direct_pair, none};
ghost use Rattle.augmented_spec.specs.Inner.{flags_without_u, pair_without_u};

use augmented_spec::Halves;
pub use augmented_spec::{Flags, Operation, Pair};
use pattern::{flipped, infinity, is_finite, nan_of};
use pattern_spec::{Class, NAN};

// The pair of any operation.
#[tactic(auto, unfolding(augmented_spec::specs::Direct::direct_pair))]
pub fn direct(operation: Operation, x: u32, y: u32) -> Pair
    ensures { result ≡ direct_pair operation binary32 x y }
{
    match operation {
        Operation::Sum => sum(x, y),
        Operation::Difference => difference(x, y),
        Operation::Product => product(x, y),
    }
}

// Compiled into what asks for a pair: as a call, a sum and a difference took 15 instructions more.
#[inline(always)]
pub fn sum(x: u32, y: u32) -> Pair
    ensures { result ≡ sum_pair binary32 x y }
{
    pair(x, y, augmented_sum::of_patterns(x, y))
}

#[tactic(auto, unfolding(augmented_spec::specs::Pairs::difference_pair))]
pub fn difference(x: u32, y: u32) -> Pair
    ensures { result ≡ difference_pair binary32 x y }
{
    sum(x, flipped(y))
}

pub fn product(x: u32, y: u32) -> Pair
    ensures { result ≡ product_pair binary32 x y }
{
    let total = exact::product(x, y);
    match total {
        Class::Finite(n) => augmented_product::of_number(n),
        Class::Infinite(s) => raised::twice(x, y, infinity(s)),
        Class::NotANumber => raised::twice(x, y, nan_of([x, y])),
    }
}

// A product's flags alone; which NaN it is does not matter to them. No twin of `product`: without the patterns it takes 58 instructions
// fewer (docs/DECISIONS.md).
pub fn product_flags(x: u32, y: u32) -> Flags
    ensures { result ≡ (product_pair binary32 x y).flags }
{
    let class = exact::product(x, y);
    match class {
        Class::Finite(n) => augmented_product::flags_of_number(n),
        Class::Infinite(s) => raised::of_special(x, y, infinity(s)),
        Class::NotANumber => raised::of_special(x, y, NAN),
    }
}

// A finite first comes from finite operands, and no sum is inexact.
fn pair(x: u32, y: u32, halves: Halves) -> Pair
    requires { is_finite (decode binary32 halves.first) ≡ true → flags_without_u x y halves.first ≡ none }
    ensures { result ≡ pair_without_u x y halves.first halves.second }
{
    let flags = if is_finite(halves.first) {
        Flags::default()
    } else {
        raised::of_special(x, y, halves.first)
    };
    Pair {
        first: halves.first,
        second: halves.second,
        flags,
    }
}
