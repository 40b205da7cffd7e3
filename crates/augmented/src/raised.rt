// Flags of two operands whose first is infinite or NaN.
ghost use Rattle.std.specs.Prelude.{◌≡◌};
ghost use Rattle.rounding_spec.specs.Format.{binary32};
ghost use Rattle.rounding_spec.specs.Value.{decode};
ghost use Rattle.augmented_spec.specs.Pairs.{invalid, overflowed};
ghost use Rattle.augmented_spec.specs.Inner.{flags_without_u, pair_without_u};

use augmented_spec::{Flags, Pair};
use pattern::{is_finite, is_infinite, is_nan, signalling};

pub fn twice(x: u32, y: u32, half: u32) -> Pair
    ensures { result ≡ pair_without_u x y half half }
{
    Pair {
        first: half,
        second: half,
        flags: of_special(x, y, half),
    }
}

pub fn of_special(x: u32, y: u32, first: u32) -> Flags
    ensures { result ≡ flags_without_u x y first }
{
    Flags::raised(invalid(x, y, first), overflowed(x, y, first), false)
}

#[tactic(auto, unfolding(augmented_spec::specs::Pairs::invalid))]
fn invalid(x: u32, y: u32, first: u32) -> bool
    ensures { result ≡ invalid binary32 x y (decode binary32 first) }
{
    signalling(x) | signalling(y) | (is_nan(first) & !is_nan(x) & !is_nan(y))
}

#[tactic(auto, unfolding(augmented_spec::specs::Pairs::overflowed))]
fn overflowed(x: u32, y: u32, first: u32) -> bool
    ensures { result ≡ overflowed binary32 x y (decode binary32 first) }
{
    is_infinite(first) & is_finite(x) & is_finite(y)
}
