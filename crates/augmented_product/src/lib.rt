// Pairs of finite products. What is asked of them (`ProductDigits`) is a predicate and no type: `exact::product` hands out a `Class` of a
// `Number`, as `classify` does, and a type of 48 digits would be a second class and a second number for products alone.
#![tactic(auto)]

ghost use Rattle.std.specs.Prelude.{◌≡◌, false, ◌*◌, ◌^◌};
ghost use Rattle.rounding_spec.specs.Format.{binary32};
ghost use Rattle.rounding_spec.specs.Numbers.{number_value};
ghost use Rattle.augmented_spec.specs.Pairs.{pair_of};
ghost use Rattle.augmented_spec.specs.Inner.{finite_answer, product_answer, ShortRest};
ghost use Rattle.augmented_product.specs.Inner.{ProductDigits, SmallProduct};

use augmented_spec::{Flags, Pair};
use augmented_sum::near;
use pattern::{is_infinite, zero_takes};
use rounding::{round, round_with_rest};
use rounding_spec::{Number, Ties};

// Where the exponent is below 149, the rest can have digits below u.
pub fn of_number(number: Number) -> Pair
    requires { ProductDigits number }
    ensures { result ≡ product_answer number.sign (number.sig * 2 ^ number.exp) }
{
    if number.exp < 149 {
        twice_rounded(number)
    } else {
        with_rest(number)
    }
}

// The flags alone. Where the exponent is below 149, the product is too small to overflow.
pub fn flags_of_number(number: Number) -> Flags
    requires { ProductDigits number }
    ensures { result ≡ (product_answer number.sign (number.sig * 2 ^ number.exp)).flags }
{
    if number.exp < 149 {
        return Flags::raised(false, false, underflows(number));
    }
    let over = is_infinite(round(Ties::ToZero, number));
    Flags::raised(false, over, false)
}

// Whether the rest, rounded again, leaves something over; on which side it is makes no difference.
fn underflows(number: Number) -> bool
    requires { SmallProduct number }
    ensures { result ≡ (product_answer number.sign (number.sig * 2 ^ number.exp)).flags.underflow }
{
    let first = round_with_rest(Ties::ToZero, number);
    let left = Number {
        sig: first.rest,
        ..number
    };
    round_with_rest(Ties::ToZero, left).rest != 0
}

// The rest is a number of the format itself, and nothing is lost.
fn with_rest(number: Number) -> Pair
    requires { ShortRest number.sig number.exp }
    ensures { result ≡ finite_answer (pair_of binary32 (number_value number)) false }
{
    let halves = near(number);
    let over = is_infinite(halves.first);
    Pair {
        first: halves.first,
        second: halves.second,
        flags: Flags::raised(false, over, false),
    }
}

// First is the rounded number, second what that left over, rounded again on its side of first.
fn twice_rounded(number: Number) -> Pair
    requires { SmallProduct number }
    ensures { result ≡ product_answer number.sign (number.sig * 2 ^ number.exp) }
{
    let first = round_with_rest(Ties::ToZero, number);
    let rest = Number {
        sign: number.sign != first.up,
        sig: first.rest,
        exp: number.exp,
    };
    let second = round_with_rest(Ties::ToZero, rest);
    Pair {
        first: first.pattern,
        second: zero_takes(number.sign, second.pattern),
        flags: Flags::raised(false, false, second.rest != 0),
    }
}
