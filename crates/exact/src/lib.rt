// Exact sums and products, before any rounding.
#![tactic(auto)]

mod factors;

ghost use Rattle.std.specs.Prelude.{◌≡◌, ◌*◌, ◌%◌, ◌^◌, ◌<◌};
ghost use Rattle.rounding_spec.specs.Format.{binary32};
ghost use Rattle.rounding_spec.specs.Value.{finite, decode};
ghost use Rattle.pattern_spec.specs.Exact.{plus_finite, times};
ghost use Rattle.pattern_spec.specs.Inner.{ProductIs};

use crate::factors::{finite_times, infinite_times};
use choose::choose;
use pattern::classify;
use pattern_spec::Class;

// An exact sum, whose zero has its sign already.
#[derive(Clone, Copy)]
pub struct Signed {
    pub sign: bool,
    pub sig: u64,
}

// Significands of 32 bits and a gap modulo 32 ask nothing of the caller, as a `Number` would (docs/DECISIONS.md, "Total by narrow types").
pub fn sum(s: bool, m: u32, gap: u16, t: bool, n: u32) -> Signed
    ensures { plus_finite s (m * 2 ^ (gap % 32)) t n ≡ finite result.sign result.sig }
{
    signed_sum(s, (m as u64) << (gap % 32), t, n as u64)
}

// Signs are as good as random, so nothing branches on them. With two structs of sign and magnitude `add` of near operands takes 124
// instructions for 118, so that the four stay parameters.
pub fn signed_sum(s: bool, a: u64, t: bool, b: u64) -> Signed
    requires { (a < 2 ^ 63) × (b < 2 ^ 63) }
    ensures { plus_finite s a t b ≡ finite result.sign result.sig }
{
    let above = b < a;
    let high = choose(above, a, b);
    let low = choose(above, b, a);
    // An exact zero is minus only where both addends are.
    let common = s & t;
    Signed {
        sign: choose(above, s, choose(a < b, t, common)),
        sig: choose(s == t, high + low, high - low),
    }
}

// The product of two patterns, in units of 2^-298. How significand and exponent share it is free within the bounds of `Product`. Inlined
// always: as a call it comes back through memory, and `mul` took 64 instructions more.
#[inline(always)]
pub fn product(x: u32, y: u32) -> Class
    ensures { ProductIs (times (decode binary32 x) (decode binary32 y)) result }
{
    // Both are classed before anything is made of them (R11.7).
    let a = classify(x);
    let b = classify(y);
    match a {
        Class::NotANumber => Class::NotANumber,
        Class::Infinite(s) => infinite_times(s, b),
        Class::Finite(m) => finite_times(m, b),
    }
}
