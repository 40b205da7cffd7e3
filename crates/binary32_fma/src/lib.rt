// The sum of a product and a third operand, both in units of 2^-298, rounded once.
#![tactic(auto)]

ghost use Rattle.std.specs.Prelude.{◌≡◌, [], ◌∷◌, ◌^◌, ◌≤◌, ◌<◌};
ghost use Rattle.rounding_spec.specs.Format.{binary32};
ghost use Rattle.rounding_spec.specs.Value.{infinite, decode};
ghost use Rattle.rounding_spec.specs.Numbers.{number_value};
ghost use Rattle.pattern_spec.specs.Exact.{plus, finer};
ghost use Rattle.binary32_spec.specs.Steps.{result as step_result, fma_step};
ghost use Rattle.binary32_spec.specs.Marks.{fma_mark};
ghost use Rattle.pattern_spec.specs.Inner.{Product, Jammed};
ghost use Rattle.binary32_spec.specs.Inner.{outcome, outcome_of, Normal, Reaches};
ghost use Rattle.binary32_fma.specs.Inner.{Ordered};

use binary32_add::marks::special;
use binary32_add::{infinite_plus, round_sum};
use binary32_spec::Outcome;
use choose::choose;
use pattern::{classify, infinity, is_nan, nan_of, quieted};
use pattern_spec::Class;
use rounding_spec::Number;

// A product, which counts 2^-298, and a third operand, which counts 2^-149.
pub fn of_patterns(x: u32, y: u32, z: u32) -> Outcome
    ensures result_value { result.result ≡ fma_step x y z }
    ensures mark_value { result.mark ≡ fma_mark x y z }
{
    match exact::product(x, y) {
        Class::NotANumber => special(nan_of([x, y, z])),
        Class::Infinite(s) => special(infinite_product_plus(s, z)),
        Class::Finite(p) => finite_product_plus(p, z),
    }
}

fn infinite_product_plus(s: bool, z: u32) -> u32
    ensures { result ≡ step_result binary32 (z ∷ []) (plus (infinite s) (decode binary32 z)) }
{
    if is_nan(z) {
        return quieted(z);
    }
    infinite_plus(s, classify(z))
}

fn finite_product_plus(p: Number, z: u32) -> Outcome
    requires { Product p.sig p.exp }
    ensures { result ≡ outcome_of (z ∷ []) (plus (number_value p) (finer binary32 (decode binary32 z))) }
{
    match classify(z) {
        Class::NotANumber => special(quieted(z)),
        Class::Infinite(t) => special(infinity(t)),
        Class::Finite(c) => fused_sum(
            p,
            Number {
                exp: c.exp + 149,
                ..c
            },
        ),
    }
}

// A product of up to 48 digits and an operand of up to 24, which is normalised so that subnormal ones stand as far up as others.
fn fused_sum(p: Number, c: Number) -> Outcome
    requires product { Product p.sig p.exp }
    requires third { (c.sig < 2 ^ 24) × (149 ≤ c.exp) }
    ensures { result ≡ outcome (plus (number_value p) (number_value c)) }
{
    if c.sig == 0 {
        return round_sum(p.sign, p.sig, c.sign, 0, p.exp);
    }
    if p.sig == 0 {
        return round_sum(p.sign, 0, c.sign, c.sig, c.exp);
    }
    aligned(ordered(p, normalised(c)))
}

fn normalised(c: Number) -> Number
    requires { (0 < c.sig) × (c.sig < 2 ^ 24) × (149 ≤ c.exp) }
    ensures sign_kept { result.sign ≡ c.sign }
    ensures normal { Normal c.sig c.exp result.sig result.exp }
{
    let up = u64::leading_zeros(c.sig) - 40;
    Number {
        sign: c.sign,
        sig: c.sig << up,
        exp: c.exp - (up as u16),
    }
}

// Two addends, the first of which has the higher exponent, and can go up by `room` places.
#[derive(Clone, Copy)]
pub struct Addends {
    pub high: Number,
    pub low: Number,
    pub room: u16,
}

// A product and an operand of 24 digits, by their exponents. The room is what 63 digits leave beside 48 or 24.
fn ordered(p: Number, z: Number) -> Addends
    ensures { Ordered p z result }
{
    let first = z.exp <= p.exp;
    Addends {
        high: choose(first, p, z),
        low: choose(first, z, p),
        room: choose(first, 15, 39),
    }
}

// The first goes up by the whole way or all its room, and the second down by the rest of the way.
fn aligned(x: Addends) -> Outcome
    requires { Reaches x.high.sig x.high.exp x.low.sig x.low.exp x.room }
    ensures { result ≡ outcome (plus (number_value x.high) (number_value x.low)) }
{
    let gap = x.high.exp - x.low.exp;
    let up = gap.min(x.room);
    let low = jammed(x.low.sig, gap - up);
    round_sum(
        x.high.sign,
        x.high.sig << up,
        x.low.sign,
        low,
        x.high.exp - up,
    )
}

// b / 2^g to the whole number, made odd where something is cut off. Beyond 48 places nothing but that is left.
fn jammed(b: u64, g: u16) -> u64
    requires { b < 2 ^ 48 }
    ensures { Jammed b g result }
{
    let h = g.min(48);
    let q = b >> h;
    choose(q << h == b, q, q - q % 2 + 1)
}
