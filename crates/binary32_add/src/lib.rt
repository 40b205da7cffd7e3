// Sums of two patterns, rounded once.
#![tactic(auto)]

pub mod marks;

ghost use Rattle.std.specs.Prelude.{◌≡◌, ◌*◌, ◌^◌, ◌≤◌, ◌<◌};
ghost use Rattle.rounding_spec.specs.Format.{binary32};
ghost use Rattle.rounding_spec.specs.Value.{infinite, encode};
ghost use Rattle.rounding_spec.specs.Numbers.{number_value};
ghost use Rattle.pattern_spec.specs.Exact.{plus_finite, plus, finer};
ghost use Rattle.binary32_spec.specs.Steps.{add_step};
ghost use Rattle.binary32_spec.specs.Marks.{add_mark};
ghost use Rattle.binary32_spec.specs.Inner.{outcome};
ghost use Rattle.pattern_spec.specs.Classes.{value_of};
ghost use Rattle.pattern_spec.specs.Inner.{Operand, Below, Bounded};

use crate::marks::{rounded, special};
use binary32_spec::{EXACT, Outcome, ROUNDED};
use choose::choose;
use exact::{Signed, signed_sum};
use pattern::{classify, infinity, larger, nan_of, smaller};
use pattern_spec::{Class, NAN};
use rounding_spec::Number;

// A NaN is larger than every number, so that behind the first arm no operand is NaN.
pub fn of_patterns(x: u32, y: u32) -> Outcome
    ensures result_value { result.result ≡ add_step x y }
    ensures mark_value { result.mark ≡ add_mark x y }
{
    let q = smaller(x, y);
    match classify(larger(x, y)) {
        Class::NotANumber => special(nan_of([x, y])),
        Class::Infinite(s) => special(infinite_plus(s, classify(q))),
        Class::Finite(a) => finite_plus(a, classify(q)),
    }
}

// An infinity and an operand, which need no rounding.
pub fn infinite_plus(s: bool, b: Class) -> u32
    ensures { result ≡ encode binary32 (plus (infinite s) (value_of b)) }
{
    match b {
        Class::NotANumber => NAN,
        Class::Infinite(t) => { if s == t { infinity(s) } else { NAN } }
        Class::Finite(_) => infinity(s),
    }
}

fn finite_plus(a: Number, b: Class) -> Outcome
    requires operand { Operand a.sig a.exp }
    requires bounded { Bounded Operand b }
    requires below { Below a.exp b }
    ensures { result ≡ outcome (finer binary32 (plus (number_value a) (value_of b))) }
{
    match b {
        Class::NotANumber => special(NAN),
        Class::Infinite(t) => special(infinity(t)),
        Class::Finite(b) => finite_sum(a, b),
    }
}

// From 26 places on the second operand does not reach a quarter of the first one's last place, and is lost unless it is zero; up to 39 the
// first one's shifted significand fits 63 bits. 31 is between.
fn finite_sum(a: Number, b: Number) -> Outcome
    requires order { b.exp ≤ a.exp }
    requires operand { Operand a.sig a.exp }
    requires operand_2 { Operand b.sig b.exp }
    ensures { result ≡ outcome (finer binary32 (plus (number_value a) (number_value b))) }
{
    let gap = a.exp - b.exp;
    if gap > 31 {
        return Outcome {
            result: rounding::packed(a.sign, a.exp as u64, a.sig),
            mark: choose(b.sig == 0, EXACT, ROUNDED),
        };
    }
    round_sum(a.sign, a.sig << gap, b.sign, b.sig, b.exp + 149)
}

// Two addends ±a * 2^exp and ±b * 2^exp: no two `Number`s, which would have two exponents, and whose signs and significands go on to
// `exact::signed_sum` as four.
pub fn round_sum(s: bool, a: u64, t: bool, b: u64, exp: u16) -> Outcome
    requires { (a < 2 ^ 63) × (b < 2 ^ 63) }
    ensures { result ≡ outcome (plus_finite s (a * 2 ^ exp) t (b * 2 ^ exp)) }
{
    let Signed { sign, sig } = signed_sum(s, a, t, b);
    rounded(Number { sign, sig, exp })
}
