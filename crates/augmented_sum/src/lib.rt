// Both halves of a sum. What is large here is compiled once for sums and differences.
#![tactic(auto)]

ghost use Rattle.std.specs.Prelude.{◌≡◌, false, List, [], ◌∷◌, ℕ, ◌≤◌};
ghost use Rattle.rounding_spec.specs.Format.{binary32};
ghost use Rattle.rounding_spec.specs.Value.{decode, is_finite};
ghost use Rattle.rounding_spec.specs.Numbers.{number_value};
ghost use Rattle.pattern_spec.specs.Inner.{Operand};
ghost use Rattle.binary32_spec.specs.Steps.{add_step};
ghost use Rattle.augmented_spec.specs.Pairs.{pair_of, exact_sum};
ghost use Rattle.augmented_spec.specs.Inner.{patterns_of, Apart, ShortRest};

use augmented_spec::Halves;
use choose::choose;
use pattern::{classify, is_finite, is_infinite, larger, nan_of, smaller, zero_takes};
use pattern_spec::Class;
use rounding::{rest_pattern, round_with_rest};
use rounding_spec::{Number, Ties};

// The larger magnitude comes first, whose exponent then is not below the other's. A NaN goes by the operands as they stand.
pub fn of_patterns(x: u32, y: u32) -> Halves
    ensures { result ≡ patterns_of (x ∷ y ∷ []) (pair_of binary32 (exact_sum binary32 x y)) }
{
    let p = larger(x, y);
    let q = smaller(x, y);
    let Class::Finite(a) = classify(p) else {
        return special(x, y);
    };
    // The smaller magnitude is finite too.
    let Class::Finite(b) = classify(q) else {
        unreachable!()
    };
    finite_plus(p, a, q, b)
}

// From 26 places on the second operand does not reach a quarter of the first one's last place; `exact::sum` goes up to 31.
fn finite_plus(p: u32, a: Number, q: u32, b: Number) -> Halves
    requires operand { Operand a.sig a.exp }
    requires value_of_p { decode binary32 p ≡ number_value a }
    requires operand_2 { Operand b.sig b.exp }
    requires value_of_q { decode binary32 q ≡ number_value b }
    requires below { b.exp ≤ a.exp }
    ensures { result ≡ patterns_of (p ∷ q ∷ []) (pair_of binary32 (exact_sum binary32 p q)) }
{
    let gap = a.exp - b.exp;
    if gap > 31 {
        return apart(p, q);
    }
    let total = exact::sum(a.sign, a.sig as u32, gap, b.sign, b.sig as u32);
    near(Number {
        sign: total.sign,
        sig: total.sig,
        exp: b.exp + 149,
    })
}

// An infinite or NaN sum needs no rounding.
fn special(x: u32, y: u32) -> Halves
    requires { is_finite (exact_sum binary32 x y) ≡ false }
    ensures { result ≡ patterns_of (x ∷ y ∷ []) (pair_of binary32 (exact_sum binary32 x y)) }
{
    let sum = unrounded(x, y);
    Halves {
        first: sum,
        second: sum,
    }
}

// An infinity beside a number or beside itself is the sum; else there is a NaN, or there are opposite infinities.
fn unrounded(x: u32, y: u32) -> u32
    requires { is_finite (exact_sum binary32 x y) ≡ false }
    ensures { result ≡ add_step x y }
{
    if is_infinite(x) & ((x == y) | is_finite(y)) {
        x
    } else if is_infinite(y) & is_finite(x) {
        y
    } else {
        nan_of([x, y])
    }
}

// Two operands so far apart that they are their own pair, but for the sign of a zero.
fn apart(p: u32, q: u32) -> Halves
    requires { Apart p q }
    ensures { result ≡ patterns_of (p ∷ q ∷ []) (pair_of binary32 (exact_sum binary32 p q)) }
{
    Halves {
        first: p,
        second: zero_takes(p >= 0x8000_0000, q),
    }
}

// The rest of a sum has at most 24 digits, and none below u: it is a number of the format itself. No half is NaN, whatever the operands.
// Most products are so too. Compiled into both: as a call it has to keep what stands around it.
#[inline(always)]
pub fn near(number: Number) -> Halves
    requires { ShortRest number.sig number.exp }
    ensures { (operands : List ℕ) → result ≡ patterns_of operands (pair_of binary32 (number_value number)) }
{
    let first = round_with_rest(Ties::ToZero, number);
    let over = is_infinite(first.pattern);
    // The rest of an infinite first is not used, and has to stay in range.
    let rest = Number {
        sign: number.sign,
        sig: first.rest,
        exp: choose(over, 0, number.exp - 149),
    };
    let second = rest_pattern(rest, first.up);
    Halves {
        first: first.pattern,
        second: choose(over, first.pattern, second),
    }
}
