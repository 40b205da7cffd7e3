// Rounding of an exact magnitude to binary32: the one place where any operation rounds.
#![tactic(auto)]

ghost use Rattle.std.specs.Prelude.{◌≡◌, suc, ◌+◌, ◌-◌, ◌*◌, ◌/◌, ◌^◌, ◌≤◌, ◌<◌, max, cond, eqb, ltb};
ghost use Rattle.std.specs.Float.Ieee.{unlike};
ghost use Rattle.rounding_spec.specs.Format.{binary32, limit};
ghost use Rattle.rounding_spec.specs.Round.{keep, left_over, rounded_up};
ghost use Rattle.rounding_spec.specs.Nearest.{dist};
ghost use Rattle.rounding_spec.specs.Inner.{tie_bit, packed};
ghost use Rattle.rounding_spec.specs.Value.{finite, encode, round_finite};

use choose::choose;
use rounding_spec::{Number, Ties};

const INFINITY: u64 = 0x7f80_0000;

// Rounds a number that counts 2^-298.
pub fn round(ties: Ties, number: Number) -> u32
    ensures { result ≡ encode binary32 (round_finite ties binary32 number.sign (number.sig * 2 ^ number.exp)) }
{
    round_with_rest(ties, number).pattern
}

// A rounded number, and what the rounding left over, in the unit of the significand that was rounded. `none` is whether that is nothing,
// which is known before the rest is brought to its unit: asked of the rest, a step took 9 to 13 instructions more (docs/SPEED.md). `up` is
// the side that the rest lies on, and no flag of whether there is one: a rest of 0 has a side too (`up_value`).
#[derive(Clone, Copy)]
pub struct WithRest {
    pub pattern: u32,
    pub rest: u64,
    pub up: bool,
    pub none: bool,
}

// Rounds a number that counts 2^-298; the rest counts 2^exp of these. Shift and exponent are found by R11.9.
// Where the pattern is infinite, rest and side are those of the number that it would be if exponents had no bound.
pub fn round_with_rest(ties: Ties, number: Number) -> WithRest
    ensures pattern_value { result.pattern ≡ encode binary32 (round_finite ties binary32 number.sign (number.sig * 2 ^ number.exp)) }
    ensures rest_value { result.rest * 2 ^ number.exp ≡ left_over ties 23 149 (number.sig * 2 ^ number.exp) }
    ensures up_value { result.up ≡ rounded_up ties 23 149 (number.sig * 2 ^ number.exp) }
    ensures none_value { result.none ≡ eqb (left_over ties 23 149 (number.sig * 2 ^ number.exp)) 0 }
{
    let Number { sign, sig, exp } = number;
    if sig == 0 {
        return WithRest {
            pattern: packed(sign, 0, 0),
            rest: 0,
            up: false,
            none: true,
        };
    }
    let zeros = u64::leading_zeros(sig) as u64;
    let digits = (exp as u64) + 64 - zeros;
    let place = last_place(digits);
    let n = sig << zeros;
    let shift = place + 64 - digits;
    let q = kept(ties, n, shift);
    let left = left_over(n, shift, q);
    WithRest {
        pattern: packed(sign, place - 149, q),
        rest: left.rest >> zeros,
        up: left.up,
        none: left.none,
    }
}

// The exponent of the last place of a number with so many digits: 24 are kept, and none below 2^-149.
fn last_place(digits: u64) -> u64
    ensures { result ≡ max 149 (digits - 24) }
{
    digits.max(173) - 24
}

// A word, how many of its digits go and, for `left_over`, what is kept of it stay numbers: only these two private functions take them
// together, and `keep` and `dist`, which their contracts cite, take them so.
fn kept(ties: Ties, n: u64, shift: u64) -> u64
    requires { 0 < shift }
    ensures { result ≡ keep ties shift n }
{
    if shift > 63 {
        return kept_far(ties, n, shift);
    }
    let q = n >> shift;
    let rest = n - (q << shift);
    if rest + tie_bit(ties, q) > 1 << (shift - 1) {
        q + 1
    } else {
        q
    }
}

// All digits are dropped; a half that is exactly met goes to 0, which is even, under either rule.
fn kept_far(ties: Ties, n: u64, shift: u64) -> u64
    requires { 64 ≤ shift }
    ensures { result ≡ keep ties shift n }
{
    if shift > 64 {
        0
    } else if n > 0x8000_0000_0000_0000 {
        1
    } else {
        0
    }
}

// The distance of two numbers, whether the second is the larger, and whether they are equal: the same of `WithRest`, before the rest is
// brought to its unit, and with both flags for the same reasons.
#[derive(Clone, Copy)]
pub struct Left {
    pub rest: u64,
    pub up: bool,
    pub none: bool,
}

fn left_over(n: u64, shift: u64, q: u64) -> Left
    requires quotient { (n / 2 ^ shift ≤ q) × (q ≤ suc (n / 2 ^ shift)) }
    requires half_unit { (0 < n) × (2 * (q * 2 ^ shift) ≤ 2 * n + 2 ^ shift) }
    ensures rest_value { result.rest ≡ dist (q * 2 ^ shift) n }
    ensures up_value { result.up ≡ ltb n (q * 2 ^ shift) }
    ensures none_value { result.none ≡ eqb (dist (q * 2 ^ shift) n) 0 }
{
    if shift > 63 {
        return left_far(n, q);
    }
    let down = n >> shift;
    let rest = n - (down << shift);
    let up = down < q;
    Left {
        rest: choose(up, (1 << shift) - rest, rest),
        up,
        none: rest == 0,
    }
}

// All digits were dropped: q is 0 or 1, and where it is 1 the unit is 2^64.
fn left_far(n: u64, q: u64) -> Left
    requires { (q ≤ 1) × (0 < n) }
    ensures rest_value { result.rest ≡ dist (q * 2 ^ 64) n }
    ensures up_value { result.up ≡ ltb n (q * 2 ^ 64) }
    ensures none_value { result.none ≡ eqb (dist (q * 2 ^ 64) n) 0 }
{
    if q == 0 {
        return Left {
            rest: n,
            up: false,
            none: false,
        };
    }
    Left {
        rest: 0xffff_ffff_ffff_ffff - n + 1,
        up: true,
        none: false,
    }
}

fn tie_bit(ties: Ties, q: u64) -> u64
    ensures { result ≡ tie_bit ties q }
{
    match ties {
        Ties::ToEven => q % 2,
        Ties::ToZero => 0,
    }
}

// A rest that counts 2^-149, with the sign of the number that was rounded, on the side of it that `up` says; a zero keeps that sign. One
// more digit keeps the count of leading zeros below 64, so that zero needs no branch.
pub fn rest_pattern(rest: Number, up: bool) -> u32
    requires { (rest.sig < 2 ^ 24) × (rest.sig * 2 ^ rest.exp < limit binary32) }
    ensures { result ≡ encode binary32 (finite (cond (eqb rest.sig 0) rest.sign (unlike rest.sign up)) (rest.sig * 2 ^ rest.exp)) }
{
    let zero = rest.sig == 0;
    let room = (u64::leading_zeros(2 * rest.sig + 1) - 39) as u16;
    let shift = room.min(rest.exp);
    let exp = choose(zero, 0, rest.exp - shift);
    let minus = choose(zero, rest.sign, rest.sign != up);
    packed(minus, exp as u64, rest.sig << shift)
}

// A carry out of the fraction runs into the exponent field by itself. This takes no `Number`, whose exponent has 16 bits: that would ask
// more of callers than `exp ≤ 0x1_0000` does.
pub fn packed(sign: bool, exp: u64, sig: u64) -> u32
    requires { (exp ≤ 0x1_0000) × (sig ≤ 0x100_0000) }
    ensures { result ≡ packed sign exp sig }
{
    let bits = exp * 0x80_0000 + sig;
    let below = bits.min(INFINITY) as u32;
    if sign { 0x8000_0000 + below } else { below }
}
