// What is asked of a pattern, and patterns with another sign.
#![tactic(auto)]

ghost use Rattle.std.specs.Prelude.{◌≡◌};
ghost use Rattle.rounding_spec.specs.Format.{binary32};
ghost use Rattle.rounding_spec.specs.Value.{infinite, decode, is_nan, is_infinite, is_finite, is_zero, signalling, encode, quieted, nan_of};
ghost use Rattle.pattern_spec.specs.Classes.{class_of, both_finite, flip, copy_sign, zero_pattern};
ghost use Rattle.pattern_spec.specs.Inner.{larger, smaller};

use choose::choose;
use pattern_spec::{Class, NAN};
use rounding_spec::Number;

pub fn classify(x: u32) -> Class
    ensures { result ≡ class_of x }
{
    let sign = x >= 0x8000_0000;
    let field = x % 0x8000_0000 / 0x80_0000;
    let fraction = x % 0x80_0000;
    match field {
        0 => Class::Finite(Number {
            sign,
            sig: fraction as u64,
            exp: 0,
        }),
        1..=254 => Class::Finite(Number {
            sign,
            sig: (0x80_0000 + fraction) as u64,
            exp: (field - 1) as u16,
        }),
        // 255
        _ => {
            if fraction == 0 {
                Class::Infinite(sign)
            } else {
                Class::NotANumber
            }
        }
    }
}

// `is_finite` to `is_zero`, and `larger` beside `smaller`, are no twins: each is one line with a test, or an order, of its own.
pub fn is_finite(x: u32) -> bool
    ensures { result ≡ is_finite (decode binary32 x) }
{
    x % 0x8000_0000 < 0x7f80_0000
}

pub fn is_infinite(x: u32) -> bool
    ensures { result ≡ is_infinite (decode binary32 x) }
{
    x % 0x8000_0000 == 0x7f80_0000
}

pub fn is_nan(x: u32) -> bool
    ensures { result ≡ is_nan (decode binary32 x) }
{
    x % 0x8000_0000 > 0x7f80_0000
}

pub fn signalling(x: u32) -> bool
    ensures { result ≡ signalling binary32 x }
{
    is_nan(x) & (x / 0x40_0000 % 2 == 0)
}

pub fn is_zero(x: u32) -> bool
    ensures { result ≡ is_zero (decode binary32 x) }
{
    x % 0x8000_0000 == 0
}

pub fn both_finite(x: u32, y: u32) -> bool
    ensures { result ≡ both_finite x y }
{
    is_finite(x) & is_finite(y)
}

// The operand of the larger magnitude, whose exponent then is not below the other's.
pub fn larger(x: u32, y: u32) -> u32
    ensures { result ≡ larger x y }
{
    choose(x % 0x8000_0000 < y % 0x8000_0000, y, x)
}

pub fn smaller(x: u32, y: u32) -> u32
    ensures { result ≡ smaller x y }
{
    choose(x % 0x8000_0000 < y % 0x8000_0000, x, y)
}

pub fn infinity(sign: bool) -> u32
    ensures { result ≡ encode binary32 (infinite sign) }
{
    if sign { 0xff80_0000 } else { 0x7f80_0000 }
}

// A NaN's sign and payload, and the highest fraction bit.
pub fn quieted(x: u32) -> u32
    ensures { result ≡ quieted binary32 x }
{
    let payload = x % 0x40_0000;
    if x >= 0x8000_0000 {
        0xffc0_0000 + payload
    } else {
        NAN + payload
    }
}

// The NaN that a NaN result of these operands is: the first one's, quieted.
pub fn nan_of<const N: usize>(operands: [u32; N]) -> u32
    ensures { result ≡ nan_of binary32 operands.entry }
{
    for x in &operands {
        if is_nan(*x) {
            return quieted(*x);
        }
    }
    NAN
}

// A NaN's sign bit too: a difference flips it before anything is known of the operand.
pub fn flipped(x: u32) -> u32
    ensures { result ≡ flip binary32 x }
{
    if x >= 0x8000_0000 {
        x - 0x8000_0000
    } else {
        x + 0x8000_0000
    }
}

pub fn copy_sign(c: u32, a: u32) -> u32
    ensures { result ≡ copy_sign c a }
{
    choose(a >= 0x8000_0000, flipped(c), c)
}

pub fn zero_takes(sign: bool, x: u32) -> u32
    ensures { result ≡ zero_pattern sign x }
{
    let zero = choose(sign, 0x8000_0000, 0);
    choose(is_zero(x), zero, x)
}
