// What a total reads: RN0 of its number, and RN0 of the number less that; -0 where all its terms have been (R6.5 to R6.8).
#![tactic(auto)]

mod leading;

ghost use Rattle.std.specs.Prelude.{◌≡◌, not, ◌&&◌, ◌+◌, ◌*◌, ◌^◌, ◌≤◌, ◌<◌, eqb, length, take, nat_abs, ◌+ℤ◌};
ghost use Rattle.rounding_spec.specs.declared.Ties.TheVariants.{ToZero};
ghost use Rattle.rounding_spec.specs.Format.{binary32};
ghost use Rattle.rounding_spec.specs.Value.{encode, round};
ghost use Rattle.pattern_spec.specs.Exact.{int};
ghost use Rattle.augmented_spec.specs.Pairs.{pair_of};
ghost use Rattle.accumulator_spec.specs.Words.{integer, words_of_integer};
ghost use Rattle.accumulator_spec.specs.Totals.{number_size, total_size, count, sign_word, exact_number, pair_answer, reading};
ghost use Rattle.accumulator_spec.specs.Answers.{answer_read};
ghost use Rattle.accumulator_read.specs.Inner.{pair_of_halves};

use accumulator_fit::refusal;
use accumulator_spec::{NUMBER_SIZE, NotDone, SIGN_WORD};
use accumulator_words::place;
use augmented_spec::Halves;
use leading::{TOP, first_digits, magnitude};
use pattern::{classify, zero_takes};
use pattern_spec::Class;
use rounding_spec::{Number, Ties};

pub fn read(total: &[u32]) -> Result<Halves, NotDone>
    ensures { answer_read result ≡ reading total.now }
{
    refusal(total)?;
    if is_minus_zero(total) {
        return Ok(twice(0x8000_0000));
    }
    Ok(of_number(copied(total)))
}

// A fit total with terms, all of which have been -0. Its number is 0.
fn is_minus_zero(total: &[u32]) -> bool
    requires { length total.now ≡ total_size }
    ensures { result ≡ (eqb (sign_word total.now) 0 && not (eqb (count total.now) 0)) }
{
    total[SIGN_WORD] == 0 && total[NUMBER_SIZE] != 0
}

fn twice(half: u32) -> Halves
    ensures { (result.first ≡ half) × (result.second ≡ half) }
{
    Halves {
        first: half,
        second: half,
    }
}

// The number's words, which are not changed where they were lent.
fn copied(total: &[u32]) -> [u32; NUMBER_SIZE]
    requires { length total.now ≡ total_size }
    ensures { result ≡ take number_size total.now }
{
    let mut number = [0; NUMBER_SIZE];
    number.copy_from_slice(&total[0..NUMBER_SIZE]);
    number
}

// Second is rounded from the words that are left when first is taken away. RN0 of a number is never NaN.
fn of_number(number: [u32; NUMBER_SIZE]) -> Halves
    requires { nat_abs (integer number) < 2 ^ 639 }
    ensures { pair_of_halves result ≡ pair_answer (pair_of binary32 (exact_number (integer number))) }
{
    let first = rounded(number);
    let Class::Finite(n) = classify(first) else {
        return twice(first);
    };
    // A pattern counts 2^-149.
    let taken = Number {
        sign: !n.sign,
        sig: n.sig,
        exp: n.exp + 149,
    };
    let second = rounded(moved(number, taken));
    Halves {
        first,
        second: zero_takes(n.sign, second),
    }
}

// The number and another, which may reach into three words: all of them the first one's.
fn moved(number: [u32; NUMBER_SIZE], by: Number) -> [u32; NUMBER_SIZE]
    requires { by.exp + 96 ≤ 32 * number_size }
    ensures { result ≡ words_of_integer number_size (integer number +ℤ int by.sign (by.sig * 2 ^ by.exp)) }
{
    let mut sum = number;
    accumulator_words::add(&mut sum[0..NUMBER_SIZE], place(by));
    sum
}

// RN0 of the number.
fn rounded(number: [u32; NUMBER_SIZE]) -> u32
    ensures { result ≡ encode binary32 (round ToZero binary32 (exact_number (integer number))) }
{
    let minus = number[TOP] >= 0x8000_0000;
    let top = first_digits(magnitude(number));
    let leading = Number {
        sign: minus,
        sig: top.sig,
        exp: top.exp,
    };
    rounding::round(Ties::ToZero, leading)
}
