// Whether lent words are a fit total (R6.3, R6.12), and one that takes a term: of the number the top words tell, but at the limit itself,
// and where the sign word asks for 0.
#![tactic(auto)]

pub mod old;

ghost use Rattle.std.specs.Prelude.{◌≡◌, ◌<◌, true, length, if◌then◌else◌, Ok};
ghost use Rattle.accumulator_spec.specs.Words.{complement};
ghost use Rattle.accumulator_spec.specs.Totals.{number_size, total_size, most_terms, count, sign_word};
ghost use Rattle.accumulator_spec.specs.Totals.{within_limits, sign_fits, fit};
ghost use Rattle.accumulator_fit.specs.Inner.{fault, below_limit};

use accumulator_spec::{MOST_TERMS, NUMBER_SIZE, NotDone, SIGN_WORD, TOTAL_SIZE};
use accumulator_words::is_zero;
use choose::choose;

// The top three words of the number: the limit counts the weight of the third.
const TOP: usize = NUMBER_SIZE - 1;

const NEXT: usize = NUMBER_SIZE - 2;

const THIRD: usize = NUMBER_SIZE - 3;

// What is tried first of lent words: whether they are a fit total (R8.7, R8.8, R8.16).
#[inline(always)]
pub fn refusal(total: &[u32]) -> Result<(), NotDone>
    ensures { result ≡ fault total.now }
{
    if total.len() != TOTAL_SIZE {
        return Err(NotDone::Length);
    }
    if !is_fit(total) {
        return Err(NotDone::Unfit);
    }
    Ok(())
}

// Nothing is to be refused, and the sign word is 1: told by length, count, sign word and top words, of which nearly every total's top two
// have nothing but the sign, all zeros or all ones. False leaves it open: where the total is empty, full, at its limit or unfit, or its
// terms have been -0. Written step by step: as one expression it took each term 3 instructions more.
pub fn has_room(total: &[u32]) -> bool
    ensures { result ≡ true → (fault total.now ≡ Ok tt) × (count total.now < most_terms) × (sign_word total.now ≡ 1) }
{
    if total.len() != TOTAL_SIZE {
        return false;
    }
    let n = total[NUMBER_SIZE];
    if n >= MOST_TERMS {
        return false;
    }
    if total[SIGN_WORD] != 1 {
        return false;
    }
    let upper = u64::from(total[NEXT]) + u64::from(total[TOP]) * 0x1_0000_0000;
    if std::num::wrapping_add_u64(upper, 1) > 1 {
        return false;
    }
    (total[THIRD] ^ total[TOP]) < n * 1024
}

// Compiled into what asks: as a call it took a join 15 % more instructions.
#[inline(always)]
fn is_fit(total: &[u32]) -> bool
    requires { length total.now ≡ total_size }
    ensures { result ≡ fit total.now }
{
    within_limits(total) && sign_fits(total)
}

// The sign word is 0 or 1; with 0 the number is 0, and with 1 there are terms.
#[inline(always)]
fn sign_fits(total: &[u32]) -> bool
    requires { length total.now ≡ total_size }
    ensures { result ≡ sign_fits total.now }
{
    match total[SIGN_WORD] {
        0 => is_zero(&total[0..NUMBER_SIZE]),
        1 => total[NUMBER_SIZE] != 0,
        _ => false,
    }
}

// Of a total or of an old one. The limit is count * 1024 times the weight of the third. A negative number is below it where its complement,
// which is smaller by one, is: no negation, so that -2^639 needs no care.
#[inline(always)]
pub fn within_limits(total: &[u32]) -> bool
    requires { number_size < length total.now }
    ensures { result ≡ within_limits total.now }
{
    let n = total[NUMBER_SIZE];
    let minus = total[TOP] >= 0x8000_0000;
    n <= MOST_TERMS
        && turned(minus, total[TOP]) == 0
        && turned(minus, total[NEXT]) == 0
        && within(
            &total[0..THIRD],
            minus,
            turned(minus, total[THIRD]),
            n * 1024,
        )
}

// The words below count at the limit itself, where a positive number must have none there.
fn within(low: &[u32], minus: bool, top: u32, limit: u32) -> bool
    ensures { result ≡ below_limit low.now minus top limit }
{
    top < limit || !minus && top == limit && is_zero(low)
}

// The word itself, or its complement.
fn turned(minus: bool, w: u32) -> u32
    ensures { result ≡ (if minus then complement w else w) }
{
    choose(minus, 0xffff_ffff - w, w)
}
