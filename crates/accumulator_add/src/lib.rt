// Terms of a total: patterns, and products of two (R6.2), with the refusals of R8.7.
#![tactic(auto)]

ghost use Rattle.std.specs.Prelude.{◌≡◌, cond, ◌&&◌, suc, ◌≤◌, ◌<◌, eqb, length, set};
ghost use Rattle.accumulator_spec.specs.Totals.{number_size, total_size, most_terms, count, sign_word, of_pattern, of_product, Adds};
ghost use Rattle.accumulator_spec.specs.Answers.{answer_of};
ghost use Rattle.accumulator_add.specs.Inner.{noted};

use accumulator_fit::{has_room, refusal};
use accumulator_spec::{MOST_TERMS, NUMBER_SIZE, NotDone, SIGN_WORD};
use accumulator_words::place;
use exact;
use pattern::classify;
use pattern_spec::Class;
use rounding_spec::Number;

// Nearly every total shows at once that nothing but the operand can be refused, and has the sign word 1, which stays. Compiled into its
// callers: as a call its Result is taken apart behind it, and a term took 1.28 of the time.
#[inline(always)]
pub fn add_pattern(total: &mut [u32], x: u32) -> Result<(), NotDone>
    ensures { Adds total.old (of_pattern x) (answer_of result) total.new }
{
    if !has_room(total) {
        // The product with 1 is the same term.
        return admit(total, x, 0x3f80_0000);
    }
    let Class::Finite(n) = classify(x) else {
        return Err(NotDone::NotFinite);
    };
    // A pattern counts 2^-149.
    let term = Number {
        exp: n.exp + 149,
        ..n
    };
    accumulator_words::add_short(&mut total[0..NUMBER_SIZE], place(term));
    count_term(total);
    Ok(())
}

pub fn add_product(total: &mut [u32], x: u32, y: u32) -> Result<(), NotDone>
    ensures { Adds total.old (of_product x y) (answer_of result) total.new }
{
    if !has_room(total) {
        return admit(total, x, y);
    }
    let Class::Finite(term) = exact::product(x, y) else {
        return Err(NotDone::NotFinite);
    };
    accumulator_words::add(&mut total[0..NUMBER_SIZE], place(term));
    count_term(total);
    Ok(())
}

// The same for any other total: where it may have to be refused, or the term may change the sign word.
fn admit(total: &mut [u32], x: u32, y: u32) -> Result<(), NotDone>
    ensures { Adds total.old (of_product x y) (answer_of result) total.new }
{
    refusal(total)?;
    let Class::Finite(n) = exact::product(x, y) else {
        return Err(NotDone::NotFinite);
    };
    if total[NUMBER_SIZE] == MOST_TERMS {
        return Err(NotDone::Full);
    }
    note_sign(total, n);
    accumulator_words::add(&mut total[0..NUMBER_SIZE], place(n));
    count_term(total);
    Ok(())
}

fn count_term(total: &mut [u32])
    requires { (length total.old ≡ total_size) × (count total.old < most_terms) }
    ensures { total.new ≡ set total.old number_size (suc (count total.old)) }
{
    total[NUMBER_SIZE] += 1;
}

// The sign word after a term: 1, but after -0 as it was (R6.11).
fn note_sign(total: &mut [u32], term: Number)
    requires { (length total.old ≡ total_size) × (sign_word total.old ≤ 1) }
    ensures { total.new ≡ noted total.old (cond (term.sign && eqb term.sig 0) 0 1) }
{
    if !is_minus_zero(term) {
        total[SIGN_WORD] = 1;
    }
}

fn is_minus_zero(term: Number) -> bool
    ensures { result ≡ (term.sign && eqb term.sig 0) }
{
    term.sign && term.sig == 0
}
