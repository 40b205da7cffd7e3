// Exact totals of patterns and products of two patterns, in lent words (R6).
#![tactic(auto)]

pub mod numbers;

ghost use Rattle.std.specs.Prelude.{◌≡◌};
ghost use Rattle.accumulator_spec.specs.Totals.{is_cleared, of_pattern, of_product, Adds, Clears, reading};
ghost use Rattle.accumulator_spec.specs.Joins.{Joins};
ghost use Rattle.accumulator_spec.specs.Carrying.{Carries};
ghost use Rattle.accumulator_spec.specs.Answers.{answer_of, answer_read};

pub use accumulator_spec::NotDone;
use accumulator_spec::TOTAL_SIZE;
pub use augmented_spec::Halves;

// Whatever the words are: a total that is damaged can be cleared.
pub fn clear(total: &mut [u32]) -> Result<(), NotDone>
    ensures { Clears total.old (answer_of result) total.new }
{
    if total.len() != TOTAL_SIZE {
        return Err(NotDone::Length);
    }
    total.fill(0);
    Ok(())
}

// Whether it is as `clear` leaves it.
pub fn is_cleared(total: &[u32]) -> bool
    ensures { result ≡ is_cleared total.now }
{
    total.len() == TOTAL_SIZE && accumulator_words::is_zero(total)
}

// Compiled into its callers, as accumulator_add's is.
#[inline(always)]
pub fn add_pattern(total: &mut [u32], x: u32) -> Result<(), NotDone>
    ensures { Adds total.old (of_pattern x) (answer_of result) total.new }
{
    accumulator_add::add_pattern(total, x)
}

pub fn add_product(total: &mut [u32], x: u32, y: u32) -> Result<(), NotDone>
    ensures { Adds total.old (of_product x y) (answer_of result) total.new }
{
    accumulator_add::add_product(total, x, y)
}

// Adds the second's number and count to the first's (R6.9); the sign word is 0 where both have it (R6.11).
pub fn join(first: &mut [u32], second: &[u32]) -> Result<(), NotDone>
    ensures joins { Joins first.old second.now (answer_of result) first.new }
    ensures second_kept { second.exit.now ≡ second.entry.now }
{
    accumulator_join::join(first, second)
}

// Carries an old total, of 21 words, over into one of 22, whatever this held (R6.14).
pub fn carry_over(old: &[u32], new: &mut [u32]) -> Result<(), NotDone>
    ensures carries { Carries old.now new.old (answer_of result) new.new }
    ensures old_kept { old.exit.now ≡ old.entry.now }
{
    accumulator_carry_over::carry_over(old, new)
}

pub fn read(total: &[u32]) -> Result<Halves, NotDone>
    ensures { answer_read result ≡ reading total.now }
{
    accumulator_read::read(total)
}
