// An old total, of 21 words, carried over into one of 22 (R6.14), with the refusals of R8.17.
#![tactic(auto)]

ghost use Rattle.std.specs.Prelude.{◌≡◌, length, take};
ghost use Rattle.accumulator_spec.specs.Totals.{total_size};
ghost use Rattle.accumulator_spec.specs.Carrying.{old_size, Carries};
ghost use Rattle.accumulator_spec.specs.Answers.{answer_of};

use accumulator_fit::old::refusal_to_carry;
use accumulator_spec::{NUMBER_SIZE, NotDone, OLD_SIZE, SIGN_WORD};
use choose::choose;

pub fn carry_over(old: &[u32], new: &mut [u32]) -> Result<(), NotDone>
    ensures carries { Carries old.now new.old (answer_of result) new.new }
    ensures old_kept { old.exit.now ≡ old.entry.now }
{
    refusal_to_carry(old, new)?;
    copy(old, new);
    // Of terms that were taken before there was a sign word, the signs are not known.
    new[SIGN_WORD] = choose(old[NUMBER_SIZE] == 0, 0, 1);
    Ok(())
}

// The old one's words; free is the word behind them, which is still to be written.
fn copy(old: &[u32], new: &mut [u32])
    requires { (length old.now ≡ old_size) × (length new.old ≡ total_size) }
    ensures { (length new.new ≡ total_size) × (take old_size new.new ≡ old.now) }
{
    new[0..OLD_SIZE].copy_from_slice(old);
}
