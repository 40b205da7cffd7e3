// What is tried of an old total, and of the words that it is to be carried over into.
ghost use Rattle.std.specs.Prelude.{◌≡◌};
ghost use Rattle.accumulator_spec.specs.Answers.{answer_of};
ghost use Rattle.accumulator_spec.specs.Carrying.{carrying};

use crate::within_limits;
use accumulator_spec::{NotDone, OLD_SIZE, TOTAL_SIZE};

// In the order of R8.17. What the new words hold is not asked.
pub fn refusal_to_carry(old: &[u32], new: &[u32]) -> Result<(), NotDone>
    ensures { answer_of result ≡ carrying old.now new.now }
{
    if old.len() != OLD_SIZE {
        return Err(NotDone::Length);
    }
    if new.len() != TOTAL_SIZE {
        return Err(NotDone::Length);
    }
    if !within_limits(old) {
        return Err(NotDone::Unfit);
    }
    Ok(())
}
