// Joining two totals (R6.9), with the refusals of R8.16.
#![tactic(auto)]

ghost use Rattle.std.specs.Prelude.{◌≡◌, ◌+◌, ◌%◌, ◌^◌, ◌≤◌, length};
ghost use Rattle.accumulator_spec.specs.Totals.{total_size, most_terms, count, sign_word};
ghost use Rattle.accumulator_spec.specs.Joins.{Joins};
ghost use Rattle.accumulator_spec.specs.Answers.{answer_of};
ghost use Rattle.accumulator_join.specs.Inner.{JoinsFit, word_sum};

use accumulator_fit::refusal;
use accumulator_spec::{MOST_TERMS, NUMBER_SIZE, NotDone, SIGN_WORD};
use choose::choose;

pub fn join(first: &mut [u32], second: &[u32]) -> Result<(), NotDone>
    ensures joins { Joins first.old second.now (answer_of result) first.new }
    ensures second_kept { second.exit.now ≡ second.entry.now }
{
    // What is wrong with the first is told before anything of the second.
    refusal(first)?;
    refusal(second)?;
    join_fit(first, second)
}

// Two fit totals, if there is room for the terms of both.
fn join_fit(first: &mut [u32], second: &[u32]) -> Result<(), NotDone>
    requires lengths { (length first.old ≡ total_size) × (length second.now ≡ total_size)
        × (count first.old ≤ most_terms) × (count second.now ≤ most_terms) }
    requires signs { (sign_word first.old ≤ 1) × (sign_word second.now ≤ 1) }
    ensures { JoinsFit first.old second.now (answer_of result) first.new }
{
    let n = first[NUMBER_SIZE] + second[NUMBER_SIZE];
    if n > MOST_TERMS {
        return Err(NotDone::TooMany);
    }
    // Each is 0 or 1.
    let sign = first[SIGN_WORD] | second[SIGN_WORD];
    add_words(&mut first[0..NUMBER_SIZE], &second[0..NUMBER_SIZE]);
    first[NUMBER_SIZE] = n;
    first[SIGN_WORD] = sign;
    Ok(())
}

// Adds the second's words to the first's, lowest first, in one pass. What goes beyond the last word is lost, so that two's complement needs
// no look at the signs. By index, since two words belong together: of what a loop over `iter_mut().zip(..)` writes nothing is known.
fn add_words(first: &mut [u32], second: &[u32])
    requires { length second.now ≡ length first.old }
    ensures { first.new ≡ word_sum first.old second.now }
{
    let mut carry: u32 = 0;
    for i in 0..first.len() {
        let word = first[i];
        let low = low_word(word, second[i]);
        let sum = low_word(low, carry);
        first[i] = sum;
        // At most one of the two sums goes beyond a word. Written so, the compiler makes one add with carry of it.
        carry = choose(low < word, 1, 0) | choose(sum < low, 1, 0);
    }
}

fn low_word(a: u32, b: u32) -> u32
    ensures { result ≡ (a + b) % 2 ^ 32 }
{
    ((u64::from(a) + u64::from(b)) % 0x1_0000_0000) as u32
}
