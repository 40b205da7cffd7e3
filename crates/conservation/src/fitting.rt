// What is wrong with the lent arrays and totals. Nothing is written here.
ghost use Rattle.std.specs.Prelude.{◌≡◌};
ghost use Rattle.conservation.specs.Answers.{answer_replayed};
ghost use Rattle.conservation.specs.Inner.{asking, lent};
ghost use Rattle.conservation_spec.specs.Replay.{all_equal, all_within, replaying};

use crate::questions::Questions;
use accumulator::is_cleared;
use conservation_spec::{MOST_QUESTIONS, NotReplayed};

#[tactic(auto, unfolding(conservation_spec::specs::Replay::replaying))]
pub fn fit(
    questions: Questions,
    words: &[u32],
    first: &[u32],
    other: &[u32],
) -> Result<(), NotReplayed>
    ensures { answer_replayed result ≡ replaying (asking questions.entry) (lent words.entry.now first.entry.now other.entry.now) }
{
    if !all_equal(questions) {
        return Err(NotReplayed::Unequal);
    }
    if questions.len() > MOST_QUESTIONS {
        return Err(NotReplayed::TooMany);
    }
    if !is_cleared(first) || !is_cleared(other) {
        return Err(NotReplayed::NotCleared);
    }
    if !all_within(questions.counts, words.len()) {
        return Err(NotReplayed::PastWords);
    }
    Ok(())
}

fn all_equal(questions: Questions) -> bool
    ensures { result ≡ all_equal (asking questions.entry) }
{
    let asked = questions.len();
    questions.xs.len() == asked && questions.ys.len() == asked && questions.counts.len() == asked
}

fn all_within(counts: &[u32], most: usize) -> bool
    ensures { result ≡ all_within counts.now most }
{
    counts.iter().all(|count| *count as usize <= most)
}
