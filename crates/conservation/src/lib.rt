// A list of questions over two totals: one is given the feet of their sheets, the other the terms set.
#![tactic(auto)]

mod fitting;
pub mod numbers;
mod questions;
mod settling;

ghost use Rattle.std.specs.Prelude.{◌≡◌, true, length};
ghost use Rattle.conservation.specs.Answers.{answer_replayed};
ghost use Rattle.conservation.specs.Inner.{asking, lent, Equal};
ghost use Rattle.conservation_spec.specs.Replay.{after_asking, all_within, Replays};

pub use conservation_spec::NotReplayed;
use questions::Questions;

// The ith question has the ith operation number and patterns, and the first counts[i] of the lent words to fill. Every misfit is found
// before anything is changed. The arrays are those that C lends (`numbers::replay`), of which the clause `Replays` speaks.
pub fn replay(
    operations: &[u32],
    xs: &[u32],
    ys: &[u32],
    counts: &[u32],
    words: &mut [u32],
    first: &mut [u32],
    other: &mut [u32],
) -> Result<(), NotReplayed>
    ensures { Replays
        (record { operations = operations.now; xs = xs.now; ys = ys.now; counts = counts.now })
        (record { words = words.old; totals = record { first = first.old; other = other.old } })
        (answer_replayed result)
        (record { words = words.new; totals = record { first = first.new; other = other.new } }) }
{
    let questions = Questions {
        operations,
        xs,
        ys,
        counts,
    };
    fitting::fit(questions, words, first, other)?;
    ask_all(questions, words, first, other);
    Ok(())
}

// Each question gets what the last one left, of the words and of both totals. These stay apart: it is given a part of the words, and a
// struct of all three would have to promise of every call that it still lends the same ones, as `Wrote` does of a writer's buffer.
fn ask_all(questions: Questions, words: &mut [u32], first: &mut [u32], other: &mut [u32])
    requires equal { Equal questions }
    requires within { all_within questions.counts.now (length words.old) ≡ true }
    ensures { after_asking (asking questions.entry) (lent words.old first.old other.old) ≡ lent words.new first.new other.new }
{
    for i in 0..questions.len() {
        let question = questions.get(i);
        let given = &mut words[..question.count as usize];
        settling::settle(question, given, first, other);
    }
}
