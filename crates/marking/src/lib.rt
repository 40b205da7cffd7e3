// Marks the lines by which a candidate reached a pair: first each line in its order, then the pair that they claim.
#![tactic(auto)]

pub mod numbers;

ghost use Rattle.std.specs.Prelude.{◌≡◌, [], ◌*◌, ◌≤◌, length};
ghost use Rattle.worksheet_spec.specs.Lines.{line_size};
ghost use Rattle.marking_spec.specs.Marking.{claims, is_right, in_order, is_markable, marking};
ghost use Rattle.marking_spec.specs.Theorems.{Markable};
ghost use Rattle.marking.specs.Answers.{answer_marked};

use augmented_spec::Operation;
use marking_lines::{allowed, is_true};
pub use marking_spec::NotMarked;
use marking_spec::{Claim, FEWEST_MARKED, MOST_MARKED};
use worksheet_spec::LINE_SIZE;

// Whether the lines are right. The operation comes as a number, since any may come, and R8.18 says what one that is no operation's is told.
pub fn mark(operation: u32, x: u32, y: u32, lines: &[u32]) -> Result<bool, NotMarked>
    ensures answer { answer_marked result ≡ marking operation x y lines.now }
    ensures lines_kept { lines.exit.now ≡ lines.entry.now }
{
    let Ok(operation) = Operation::try_from(operation) else {
        return Err(NotMarked::Operation);
    };
    if !is_markable(lines.len()) {
        return Err(NotMarked::Words);
    }
    in_order(operation, x, y, lines)
}

fn is_markable(words: usize) -> bool
    ensures { result ≡ is_markable words }
{
    words % LINE_SIZE == 0 && words >= FEWEST_MARKED * LINE_SIZE && words <= MOST_MARKED * LINE_SIZE
}

fn in_order(operation: Operation, x: u32, y: u32, words: &[u32]) -> Result<bool, NotMarked>
    requires { Markable (length words.now) }
    ensures { answer_marked result ≡ in_order operation x y [] (claims words.now) }
{
    let (lines, _) = words.as_chunks::<LINE_SIZE>();
    for (i, line) in lines.iter().enumerate() {
        let claim = Claim::from(*line);
        // Lines are counted from 1.
        let number = i as u32 + 1;
        if !allowed(x, y, &words[..i * LINE_SIZE], claim) {
            return Err(NotMarked::NotAllowed { line: number });
        }
        if !is_true(claim) {
            return Err(NotMarked::NotTrue { line: number });
        }
    }
    Ok(is_right(operation, x, y, words))
}

fn is_right(operation: Operation, x: u32, y: u32, words: &[u32]) -> bool
    requires { Markable (length words.now) }
    ensures { result ≡ is_right operation x y (claims words.now) }
{
    let pair = augmented::direct(operation, x, y);
    let (lines, _) = words.as_chunks::<LINE_SIZE>();
    let first = Claim::from(lines[lines.len() - 2]);
    let second = Claim::from(lines[lines.len() - 1]);
    first.result == pair.first && second.result == pair.second
}
