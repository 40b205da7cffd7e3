// One question: its sheet, and its terms on both totals where it enters.
ghost use Rattle.std.specs.Prelude.{◌≡◌, [], ◌∷◌};
ghost use Rattle.augmented_spec.specs.Operations.{operation_of};
ghost use Rattle.accumulator_spec.specs.Totals.{of_pattern};
ghost use Rattle.accumulator_spec.specs.Columns.{column};
ghost use Rattle.conservation_spec.specs.Lists.{pair_enters, set_terms};
ghost use Rattle.conservation_spec.specs.Inner.{Settles};
ghost use Rattle.conservation.specs.Inner.{posed, totals};

use crate::questions::Question;
use accumulator::{add_pattern, add_product};
use augmented_spec::{Operation, Pair};
use pattern::{both_finite, flipped};

// The terms of the foot are the filled pair's, never the operands'.
pub fn settle(question: Question, words: &mut [u32], first: &mut [u32], other: &mut [u32])
    ensures { Settles (posed question words.old) (totals first.entry.now other.old) words.new (totals first.exit.now other.new) }
{
    let Question {
        operation,
        x,
        y,
        ..
    } = question;
    if let Ok(filled) = worksheet::fill(operation, x, y, words) {
        if enters(filled.pair) {
            add_two(filled.pair.first, filled.pair.second, first);
            add_set(operation, x, y, other);
        }
    }
}

// By the pair that came back alone: it is the direct pair, with its flags.
fn enters(pair: Pair) -> bool
    ensures { result ≡ pair_enters pair }
{
    both_finite(pair.first, pair.second) && !pair.flags.inexact
}

// What does not fit a total, or is not finite, leaves it as it was.
fn add_two(x: u32, y: u32, total: &mut [u32])
    ensures { total.new ≡ column total.old (of_pattern x ∷ of_pattern y ∷ []) }
{
    let _ = add_pattern(total, x);
    let _ = add_pattern(total, y);
}

// A number that is no operation's counts as a product's: filling has refused it before.
fn add_set(operation: u32, x: u32, y: u32, total: &mut [u32])
    ensures { total.new ≡ column total.old (set_terms (operation_of operation) x y) }
{
    match Operation::try_from(operation).unwrap_or(Operation::Product) {
        Operation::Sum => add_two(x, y, total),
        Operation::Difference => add_two(x, flipped(y), total),
        Operation::Product => {
            let _ = add_product(total, x, y);
        }
    }
}
