// The step sheet of a question in lent words. Each result on a line, with its mark, is a rounding step's.
#![tactic(auto)]

pub mod numbers;

ghost use Rattle.std.specs.Prelude.{◌≡◌, ◌≤◌, length};
ghost use Rattle.rounding_spec.specs.Format.{binary32};
ghost use Rattle.augmented_spec.specs.Direct.{direct_pair};
ghost use Rattle.augmented_spec.specs.Operations.{operation_number};
ghost use Rattle.worksheet_spec.specs.Lines.{sheet_size};
ghost use Rattle.worksheet_spec.specs.Sheets.{sheet_of};
ghost use Rattle.worksheet_spec.specs.Filling.{filled, Fills};
ghost use Rattle.worksheet.specs.Answers.{answer_filled};
ghost use Rattle.worksheet_lines.specs.Inner.{from_first, Follows};

use augmented_spec::{Flags, Operation, Pair};
use pattern::flipped;
use worksheet_lines::{Foot, Lines};
use worksheet_rules::{products, sums};
use worksheet_spec::SHEET_SIZE;
pub use worksheet_spec::{Filled, NotFilled};

// The pair is the one that the lines reach. The flags are the direct pair's. The operation comes as a number, since any may come, and R8.5
// says what one that is no operation's is told. Compiled into its callers, so that what is refused costs no call: `written` is one.
#[inline(always)]
pub fn fill(operation: u32, x: u32, y: u32, words: &mut [u32]) -> Result<Filled, NotFilled>
    ensures { Fills operation x y words.old (answer_filled result) words.new }
{
    let Ok(operation) = Operation::try_from(operation) else {
        return Err(NotFilled::Operation);
    };
    if words.len() < SHEET_SIZE {
        return Err(NotFilled::Words);
    }
    Ok(written(operation, x, y, words))
}

// The lines are made by value, and copied when they are all there.
fn written(operation: Operation, x: u32, y: u32, words: &mut [u32]) -> Filled
    requires { sheet_size ≤ length words.old }
    ensures { Fills (operation_number operation) x y words.old (filled result.lines result.pair) words.new }
{
    let mut lines = Lines::new();
    let foot = sheet(&mut lines, operation, x, y);
    lines.copy_out(words);
    Filled {
        lines: lines.count(),
        pair: Pair {
            first: foot.first,
            second: foot.second,
            flags: flags(operation, x, y),
        },
    }
}

#[tactic(auto, unfolding(worksheet_spec::specs::Sheets::sheet_of))]
fn sheet(lines: &mut Lines, operation: Operation, x: u32, y: u32) -> Foot
    ensures { Follows (from_first lines.old) lines.new (sheet_of operation x y) result }
{
    match operation {
        Operation::Sum => sums::sum(lines, x, y),
        Operation::Difference => sums::sum(lines, x, flipped(y)),
        Operation::Product => products::product(lines, x, y),
    }
}

// Of a product the flags alone take 58 instructions fewer than the pair.
#[tactic(auto, unfolding(augmented_spec::specs::Direct::direct_pair))]
fn flags(operation: Operation, x: u32, y: u32) -> Flags
    ensures { result ≡ (direct_pair operation binary32 x y).flags }
{
    match operation {
        Operation::Product => augmented::product_flags(x, y),
        _ => augmented::direct(operation, x, y).flags,
    }
}
