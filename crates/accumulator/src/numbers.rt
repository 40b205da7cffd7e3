// The calls on totals with the answer as numbers, the refusal's or 0, for the C interface: a `Result` does not go there.
ghost use Rattle.std.specs.Prelude.{◌≡◌};
ghost use Rattle.pattern_spec.specs.Answer.{refusal_of};
ghost use Rattle.accumulator_spec.specs.Totals.{of_pattern, of_product, AddsNumbered, ClearsNumbered, reading, reading_numbers};
ghost use Rattle.accumulator_spec.specs.Joins.{JoinsNumbered};
ghost use Rattle.accumulator_spec.specs.Carrying.{CarriesNumbered};
ghost use Rattle.accumulator_spec.specs.Answers.{answer_of};

use accumulator_spec::{NotDone, ReadingNumbers};
use augmented_spec::Halves;

pub fn clear(total: &mut [u32]) -> u32
    ensures { ClearsNumbered total.old result total.new }
{
    number(crate::clear(total))
}

pub fn add_pattern(total: &mut [u32], x: u32) -> u32
    ensures { AddsNumbered total.old (of_pattern x) result total.new }
{
    number(crate::add_pattern(total, x))
}

pub fn add_product(total: &mut [u32], x: u32, y: u32) -> u32
    ensures { AddsNumbered total.old (of_product x y) result total.new }
{
    number(crate::add_product(total, x, y))
}

pub fn join(first: &mut [u32], second: &[u32]) -> u32
    ensures joins_numbered { JoinsNumbered first.old second.now result first.new }
    ensures second_kept { second.exit.now ≡ second.entry.now }
{
    number(crate::join(first, second))
}

pub fn carry_over(old: &[u32], new: &mut [u32]) -> u32
    ensures carries_numbered { CarriesNumbered old.now new.old result new.new }
    ensures old_kept { old.exit.now ≡ old.entry.now }
{
    number(crate::carry_over(old, new))
}

pub fn read(total: &[u32]) -> ReadingNumbers
    ensures { result ≡ reading_numbers (reading total.now) }
{
    match crate::read(total) {
        Ok(Halves { first, second }) => ReadingNumbers {
            refusal: 0,
            first,
            second,
        },
        Err(reason) => ReadingNumbers {
            refusal: u32::from(reason),
            first: 0,
            second: 0,
        },
    }
}

// No `From`: neither `Result` nor `u32` is this crate's, so that it cannot write one.
fn number(answer: Result<(), NotDone>) -> u32
    ensures { result ≡ refusal_of (answer_of answer) }
{
    match answer {
        Ok(()) => 0,
        Err(reason) => u32::from(reason),
    }
}
