// Filling a sheet with the answer as numbers, for callers that hand it on.
ghost use Rattle.std.specs.Prelude.{◌≡◌};
ghost use Rattle.worksheet_spec.specs.Filling.{FillsNumbered};

use worksheet_spec::FilledNumbers;

pub fn fill(operation: u32, x: u32, y: u32, words: &mut [u32]) -> FilledNumbers
    ensures { FillsNumbered operation x y words.old result words.new }
{
    match crate::fill(operation, x, y, words) {
        Ok(filled) => FilledNumbers {
            refusal: 0,
            lines: filled.lines,
            first: filled.pair.first,
            second: filled.pair.second,
            flags: filled.pair.flags,
        },
        Err(refusal) => FilledNumbers::from(refusal),
    }
}
