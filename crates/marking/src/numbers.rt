// Marking that answers by numbers, for programs in C.
ghost use Rattle.std.specs.Prelude.{◌≡◌};
ghost use Rattle.marking_spec.specs.Marking.{marking, marked_numbers};

use marking_spec::MarkedNumbers;

pub fn mark(operation: u32, x: u32, y: u32, lines: &[u32]) -> MarkedNumbers
    ensures answer { result ≡ marked_numbers (marking operation x y lines.now) }
    ensures lines_kept { lines.exit.now ≡ lines.entry.now }
{
    match crate::mark(operation, x, y, lines) {
        Ok(right) => MarkedNumbers {
            refusal: 0,
            line: 0,
            right,
        },
        Err(why) => MarkedNumbers::from(why),
    }
}
