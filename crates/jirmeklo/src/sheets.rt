// Step sheets, a candidate's lines, and lists of questions over two totals, for programs in C. Lent words are a pointer and a count.
ghost use Rattle.std.specs.Prelude.{◌≡◌};
ghost use Rattle.marking_spec.specs.Marking.{marking, marked_numbers};
ghost use Rattle.worksheet_spec.specs.Filling.{FillsNumbered};
ghost use Rattle.conservation_spec.specs.Replay.{ReplaysNumbered};

use marking_spec::MarkedNumbers;
use worksheet_spec::FilledNumbers;

#[unsafe(no_mangle)]
pub extern "C" fn jirmeklo_fill(operation: u32, x: u32, y: u32, words: &mut [u32]) -> FilledNumbers
    ensures { FillsNumbered operation x y words.old result words.new }
{
    worksheet::numbers::fill(operation, x, y, words)
}

#[unsafe(no_mangle)]
pub extern "C" fn jirmeklo_mark(operation: u32, x: u32, y: u32, lines: &[u32]) -> MarkedNumbers
    ensures answer { result ≡ marked_numbers (marking operation x y lines.now) }
    ensures lines_kept { lines.exit.now ≡ lines.entry.now }
{
    marking::numbers::mark(operation, x, y, lines)
}

#[unsafe(no_mangle)]
pub extern "C" fn jirmeklo_replay(
    operations: &[u32],
    xs: &[u32],
    ys: &[u32],
    counts: &[u32],
    words: &mut [u32],
    first: &mut [u32],
    other: &mut [u32],
) -> u32
    ensures { ReplaysNumbered
        (record { operations = operations.now; xs = xs.now; ys = ys.now; counts = counts.now })
        (record { words = words.old; totals = record { first = first.old; other = other.old } })
        result
        (record { words = words.new; totals = record { first = first.new; other = other.new } }) }
{
    conservation::numbers::replay(operations, xs, ys, counts, words, first, other)
}
