// The end of the input.
ghost use Rattle.std.specs.Prelude.{◌≡◌, true, ◌≤◌, length};
ghost use Rattle.accumulator_spec.specs.Totals.{reading};
ghost use Rattle.transcript_spec.specs.Texts.{line_room};
ghost use Rattle.transcript_spec.specs.Buffers.{Put, Writes};
ghost use Rattle.sheet_spec.specs.Printed.{read_text, closing_text};
ghost use Rattle.sheet_spec.specs.Positions.{goes_on, state_of, progress_of};
ghost use Rattle.sheet_spec.specs.Calls.{closing_room};
ghost use Rattle.sheet_feed.specs.Inner.{LastLine};

use accumulator::Halves;
use sheet_spec::{KEPT_BYTES, Position, Progressed};

// A line without newline counts, if it has a byte. `finish` is lent the line only to read, which a `Run` holds to change: its parts come
// apart here, as they do to `end_line`, which both call.
pub fn open_line(
    position: Position,
    line: &[u8; KEPT_BYTES],
    total: &mut [u32],
    out: &mut [u8],
) -> Progressed
    requires { (goes_on position ≡ true) × (line_room ≤ length out.old) }
    ensures { LastLine (state_of position line.now total.old) out.old
        (progress_of result.position total.new) result.written out.new }
{
    if position.length == 0 {
        return Progressed {
            position,
            taken: 0,
            written: 0,
        };
    }
    sheet_line::end_line(position, line, total, out)
}

pub fn closing(position: Position, total: &[u32], out: &mut [u8]) -> usize
    requires { (position.good ≤ position.lines) × (closing_room ≤ length out.old) }
    ensures { Put out.old 0 (closing_text (progress_of position total.now)) result out.new }
{
    let bad = position.lines - position.good;
    let used = total_line(total, out);
    used + transcript::end(&mut out[used..], position.good, bad)
}

fn total_line(total: &[u32], out: &mut [u8]) -> usize
    ensures { Writes out.old (read_text (reading total.now)) result out.new }
{
    let Ok(Halves { first, second }) = accumulator::read(total) else {
        // A total of the program's own is never refused.
        return 0;
    };
    transcript::total(out, first, second)
}
