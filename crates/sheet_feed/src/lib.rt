// What the program prints, carried from byte to byte. Nothing is read or written here: the text goes into a lent buffer.
#![tactic(auto)]

mod last;
mod step;

ghost use Rattle.sheet_spec.specs.Positions.{state_of};
ghost use Rattle.sheet_spec.specs.Calls.{Feeds, Ends};

use sheet_line::position;
pub use sheet_line::position::begin;
use sheet_spec::{KEPT_BYTES, LAST_ROOM, Position, Progressed};
use step::Run;

// Bytes are taken as long as there is room for another line's text, so that the caller can write out in large pieces.
pub fn feed(
    bytes: &[u8],
    position: Position,
    line: &mut [u8; KEPT_BYTES],
    total: &mut [u32],
    out: &mut [u8],
) -> Progressed
    ensures { Feeds bytes.now (state_of position line.old total.old) out.old result
        (state_of result.position line.new total.new) out.new }
{
    let mut run = Run {
        position,
        line,
        total,
    };
    let mut written = 0;
    for (taken, &b) in bytes.iter().enumerate() {
        if !position::more(run.position, out.len() - written) {
            return Progressed {
                position: run.position,
                taken,
                written,
            };
        }
        written += run.byte(b, &mut out[written..]);
    }
    Progressed {
        position: run.position,
        taken: bytes.len(),
        written,
    }
}

// The open line, if it has a byte, and the last two lines. Without room for them, or after `stop`, nothing is done.
pub fn finish(
    position: Position,
    line: &[u8; KEPT_BYTES],
    total: &mut [u32],
    out: &mut [u8],
) -> usize
    ensures { Ends (state_of position line.now total.old) out.old result
        total.new out.new }
{
    if !position::ready(position, out.len(), LAST_ROOM) {
        return 0;
    }
    let here = last::open_line(position, line, total, out);
    let used = here.written;
    used + last::closing(here.position, total, &mut out[used..])
}
