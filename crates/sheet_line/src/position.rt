// Where a run stands in its input.
ghost use Rattle.std.specs.Prelude.{◌≡◌, ◌≤◌, take};
ghost use Rattle.sheet_spec.specs.States.{kept_bytes, longer};
ghost use Rattle.sheet_spec.specs.Positions.{Begins, goes_on};
ghost use Rattle.sheet_line.specs.Inner.{ready_for, takes_more};

use sheet_spec::{KEPT_BYTES, MOST_INPUT_LINES, Position};
use transcript_spec::LINE_ROOM;

pub fn begin() -> Position
    ensures { Begins result }
{
    Position {
        lines: 0,
        good: 0,
        length: 0,
        stopped: false,
    }
}

// Whether another byte is taken, with so much room for what it prints.
pub fn more(position: Position, room: usize) -> bool
    ensures { result ≡ takes_more position room }
{
    ready(position, room, LINE_ROOM)
}

// Whether the run goes on and has the room that is needed.
pub fn ready(position: Position, room: usize, need: usize) -> bool
    ensures { result ≡ ready_for position room need }
{
    room >= need && goes_on(position)
}

// Whether the run goes on: it has not stopped, and its counts are such as a run can have.
pub fn goes_on(position: Position) -> bool
    ensures { result ≡ goes_on position }
{
    if position.stopped || position.good > position.lines || position.length > KEPT_BYTES {
        return false;
    }
    position.lines < MOST_INPUT_LINES
        || (position.lines == MOST_INPUT_LINES && position.length == 0)
}

// How long the open line is with another byte, of which it keeps no more than it has room for. Free is what it holds behind them.
pub fn kept(n: usize, line: &mut [u8; KEPT_BYTES], b: u8) -> usize
    ensures { (result ≤ kept_bytes) × (take result line.new ≡ longer (take n line.old) b) }
{
    if n < KEPT_BYTES {
        line[n] = b;
        n + 1
    } else {
        KEPT_BYTES
    }
}
