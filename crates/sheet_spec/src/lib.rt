// All that `sheet` prints, as a definition, and what holds of it; where a run stands, as the code holds it. No function is here.
#![tactic(auto)]

use question_spec::QUESTION_SIZE;
use transcript_spec::LINE_ROOM;

// Most lines of input (R8.11).
pub const MOST_INPUT_LINES: u32 = 32768;

// A line's first bytes that are kept: one more than a question has, so that a longer line is known for one.
pub const KEPT_BYTES: usize = QUESTION_SIZE + 1;

// Bytes that are room for the last two lines, and for the text of a line before them.
pub const CLOSING_ROOM: usize = 60;

pub const LAST_ROOM: usize = LINE_ROOM + CLOSING_ROOM;

// Where a run stands in its input: lines that have ended, good ones among them, bytes of the open line, and whether `stop` was printed.
// `stopped` is a field, as in the specification's `State`: after `stop` too the counts stay, and `state_of` and `Feeds` (R8.15) speak of
// both.
#[derive(Clone, Copy)]
pub struct Position {
    pub lines: u32,
    pub good: u32,
    pub length: usize,
    pub stopped: bool,
}

// A position, with the bytes that were taken of the input and those that were written on the way to it.
#[derive(Clone, Copy)]
pub struct Progressed {
    pub position: Position,
    pub taken: usize,
    pub written: usize,
}
