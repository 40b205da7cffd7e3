// One byte of the input.
ghost use Rattle.std.specs.Prelude.{◌≡◌, true, ◌≤◌, ◌<◌, length};
ghost use Rattle.transcript_spec.specs.Texts.{stop_text, line_room};
ghost use Rattle.transcript_spec.specs.Buffers.{Put};
ghost use Rattle.sheet_spec.specs.Printed.{most_input_lines};
ghost use Rattle.sheet_spec.specs.States.{extend};
ghost use Rattle.sheet_spec.specs.Positions.{goes_on};
ghost use Rattle.sheet_feed.specs.Inner.{TakesByte, SameLent, state_in, stopped_at};

use sheet_line::position;
use sheet_spec::{KEPT_BYTES, MOST_INPUT_LINES, Position};

// A run, with what it is lent: the open line's bytes and the total.
#[derive(Drop)]
pub struct Run<'a> {
    pub position: Position,
    pub line: &'a mut [u8; KEPT_BYTES],
    pub total: &'a mut [u32],
}

impl Run<'_> {
    // Answers how many bytes are written.
    pub fn byte(&mut self, b: u8, out: &mut [u8]) -> usize
        requires { (goes_on self.old.position ≡ true) × (line_room ≤ length out.old) }
        ensures { TakesByte self.old b out.old result self.new out.new }
    {
        if self.position.lines == MOST_INPUT_LINES {
            return self.stop(out);
        }
        if b == b'\n' {
            let ended = sheet_line::end_line(self.position, self.line, self.total, out);
            self.position = ended.position;
            return ended.written;
        }
        self.extend(b);
        0
    }

    fn stop(&mut self, out: &mut [u8]) -> usize
        requires { line_room ≤ length out.old }
        ensures { (self.new.position ≡ stopped_at self.old.position) × (self.new.line ≡ self.old.line)
            × (self.new.total ≡ self.old.total) × Put out.old 0 stop_text result out.new }
    {
        self.position.length = 0;
        self.position.stopped = true;
        transcript::stop(out)
    }

    fn extend(&mut self, b: u8)
        requires { (goes_on self.old.position ≡ true) × (self.old.position.lines < most_input_lines) }
        ensures state { state_in self.new ≡ extend (state_in self.old) b }
        ensures lent { SameLent self.old self.new }
    {
        self.position.length = position::kept(self.position.length, self.line, b);
    }
}
