// Reads questions to the input's end and writes their model sheets. Below the programs only this crate reads and writes; the text is
// sheet_feed's.
// Where a reader says which bytes it has left, and a writer which bytes it holds, as those in memory do, `run`'s contract says what was
// written. Of a file, a pipe or a terminal no contract can say what a call read or wrote. What is done next, `pass` says of any read's
// answer, and `close` of the input's end.
// A read or a write that fails is said on standard error, and nothing more is printed (R9.12): a text without its last lines is not taken
// for a whole one.
#![tactic(auto)]

mod saying;

ghost use Rattle.std.specs.Prelude.{◌≡◌, ◌≤◌, true, is_ok, length, IfOk, OnOk, OnErr};
ghost use Rattle.std.specs.Io.KnownBytes.{Keeps, Appends};
ghost use Rattle.transcript_spec.specs.Texts.{line_room};
ghost use Rattle.sheet_spec.specs.States.{bytes_text, take_bytes, close_text};
ghost use Rattle.sheet_spec.specs.Calls.{last_room};
ghost use Rattle.sheet_stream.specs.Inner.{AfterRead, state_in};
ghost use Rattle.sheet_stream.specs.Written.{AppendsPart, Wrote, PassWrites, RunWrites};

use accumulator_spec::TOTAL_SIZE;
use sheet_line::position;
use sheet_spec::{KEPT_BYTES, Position};
use std::io;
use std::io::{ErrorKind, Read, Write};
use std::ops::ControlFlow;

// Bytes that are read at once, and that are written at once.
const BUFFER_SIZE: usize = 65536;

// Why a text is not whole.
#[derive(Drop)]
pub enum NotWhole {
    Unread(io::Error),
    Unwritten(io::Error),
    // More reads than are counted.
    Endless,
}

// Answers whether the whole text was written. Where a call failed, `errors` was told so.
pub fn run<R: Read, W: Write, E: Write>(input: &mut R, output: &mut W, errors: &mut E) -> bool
    ensures writes { RunWrites (R.remaining input.old) (W.contents output.old) (W.contents output.new)
        result }
    ensures says { result ≡ true → Keeps (E.contents errors.old) (E.contents errors.new) }
{
    match write_sheets(input, output) {
        Ok(()) => true,
        Err(why) => {
            saying::say(errors, why);
            false
        }
    }
}

// A loop that is proved has to end: this one counts up to a number of reads that no run uses up.
fn write_sheets<R: Read, W: Write>(input: &mut R, output: &mut W) -> Result<(), NotWhole>
    ensures { RunWrites (R.remaining input.old) (W.contents output.old) (W.contents output.new)
        (is_ok result) }
{
    let mut bytes = [0u8; BUFFER_SIZE];
    let mut out = [0u8; BUFFER_SIZE];
    let mut here = Standing {
        position: position::begin(),
        line: [0; KEPT_BYTES],
        total: [0; TOTAL_SIZE],
    };
    for _ in 0..u64::MAX {
        let got = input.read(&mut bytes);
        match here.pass(got, output, &bytes, &mut out)? {
            ControlFlow::Continue(()) => {}
            ControlFlow::Break(()) => return here.close(output, &mut out),
        }
    }
    Err(NotWhole::Endless)
}

// Where a run stands, with the open line's bytes and the total.
#[derive(Drop)]
struct Standing {
    position: Position,
    line: [u8; KEPT_BYTES],
    total: [u32; TOTAL_SIZE],
}

impl Standing {
    // From what a read answered to what is done next: it failed, or it read so many bytes, and 0 is the input's end. Another read follows
    // where the run goes on, and the last lines, at the input's end and after `stop`, where it breaks.
    fn pass<W: Write>(
        &mut self,
        got: io::Result<usize>,
        output: &mut W,
        bytes: &[u8],
        out: &mut [u8],
    ) -> Result<ControlFlow<()>, NotWhole>
        ensures next { AfterRead got bytes.now (length out.old) (state_in self.old) result (state_in self.new) }
        ensures writes { PassWrites got bytes.now (length out.old) (state_in self.old)
            (W.contents output.old) (W.contents output.new) (is_ok result) }
    {
        let got = match got {
            Ok(got) => got,
            Err(why) => return Err(NotWhole::Unread(why)),
        };
        if got == 0 {
            return Ok(ControlFlow::Break(()));
        }
        let n = got.min(bytes.len());
        self.take(output, &bytes[..n], out)?;
        if position::goes_on(self.position) {
            Ok(ControlFlow::Continue(()))
        } else {
            Ok(ControlFlow::Break(()))
        }
    }

    // Takes all the bytes. What they print is written whenever the buffer is full, and at the last byte. A write that fails ends the run at
    // once, and so does `stop`. How many bytes are taken at once `feed` says, so that the place of the next is counted by hand.
    fn take<W: Write>(
        &mut self,
        output: &mut W,
        bytes: &[u8],
        out: &mut [u8],
    ) -> Result<(), NotWhole>
        ensures takes { line_room ≤ length out.old → IfOk result (λ u. state_in self.new
            ≡ take_bytes (state_in self.old) bytes.now) }
        ensures writes { line_room ≤ length out.old → Wrote (W.contents output.old) (W.contents output.new)
            (is_ok result) (bytes_text (state_in self.old) bytes.now) }
    {
        let mut at: usize = 0;
        while at < bytes.len() && !self.position.stopped {
            let fed = sheet_feed::feed(
                &bytes[at..],
                self.position,
                &mut self.line,
                &mut self.total,
                out,
            );
            let taken = fed.taken;
            let n = fed.written;
            self.position = fed.position;
            wrote_all(output, &out[..n])?;
            if taken == 0 {
                return Ok(());
            }
            at += taken;
        }
        Ok(())
    }

    // What the input's end prints, after `stop` nothing.
    fn close<W: Write>(&mut self, output: &mut W, out: &mut [u8]) -> Result<(), NotWhole>
        ensures { last_room ≤ length out.old → Wrote (W.contents output.old) (W.contents output.new)
            (is_ok result) (close_text (state_in self.old)) }
    {
        let n = sheet_feed::finish(self.position, &self.line, &mut self.total, out);
        wrote_all(output, &out[..n])
    }
}

// All of the text is written, or it is said why not.
fn wrote_all<W: Write>(output: &mut W, text: &[u8]) -> Result<(), NotWhole>
    ensures { Wrote (W.contents output.old) (W.contents output.new) (is_ok result) text.now }
{
    write_text(output, text).map_err(NotWhole::Unwritten)
}

// The text's bytes in order, each once, up to the first write that fails or takes none. One that a signal interrupts before it takes a
// byte has failed (R9.12). std's `write_all` tries such a one again, and says nothing of what a failure leaves, as the clause `part` does;
// how many bytes are written at once the writer says, so that they are counted by hand.
fn write_text<W: Write>(output: &mut W, text: &[u8]) -> io::Result<()>
    ensures all { OnOk result (Appends (W.contents output.old) (W.contents output.new) text.now) }
    ensures part { OnErr result (AppendsPart (W.contents output.old) (W.contents output.new)
        text.now) }
{
    let mut done: usize = 0;
    while done < text.len() {
        let n = output.write(&text[done..])?;
        if n == 0 {
            return Err(io::Error::from(ErrorKind::WriteZero));
        }
        done += n;
    }
    Ok(())
}
