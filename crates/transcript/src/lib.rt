// The lines that are printed. Each function writes its text at the start of the lent buffer and answers its length; where the buffer is too
// short, no byte is written and the answer is 0.
#![tactic(auto)]

mod notices;

ghost use Rattle.std.specs.Prelude.{◌≡◌, ◌≤◌, ℕ, List, length, min};
ghost use Rattle.worksheet_spec.specs.Lines.{most_lines};
ghost use Rattle.transcript_spec.specs.Texts.{ask_text, step_text, pair_text, answered_text};
ghost use Rattle.transcript_spec.specs.Buffers.{Writes};
ghost use Rattle.transcript_fields.specs.Writers.{Wrote};
ghost use Rattle.transcript.specs.Inner.{AtStart};

use augmented_spec::Pair;
pub use notices::{bad, end, stop, total};
use transcript_fields::writer::Writer;
use transcript_lines::{lengths, put_answered, put_ask, put_pair, put_step};
use worksheet_spec::{LINE_SIZE, MOST_LINES, SHEET_SIZE};

// Writes at the start of the buffer by `put`, where so many bytes have room, and answers their length; elsewhere 0, and nothing is written.
// What is promised holds of each text that is as long and that `put` is known to write.
pub(crate) fn written<F: FnOnce(&mut Writer<'_>)>(out: &mut [u8], need: usize, put: F) -> usize
    requires room { (w : _) → AtStart out.old w.now → need ≤ length out.old → F.pre put w }
    requires same { (w : _) (after : _) → F.post put w tt after → after.now.out.ghost_name ≡ w.now.out.ghost_name }
    ensures { (text : List ℕ)
        → length text ≡ need
        → ((w : _) (after : _) → AtStart out.old w.now → F.post put w tt after → Wrote w.now text after.now)
        → Writes out.old text result out.new }
{
    if out.len() < need {
        return 0;
    }
    let mut writer = Writer { out, at: 0 };
    put(&mut writer);
    writer.at
}

pub fn ask(out: &mut [u8], number: u32, operation: u32, x: u32, y: u32) -> usize
    ensures { Writes out.old (ask_text number operation x y) result out.new }
{
    written(
        out,
        27 + lengths::decimal(number),
        |to| put_ask(to, number, operation, x, y),
    )
}

pub fn step(out: &mut [u8], number: u32, line: [u32; LINE_SIZE]) -> usize
    ensures { Writes out.old (step_text number line) result out.new }
{
    written(
        out,
        lengths::step(number, line[0]),
        |to| put_step(to, number, &line),
    )
}

pub fn pair(out: &mut [u8], pair: Pair) -> usize
    ensures { Writes out.old (pair_text pair) result out.new }
{
    written(
        out,
        24 + lengths::flags(pair.flags),
        |to| put_pair(to, pair),
    )
}

// No more lines than a sheet has.
fn shown(lines: u32) -> usize
    ensures { result ≡ min lines most_lines }
{
    MOST_LINES.min(lines as usize)
}

// A question's `ask`, a `step` for each line of its sheet, and its `pair`.
pub fn answered(
    out: &mut [u8],
    number: u32,
    operation: u32,
    x: u32,
    y: u32,
    words: &[u32; SHEET_SIZE],
    lines: u32,
    pair: Pair,
) -> usize
    ensures { Writes out.old (answered_text number operation x y words.now lines pair) result out.new }
{
    let shown = shown(lines);
    written(
        out,
        lengths::answered(number, words, shown, pair.flags),
        |to| put_answered(to, number, operation, x, y, words, shown, pair),
    )
}
