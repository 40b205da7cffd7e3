// A line of the input answered: the text of its question's sheet, whose pair is added to the total, or of its refusal.
#![tactic(auto)]

mod adding;
pub mod position;

ghost use Rattle.std.specs.Prelude.{◌≡◌, true, ◌≤◌, length};
ghost use Rattle.accumulator_spec.specs.Columns.{column};
ghost use Rattle.question_spec.specs.Answers.{asked_by};
ghost use Rattle.transcript_spec.specs.Texts.{line_room};
ghost use Rattle.transcript_spec.specs.Buffers.{Writes};
ghost use Rattle.sheet_spec.specs.Printed.{line_text, line_terms};
ghost use Rattle.sheet_spec.specs.Positions.{goes_on};
ghost use Rattle.sheet_line.specs.Inner.{LineEnds, line_ended};

use question_spec::Question;
use sheet_spec::{KEPT_BYTES, Position, Progressed};
use worksheet_spec::SHEET_SIZE;

// The open line has ended. Its bytes have been taken one by one before, and a newline is the caller's to count.
pub fn end_line(
    position: Position,
    line: &[u8; KEPT_BYTES],
    total: &mut [u32],
    out: &mut [u8],
) -> Progressed
    requires { (goes_on position ≡ true) × (line_room ≤ length out.old) }
    ensures { LineEnds position line.now total.old out.old result
        total.new out.new }
{
    let number = position.lines + 1;
    match question::read(&line[..position.length]) {
        Ok(question) => {
            let written = answer(number, question, total, out);
            ended(position, 1, written)
        }
        Err(why) => {
            let written = transcript::bad(out, number, u32::from(why));
            ended(position, 0, written)
        }
    }
}

fn ended(position: Position, good: u32, written: usize) -> Progressed
    requires { (goes_on position ≡ true) × (good ≤ 1) }
    ensures { result ≡ line_ended position good written }
{
    Progressed {
        position: Position {
            lines: position.lines + 1,
            good: position.good + good,
            length: 0,
            stopped: false,
        },
        taken: 0,
        written,
    }
}

// The sheet of a question.
fn answer(number: u32, question: Question, total: &mut [u32], out: &mut [u8]) -> usize
    ensures writes { Writes out.old (line_text number (asked_by question)) result out.new }
    ensures total_after { total.new ≡ column total.old (line_terms (asked_by question)) }
{
    let Question { operation, x, y } = question;
    let operation = u32::from(operation);
    let mut words = [0u32; SHEET_SIZE];
    let Ok(sheet) = worksheet::fill(operation, x, y, &mut words) else {
        // No question that is read is refused.
        return 0;
    };
    adding::halves(total, sheet.pair.first, sheet.pair.second);
    transcript::answered(
        out,
        number,
        operation,
        x,
        y,
        &words,
        sheet.lines,
        sheet.pair,
    )
}
