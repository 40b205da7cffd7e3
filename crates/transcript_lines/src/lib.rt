// The printed lines: what a writer writes into a lent buffer.
#![tactic(auto)]

pub mod lengths;

ghost use Rattle.std.specs.Prelude.{[], ◌∷◌, ◌++◌, ◌≤◌, length};
ghost use Rattle.worksheet_spec.specs.Lines.{most_lines};
ghost use Rattle.question_spec.specs.Ascii.{ascii, tab};
ghost use Rattle.question_spec.specs.Questions.{pattern_text};
ghost use Rattle.transcript_spec.specs.Texts.{decimal, third_text, mark_text, line_of};
ghost use Rattle.transcript_spec.specs.Texts.{ask_text, step_text, pair_text, total_text, steps_text, shown_text};
ghost use Rattle.transcript_fields.specs.Writers.{HasRoom, Wrote};

use augmented_spec::Pair;
use transcript_fields::writer::Writer;
use worksheet_spec::{LINE_SIZE, SHEET_SIZE};

pub fn put_ask(to: &mut Writer<'_>, number: u32, operation: u32, x: u32, y: u32)
    requires { HasRoom to.old (ask_text number operation x y) }
    ensures { Wrote to.old (ask_text number operation x y) to.new }
{
    to.bytes(b"ask\t");
    to.decimal(number);
    to.letters(operation);
    to.patterns(x, y);
    to.byte(b'\n');
}

// What a `step` ends with, from its third operand on.
fn put_rest(to: &mut Writer<'_>, operation: u32, z: u32, res: u32, mark: u32)
    requires { HasRoom to.old (tab ∷ line_of (third_text operation z ∷ pattern_text res ∷ mark_text mark ∷ [])) }
    ensures { Wrote to.old (tab ∷ line_of (third_text operation z ∷ pattern_text res ∷ mark_text mark ∷ [])) to.new }
{
    to.third(operation, z);
    to.pattern(res);
    to.mark(mark);
}

pub fn put_step(to: &mut Writer<'_>, number: u32, line: &[u32; LINE_SIZE])
    requires { HasRoom to.old (step_text number line.now) }
    ensures { Wrote to.old (step_text number line.now) to.new }
{
    let [operation, x, y, z, result, mark] = *line;
    to.bytes(b"step\t");
    to.decimal(number);
    to.step_letters(operation);
    to.patterns(x, y);
    put_rest(to, operation, z, result, mark);
}

pub fn put_pair(to: &mut Writer<'_>, pair: Pair)
    requires { HasRoom to.old (pair_text pair) }
    ensures { Wrote to.old (pair_text pair) to.new }
{
    to.bytes(b"pair");
    to.patterns(pair.first, pair.second);
    to.byte(b'\t');
    to.flags(pair.flags);
    to.byte(b'\n');
}

// A `bad` or an `end`: its name and its two decimals.
pub fn put_counts(to: &mut Writer<'_>, name: &[u8; 3], first: u32, second: u32)
    requires { HasRoom to.old (line_of (name.now ∷ decimal first ∷ decimal second ∷ [])) }
    ensures { Wrote to.old (line_of (name.now ∷ decimal first ∷ decimal second ∷ [])) to.new }
{
    to.bytes(name);
    to.byte(b'\t');
    to.decimal(first);
    to.byte(b'\t');
    to.decimal(second);
    to.byte(b'\n');
}

pub fn put_total(to: &mut Writer<'_>, first: u32, second: u32)
    requires { HasRoom to.old (total_text first second) }
    ensures { Wrote to.old (total_text first second) to.new }
{
    to.bytes(b"total");
    to.patterns(first, second);
    to.byte(b'\n');
}

fn put_steps(to: &mut Writer<'_>, words: &[u32; SHEET_SIZE], lines: usize)
    requires { (lines ≤ most_lines) × HasRoom to.old (steps_text lines 1 words.now) }
    ensures { Wrote to.old (steps_text lines 1 words.now) to.new }
{
    let (sheet, _) = words.as_chunks::<LINE_SIZE>();
    for (k, line) in sheet[..lines].iter().enumerate() {
        put_step(to, k as u32 + 1, line);
    }
}

// A question's `ask`, a `step` for each of these lines of its sheet, and its `pair`. Its arguments stand apart as those of
// `transcript::answered` do, which stay: a struct of them would be made and taken apart once.
pub fn put_answered(
    to: &mut Writer<'_>,
    number: u32,
    operation: u32,
    x: u32,
    y: u32,
    words: &[u32; SHEET_SIZE],
    lines: usize,
    pair: Pair,
)
    requires { (lines ≤ most_lines) × HasRoom to.old (shown_text number operation x y words.now lines pair) }
    ensures { Wrote to.old (shown_text number operation x y words.now lines pair) to.new }
{
    put_ask(to, number, operation, x, y);
    put_steps(to, words, lines);
    put_pair(to, pair);
}
