// How long the texts are, known before the first byte is written: where one has no room the buffer stays as it was (R8.14).
ghost use Rattle.std.specs.Prelude.{◌≡◌, List, ℕ, ◌+◌, ◌*◌, ◌≤◌, length, get_or};
ghost use Rattle.worksheet_spec.specs.Lines.{most_lines};
ghost use Rattle.transcript_spec.specs.Texts.{decimal, flags_text, step_text, steps_text};
ghost use Rattle.transcript_spec.specs.Inner.{answered_length};

use augmented_spec::Flags;
use transcript_fields::patterns::takes_two;
use worksheet_spec::{LINE_SIZE, SHEET_SIZE};

pub fn decimal(n: u32) -> usize
    ensures { (result ≡ length (decimal n)) × (result ≤ 10) }
{
    if n < 10 {
        return 1;
    }
    decimal(n / 10) + 1
}

pub fn flags(flags: Flags) -> usize
    ensures { (result ≡ length (flags_text flags)) × (result ≤ 4) }
{
    let n = usize::from(flags.invalid)
        + usize::from(flags.overflow)
        + usize::from(flags.underflow)
        + usize::from(flags.inexact);
    n.max(1)
}

pub fn step(number: u32, operation: u32) -> usize
    ensures { ((words : List ℕ) → get_or words 0 0 ≡ operation → result ≡ length (step_text number words)) × (result ≤ 58) }
{
    if takes_two(operation) {
        return 41 + decimal(number);
    }
    48 + decimal(number)
}

fn steps(words: &[u32; SHEET_SIZE], lines: usize) -> usize
    requires { lines ≤ most_lines }
    ensures { (result ≡ length (steps_text lines 1 words.now)) × (result ≤ 58 * most_lines) }
{
    let (sheet, _) = words.as_chunks::<LINE_SIZE>();
    let mut n = 0;
    for (k, line) in sheet[..lines].iter().enumerate() {
        n += step(k as u32 + 1, line[0]);
    }
    n
}

// An `ask`, a `step` for each of these lines, and a `pair`.
pub fn answered(number: u32, words: &[u32; SHEET_SIZE], lines: usize, flags: Flags) -> usize
    requires { lines ≤ most_lines }
    ensures { result ≡ answered_length number words.now lines flags }
{
    51 + decimal(number) + steps(words, lines) + crate::lengths::flags(flags)
}
