// The lines that belong to no answered question. Each function writes its text at the start of the lent buffer and answers its length;
// where the buffer is too short, no byte is written and the answer is 0.
ghost use Rattle.std.specs.Prelude.{[], ◌∷◌};
ghost use Rattle.transcript_spec.specs.Texts.{decimal, line_of, bad_text, total_text, end_text, stop_text};
ghost use Rattle.transcript_spec.specs.Buffers.{Writes};

use crate::written;
use transcript_lines::{lengths, put_counts, put_total};

// A line of a name and two decimals.
fn counts(out: &mut [u8], name: &[u8; 3], first: u32, second: u32) -> usize
    ensures { Writes out.old (line_of (name.now ∷ decimal first ∷ decimal second ∷ [])) result out.new }
{
    written(
        out,
        6 + lengths::decimal(first) + lengths::decimal(second),
        |to| put_counts(to, name, first, second),
    )
}

pub fn bad(out: &mut [u8], number: u32, refusal: u32) -> usize
    ensures { Writes out.old (bad_text number refusal) result out.new }
{
    counts(out, b"bad", number, refusal)
}

pub fn total(out: &mut [u8], first: u32, second: u32) -> usize
    ensures { Writes out.old (total_text first second) result out.new }
{
    written(out, 24, |to| put_total(to, first, second))
}

pub fn end(out: &mut [u8], good: u32, bad: u32) -> usize
    ensures { Writes out.old (end_text good bad) result out.new }
{
    counts(out, b"end", good, bad)
}

pub fn stop(out: &mut [u8]) -> usize
    ensures { Writes out.old stop_text result out.new }
{
    written(out, 8, |to| to.bytes(b"stop\t11\n"))
}
