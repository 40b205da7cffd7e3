// Decimal figures.
ghost use Rattle.std.specs.Prelude.{◌+◌, ◌≤◌, length};
ghost use Rattle.transcript_spec.specs.Texts.{decimal};
ghost use Rattle.transcript_spec.specs.Buffers.{Put};
ghost use Rattle.transcript_fields.specs.Writers.{HasRoom, Wrote};

use crate::writer::Writer;

// Takes the buffer and the byte apart: a recursion through the writer costs all writers half as many instructions again. Nor by `Display`,
// which answers a Result: a text that has room is never refused.
fn put_decimal(out: &mut [u8], at: usize, n: u32) -> usize
    requires { at + length (decimal n) ≤ length out.old }
    ensures { Put out.old at (decimal n) result out.new }
{
    if n < 10 {
        out[at] = b'0' + n as u8;
        return at + 1;
    }
    let last = put_decimal(out, at, n / 10);
    out[last] = b'0' + (n % 10) as u8;
    last + 1
}

impl Writer<'_> {
    pub fn decimal(&mut self, n: u32)
        requires { HasRoom self.old (decimal n) }
        ensures { Wrote self.old (decimal n) self.new }
    {
        self.at = put_decimal(self.out, self.at, n);
    }
}
