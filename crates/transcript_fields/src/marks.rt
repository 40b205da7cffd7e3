// The mark of a step, after a tab. It ends its line.
ghost use Rattle.std.specs.Prelude.{◌≡◌, [], ◌∷◌};
ghost use Rattle.question_spec.specs.Ascii.{tab};
ghost use Rattle.transcript_spec.specs.Texts.{mark_digit, mark_text, line_of};
ghost use Rattle.transcript_fields.specs.Writers.{HasRoom, Wrote};

use crate::writer::Writer;

fn digit(mark: u32) -> u8
    ensures { result ≡ mark_digit mark }
{
    match mark {
        0 => b'0',
        1 => b'1',
        _ => b'2',
    }
}

impl Writer<'_> {
    pub fn mark(&mut self, mark: u32)
        requires { HasRoom self.old (tab ∷ line_of (mark_text mark ∷ [])) }
        ensures { Wrote self.old (tab ∷ line_of (mark_text mark ∷ [])) self.new }
    {
        self.bytes(&[b'\t', digit(mark), b'\n']);
    }
}
