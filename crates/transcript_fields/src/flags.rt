// The letters of flags.
ghost use Rattle.transcript_spec.specs.Texts.{flag_letter, flags_text};
ghost use Rattle.transcript_fields.specs.Writers.{HasRoom, Wrote};

use crate::writer::Writer;
use augmented_spec::Flags;

impl Writer<'_> {
    fn flag_letter(&mut self, raised: bool, letter: u8)
        requires { HasRoom self.old (flag_letter raised letter) }
        ensures { Wrote self.old (flag_letter raised letter) self.new }
    {
        if raised {
            self.byte(letter);
        }
    }

    pub fn flags(&mut self, flags: Flags)
        requires { HasRoom self.old (flags_text flags) }
        ensures { Wrote self.old (flags_text flags) self.new }
    {
        let start = self.at;
        self.flag_letter(flags.invalid, b'I');
        self.flag_letter(flags.overflow, b'O');
        self.flag_letter(flags.underflow, b'U');
        self.flag_letter(flags.inexact, b'X');
        if self.at == start {
            self.byte(b'-');
        }
    }
}
