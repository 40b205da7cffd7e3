// Patterns, each after a tab.
ghost use Rattle.std.specs.Prelude.{◌≡◌, ◌∷◌, ◌++◌, ◌%◌};
ghost use Rattle.question_spec.specs.Ascii.{tab};
ghost use Rattle.question_spec.specs.Questions.{digit, pattern_text};
ghost use Rattle.transcript_spec.specs.Texts.{step_of, takes_two, third_text};
ghost use Rattle.transcript_spec.specs.Inner.{half_text};
ghost use Rattle.transcript_fields.specs.Writers.{HasRoom, Wrote};

use crate::letters::step_of;
use crate::writer::Writer;
use worksheet_spec::Step;

fn hexadecimal(x: u32) -> u8
    ensures { result ≡ digit (x % 16) }
{
    let d = x % 16;
    if d < 10 {
        return b'0' + d as u8;
    }
    b'A' + (d - 10) as u8
}

// Whether a step's third operand is unused.
pub fn takes_two(operation: u32) -> bool
    ensures { result ≡ takes_two (step_of operation) }
{
    match step_of(operation) {
        Step::Add | Step::Subtract | Step::Multiply => true,
        Step::Fused => false,
    }
}

impl Writer<'_> {
    // The last four digits.
    fn half(&mut self, x: u32)
        requires { HasRoom self.old (half_text x) }
        ensures { Wrote self.old (half_text x) self.new }
    {
        self.byte(hexadecimal(x / 4096));
        self.byte(hexadecimal(x / 256));
        self.byte(hexadecimal(x / 16));
        self.byte(hexadecimal(x));
    }

    pub fn pattern(&mut self, x: u32)
        requires { HasRoom self.old (tab ∷ pattern_text x) }
        ensures { Wrote self.old (tab ∷ pattern_text x) self.new }
    {
        self.byte(b'\t');
        self.half(x / 65536);
        self.half(x);
    }

    pub fn patterns(&mut self, x: u32, y: u32)
        requires { HasRoom self.old (tab ∷ pattern_text x ++ (tab ∷ pattern_text y)) }
        ensures { Wrote self.old (tab ∷ pattern_text x ++ (tab ∷ pattern_text y)) self.new }
    {
        self.pattern(x);
        self.pattern(y);
    }

    pub fn third(&mut self, operation: u32, z: u32)
        requires { HasRoom self.old (tab ∷ third_text operation z) }
        ensures { Wrote self.old (tab ∷ third_text operation z) self.new }
    {
        if takes_two(operation) {
            self.bytes(b"\t-");
            return;
        }
        self.pattern(z);
    }
}
