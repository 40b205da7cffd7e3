// The letters of operations, each after a tab.
ghost use Rattle.std.specs.Prelude.{◌≡◌, ◌∷◌};
ghost use Rattle.question_spec.specs.Ascii.{tab};
ghost use Rattle.augmented_spec.specs.Operations.{operation_of};
ghost use Rattle.question_spec.specs.Questions.{operation_letters, operation_letters_by_number};
ghost use Rattle.transcript_spec.specs.Texts.{step_of, step_letters, step_letters_by_number};
ghost use Rattle.transcript_fields.specs.Writers.{HasRoom, Wrote};

use crate::writer::Writer;
use augmented_spec::Operation;
use worksheet_spec::Step;

// Any number comes: one that is none is taken for a product, or for a fused step.
fn operation_of(number: u32) -> Operation
    ensures { result ≡ operation_of number }
{
    Operation::try_from(number).unwrap_or(Operation::Product)
}

pub fn step_of(number: u32) -> Step
    ensures { result ≡ step_of number }
{
    Step::try_from(number).unwrap_or(Step::Fused)
}

fn question(operation: Operation) -> [u8; 3]
    ensures { result ≡ operation_letters operation }
{
    match operation {
        Operation::Sum => *b"sum",
        Operation::Difference => *b"dif",
        Operation::Product => *b"mul",
    }
}

fn of_step(step: Step) -> [u8; 3]
    ensures { result ≡ step_letters step }
{
    match step {
        Step::Add => *b"add",
        Step::Subtract => *b"sub",
        Step::Multiply => *b"mul",
        Step::Fused => *b"fma",
    }
}

impl Writer<'_> {
    pub fn letters(&mut self, operation: u32)
        requires { HasRoom self.old (tab ∷ operation_letters_by_number operation) }
        ensures { Wrote self.old (tab ∷ operation_letters_by_number operation) self.new }
    {
        self.byte(b'\t');
        self.bytes(&question(operation_of(operation)));
    }

    pub fn step_letters(&mut self, operation: u32)
        requires { HasRoom self.old (tab ∷ step_letters_by_number operation) }
        ensures { Wrote self.old (tab ∷ step_letters_by_number operation) self.new }
    {
        self.byte(b'\t');
        self.bytes(&of_step(step_of(operation)));
    }
}
