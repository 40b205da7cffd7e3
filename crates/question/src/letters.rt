// The letters of an operation.
ghost use Rattle.std.specs.Prelude.{◌≡◌, ◌≤◌, length};
ghost use Rattle.question_spec.specs.Questions.{letters_operation};
ghost use Rattle.question.specs.Inner.{number_or_0};

use augmented_spec::Operation;

pub fn operation(line: &[u8]) -> Option<Operation>
    requires { 3 ≤ length line.now }
    ensures { number_or_0 result ≡ letters_operation line.now }
{
    if line.starts_with(b"sum") {
        Some(Operation::Sum)
    } else if line.starts_with(b"dif") {
        Some(Operation::Difference)
    } else if line.starts_with(b"mul") {
        Some(Operation::Product)
    } else {
        None
    }
}
