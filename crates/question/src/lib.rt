// Reading a question line: three letters, a pattern and a pattern, with tabs between.
#![tactic(auto)]

mod digits;
mod letters;

ghost use Rattle.std.specs.Prelude.{◌≡◌};
ghost use Rattle.question_spec.specs.Questions.{read_question};
ghost use Rattle.question_spec.specs.Answers.{answer_question};

use question_spec::QUESTION_SIZE;
pub use question_spec::{NotAsked, Question};

pub fn read(line: &[u8]) -> Result<Question, NotAsked>
    ensures { answer_question result ≡ read_question line.now }
{
    if line.len() != QUESTION_SIZE {
        return Err(NotAsked::Length);
    }
    let operation = letters::operation(line).ok_or(NotAsked::Letters)?;
    if line[3] != b'\t' || line[12] != b'\t' {
        return Err(NotAsked::Tab);
    }
    let x = digits::value(&line[4..12]).ok_or(NotAsked::Digit)?;
    let y = digits::value(&line[13..QUESTION_SIZE]).ok_or(NotAsked::Digit)?;
    Ok(Question { operation, x, y })
}
