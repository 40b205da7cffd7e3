// Question lines as definitions and theorems; a question as the code hands it back, and why a line is none.
#![tactic(auto)]

ghost use Rattle.std.specs.Prelude.{◌≡◌};
ghost use Rattle.question_spec.specs.Answers.{refusal_number};

use augmented_spec::Operation;

// Bytes of a question line (R8.3).
pub const QUESTION_SIZE: usize = 21;

#[derive(Clone, Copy, PartialEq, Eq)]
pub struct Question {
    pub operation: Operation,
    pub x: u32,
    pub y: u32,
}

// Another length, other letters, no tab where one has to be, a byte in a pattern that is no digit.
#[derive(Clone, Copy, PartialEq, Eq)]
pub enum NotAsked {
    Length,
    Letters,
    Tab,
    Digit,
}

// Refusal numbers (R8.4).
impl From<NotAsked> for u32 {
    ghost from_gives = { λ why number. number ≡ refusal_number why };

    fn from(why: NotAsked) -> u32 {
        match why {
            NotAsked::Length => 1,
            NotAsked::Letters => 2,
            NotAsked::Tab => 3,
            NotAsked::Digit => 4,
        }
    }
}
