// Lists of questions over two totals as definitions and theorems, their greatest length, and why a list is not replayed. The code that
// settles a question and replays a list stands above.
#![tactic(auto)]

ghost use Rattle.std.specs.Prelude.{◌≡◌};
ghost use Rattle.conservation_spec.specs.Refusals.{refusal_number};

// Most questions of a list (R7.6).
pub const MOST_QUESTIONS: usize = 32768;

// Why a list is not replayed: arrays of unequal lengths, too many questions, a total that is not cleared, or a count past the lent words.
#[derive(Clone, Copy, PartialEq, Eq)]
pub enum NotReplayed {
    Unequal,
    TooMany,
    NotCleared,
    PastWords,
}

// Refusal numbers (R8.12).
impl From<NotReplayed> for u32 {
    ghost from_gives = { λ why number. number ≡ refusal_number why };

    fn from(why: NotReplayed) -> u32 {
        match why {
            NotReplayed::Unequal => 101,
            NotReplayed::TooMany => 102,
            NotReplayed::NotCleared => 103,
            NotReplayed::PastWords => 104,
        }
    }
}
