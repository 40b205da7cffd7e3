// Exact totals as definitions and theorems, the sizes that they name, what the calls on them answer, and a reading as numbers. The code
// stands above, in `accumulator` and the crates between, so that a change of it proves little anew.
#![tactic(auto)]

ghost use Rattle.std.specs.Prelude.{◌≡◌};
ghost use Rattle.accumulator_spec.specs.Answers.{refusal_number};

// R6.1: the words of a total's number.
pub const NUMBER_SIZE: usize = 20;
// R6.1: where the last word of a total stands, which the sign of a zero total goes by.
pub const SIGN_WORD: usize = NUMBER_SIZE + 1;
// R6.1: all words of a total: those of the number, the count, and the sign word.
pub const TOTAL_SIZE: usize = 22;
// R6.13: all words of a total as it was before it had a sign word.
pub const OLD_SIZE: usize = 21;
// R6.3: the most terms that a total takes.
pub const MOST_TERMS: u32 = 65536;

// Why a call on a total is not carried out. Of two totals, `Length` and `Unfit` don't tell which.
#[derive(Clone, Copy, PartialEq, Eq)]
pub enum NotDone {
    Length,
    Unfit,
    NotFinite,
    Full,
    TooMany,
}

// Refusal numbers (R8.7 to R8.9, R8.16, R8.17).
impl From<NotDone> for u32 {
    ghost from_gives = { λ reason number. number ≡ refusal_number reason };

    fn from(reason: NotDone) -> u32 {
        match reason {
            NotDone::Length => 5,
            NotDone::Unfit => 6,
            NotDone::NotFinite => 7,
            NotDone::Full => 8,
            NotDone::TooMany => 12,
        }
    }
}

// What reading answers, as numbers: the refusal's and two zeros, or 0 and the pair.
#[repr(C)]
#[derive(Clone, Copy)]
pub struct ReadingNumbers {
    pub refusal: u32,
    pub first: u32,
    pub second: u32,
}
