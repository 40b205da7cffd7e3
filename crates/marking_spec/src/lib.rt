// The marking of a candidate's lines as definitions and theorems, a line as it was handed in, why lines are not marked, and an answer as
// numbers.
#![tactic(auto)]

ghost use Rattle.std.specs.Prelude.{◌≡◌, [], ◌∷◌};
ghost use Rattle.marking_spec.specs.Marking.{claims, refusal_marked, marked_numbers};

use worksheet_spec::LINE_SIZE;

// Six words as they stand (R5.22): the step's number, three operands, result and mark.
#[derive(Clone, Copy)]
pub struct Claim {
    pub step: u32,
    pub x: u32,
    pub y: u32,
    pub z: u32,
    pub result: u32,
    pub mark: u32,
}

impl From<[u32; LINE_SIZE]> for Claim {
    ghost from_gives = { λ words claim. claims words ≡ claim ∷ [] };

    fn from(words: [u32; LINE_SIZE]) -> Claim {
        let [step, x, y, z, result, mark] = words;
        Claim {
            step,
            x,
            y,
            z,
            result,
            mark,
        }
    }
}

// Why lines are not marked (R8.18): no operation's number, unfit words, or the first line that is not allowed or not true, counted from 1.
#[derive(Clone, Copy, PartialEq, Eq)]
pub enum NotMarked {
    Operation,
    Words,
    NotAllowed { line: u32 },
    NotTrue { line: u32 },
}

// An answer as numbers for C: the refusal's, or 0; the line that 14 or 15 is about, or 0; whether the lines are right, which is false where
// they are refused.
#[repr(C)]
#[derive(Clone, Copy)]
pub struct MarkedNumbers {
    pub refusal: u32,
    pub line: u32,
    pub right: bool,
}

impl From<NotMarked> for MarkedNumbers {
    ghost from_gives = { λ why numbers. numbers ≡ marked_numbers (refusal_marked why) };

    fn from(why: NotMarked) -> MarkedNumbers {
        let (refusal, line) = match why {
            NotMarked::Operation => (10, 0),
            NotMarked::Words => (13, 0),
            NotMarked::NotAllowed { line } => (14, line),
            NotMarked::NotTrue { line } => (15, line),
        };
        MarkedNumbers {
            refusal,
            line,
            right: false,
        }
    }
}

// How many lines are marked (R8.18).
pub const FEWEST_MARKED: usize = 2;

pub const MOST_MARKED: usize = 100;
