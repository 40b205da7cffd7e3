// The step sheet of a question as definitions and theorems, its sizes, steps, branches and constants, and what filling answers. The code
// that fills a sheet stands above.
#![tactic(auto)]

ghost use Rattle.std.specs.Prelude.{◌≡◌};
ghost use Rattle.worksheet_spec.specs.Steps.{Numbers, step_number};
ghost use Rattle.worksheet_spec.specs.Refusals.{refusal_number};
ghost use Rattle.worksheet_spec.specs.Filling.{no_sheet};

use augmented_spec::{Flags, Pair};

// Words of a line, most lines, and words of a sheet (R5.21, R5.22).
pub const LINE_SIZE: usize = 6;

pub const MOST_LINES: usize = 13;

pub const SHEET_SIZE: usize = MOST_LINES * LINE_SIZE;

// The step of a line.
#[derive(Clone, Copy, PartialEq, Eq)]
pub enum Step {
    Add,
    Subtract,
    Multiply,
    Fused,
}

// A number that is no step's.
#[derive(Clone, Copy, PartialEq, Eq)]
pub struct NoStep;

// Step numbers (R5.22).
impl TryFrom<u32> for Step {
    type Error = NoStep;

    ghost try_from_gives = { Numbers };

    fn try_from(number: u32) -> Result<Step, NoStep> {
        match number {
            1 => Ok(Step::Add),
            2 => Ok(Step::Subtract),
            3 => Ok(Step::Multiply),
            4 => Ok(Step::Fused),
            _ => Err(NoStep),
        }
    }
}

impl From<Step> for u32 {
    ghost from_gives = { λ step number. number ≡ step_number step };

    fn from(step: Step) -> u32 {
        match step {
            Step::Add => 1,
            Step::Subtract => 2,
            Step::Multiply => 3,
            Step::Fused => 4,
        }
    }
}

// How a product goes on, by its first line (R5.12).
#[derive(Clone, Copy)]
pub enum Branch {
    NotANumber,
    Infinite,
    Zero,
    Tiny,
    Middle,
    Other,
}

// The constants of the step sheet (R5.1): first factors (R5.2), and u, which is taken away. PSI is 1 - 2^-24.
pub const PSI: u32 = 0x3f7f_ffff;

pub const TWO: u32 = 0x4000_0000;

pub const MINUS_TWO: u32 = 0xc000_0000;

pub const HALF: u32 = 0x3f00_0000;

// 2 - 2^-23
pub const KAPPA: u32 = 0x3fff_ffff;

pub const TWO_TO_24: u32 = 0x4b80_0000;

pub const TWO_TO_48: u32 = 0x5780_0000;

pub const TWO_TO_MINUS_24: u32 = 0x3380_0000;

pub const PLUS_ZERO: u32 = 0x0000_0000;

// u, 2^-149
pub const SMALLEST: u32 = 0x0000_0001;

// What a filled sheet answers: its line count, and the pair at its foot with its flags.
#[derive(Clone, Copy)]
pub struct Filled {
    pub lines: u32,
    pub pair: Pair,
}

// Why no sheet is filled: the operation number is no operation's, or too few words are lent.
#[derive(Clone, Copy, PartialEq, Eq)]
pub enum NotFilled {
    Operation,
    Words,
}

// Refusals (R8.5).
impl From<NotFilled> for u32 {
    ghost from_gives = { λ refusal number. number ≡ refusal_number refusal };

    fn from(refusal: NotFilled) -> u32 {
        match refusal {
            NotFilled::Operation => 10,
            NotFilled::Words => 9,
        }
    }
}

// What filling answers, as numbers for C: the refusal's and zeros; or 0, the line count, and the pair at the foot with its flags.
#[repr(C)]
#[derive(Clone, Copy)]
pub struct FilledNumbers {
    pub refusal: u32,
    pub lines: u32,
    pub first: u32,
    pub second: u32,
    pub flags: Flags,
}

// A refused call has no line, no pair and no flag.
impl From<NotFilled> for FilledNumbers {
    ghost from_gives = { λ refusal numbers. numbers ≡ no_sheet (refusal_number refusal) };

    fn from(refusal: NotFilled) -> FilledNumbers {
        FilledNumbers {
            refusal: u32::from(refusal),
            lines: 0,
            first: 0,
            second: 0,
            flags: Flags::default(),
        }
    }
}
