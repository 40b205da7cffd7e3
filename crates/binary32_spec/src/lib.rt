// The four rounding steps as definitions and theorems, and their agreement with the toolchain's own account of IEEE 754; what a step hands
// back.
#![tactic(auto)]

// Marks (R2.8): nothing was lost; something was, by rounding or by overflow; there was an infinity or a NaN among the operands. They are
// numbers, since an `Outcome` goes to C as it is (`jirmeklo_add`), and an enum of a word's size is no type here.
pub const EXACT: u32 = 0;

pub const ROUNDED: u32 = 1;

pub const SPECIAL: u32 = 2;

// A step's result and its mark.
#[repr(C)]
#[derive(Clone, Copy)]
pub struct Outcome {
    pub result: u32,
    pub mark: u32,
}
