// The class of a pattern as the code holds it: its number, or what stands in a number's place.
#![tactic(auto)]

use rounding_spec::Number;

// A number counts 2^-149, or 2^-298 for a product. Its bounds (`Operand`, `Product`) are no type's invariant: the two differ, and a class
// is made by a definition too (`class_of`), which would have to hold their proof.
#[derive(Clone, Copy)]
pub enum Class {
    Finite(Number),
    Infinite(bool),
    NotANumber,
}

// A NaN result of operands that are not NaN.
pub const NAN: u32 = 0x7fc0_0000;
