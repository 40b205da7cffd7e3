// A number as the code holds it, and what a tie does when it is rounded.
#![tactic(auto)]

// What a tie does: to the even last bit (RNe), or to the smaller magnitude (RN0).
#[derive(Clone, Copy)]
pub enum Ties {
    ToEven,
    ToZero,
}

// ±sig * 2^exp units: of 2^-149, or of 2^-298 for a product. `sign` is true for minus.
#[derive(Clone, Copy)]
pub struct Number {
    pub sign: bool,
    pub sig: u64,
    pub exp: u16,
}
