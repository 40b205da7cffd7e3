// The fields of the printed lines: what a writer writes into a lent buffer.
#![tactic(auto)]

pub mod decimals;
pub mod flags;
pub mod letters;
pub mod marks;
pub mod patterns;
pub mod writer;
