// The rules of the step sheet: the lines of a sum and of a product.
#![tactic(auto)]

pub mod products;
pub mod sums;
