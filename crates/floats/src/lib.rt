// Numbers: the square root, correctly rounded, and Rust's helpers on f64, bit for bit.
#![tactic(auto)]

pub mod root;
pub mod scalar;
