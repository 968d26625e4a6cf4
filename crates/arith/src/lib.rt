// Arithmetic that the language leaves to its programs: signed numbers as unsigned ones, saturation, products that wrap; numbers in lists of bytes.
#![tactic(auto)]

pub mod bytes;
pub mod level;
pub mod saturate;
pub mod wrap;
