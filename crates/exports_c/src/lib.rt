// The C interface, include/stand.h: each function is the one of its name in `exports`, and promises what that promises.
// Kept: C's names and lists, here and in all files: C links a function for each name, and each hands on to its twin.
#![tactic(auto)]

pub mod edit;
pub mod keep;
pub mod lent;
pub mod panels;
pub mod prices;
pub mod read;
pub mod slices;
pub mod walk;
