// The calls of the stand, of its stored form, of its meshing and of the price sheet, with structs and numbers that C knows. `exports_c` gives them to C.
// Kept: structs with a code beside a value, zeros beside a refusal, numbers for codes, rules and sides, lists one by one in place of structs, and a function for each of C's names, since C calls these functions.
#![tactic(auto)]

pub mod edit;
pub mod keep;
pub mod lent;
pub mod panels;
pub mod prices;
pub mod read;
pub mod reply;
pub mod rule;
pub mod slices;
pub mod walk;
