// A stand kept in a file (document 02, 2.2): its form written, checked and read back, with no storage but what is lent.
#![tactic(auto)]

mod check;
mod digest;
mod head;
mod inside;
mod layout;
pub mod load;
mod put;
mod record;
mod records;
pub mod store;
