// What the programs of tests share over the operations: the answer of any operation, and as a kind and a number, the operations on parts of a buffer, and the
// router's listings and search.
#![tactic(auto)]

pub mod lent; // the operations on parts of a buffer
pub mod listed; // the router's listings
pub mod said; // the answer of any operation, and as a kind and a number
pub mod shortened; // what an "all wired" leaves
