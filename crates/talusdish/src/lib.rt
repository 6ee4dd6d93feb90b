// The operations, and the capacities that design rules give, for hosts: include/talusdish.h. Each returns 256 times its value and the documents' number of the
// refusal, 0 for an accepted call. A library exports no symbol: the crate talusdish_c does.
#![tactic(auto)]

mod word; // the word of a result
pub mod exports; // the operations
pub mod measures; // the capacities that design rules give
