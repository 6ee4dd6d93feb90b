// The functions of talusdish as a static library for hosts in C, Rust or Python: include/talusdish.h. Each has the name, the parameters and the clauses of
// the function that it calls.
#![tactic(auto)]

mod operations; // the operations
mod capacities; // the capacities that design rules give
