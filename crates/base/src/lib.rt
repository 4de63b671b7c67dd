// What every crate above leans on: the causes for which input is turned away, the outcome of a test, tests in a row, and the number and the
// places of a refusal. The definitions and laws of tests, lists and lent buffers, which know nothing of fields, stand in specs and proofs.
#![tactic(auto)]

pub mod refusal;
pub mod verdict;
