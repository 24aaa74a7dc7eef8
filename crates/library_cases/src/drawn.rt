//! Searches over graphs and automata that are drawn from numbers, beside a plain enumeration of all walks, and the check of what
//! they answer beside its clauses tried one by one.

mod clauses;
mod enumerate;
mod searches;
mod town;
mod verdicts;

pub use searches::searches;
pub use verdicts::lists;
