//! Expressions over the means of transport: their text, and the words that they denote.
#![tactic(auto)]

mod expr;
mod fault;
mod letter;
mod level;
mod nesting;
mod parsing;
mod place;
mod reader;
mod size;
mod token;

pub use expr::Expr;
pub use fault::ExprFault;
pub use letter::Letter;
pub use parsing::{expressions_are_usable, outcome_is_unique, parse};
