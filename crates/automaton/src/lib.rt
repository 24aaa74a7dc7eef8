//! Automata of expressions over means of transport: the position automaton of an expression, and the
//! automaton that reads adjacent equal road letters as one.
#![tactic(auto)]

mod builder;
mod collapsed;
mod laws;
mod position_set;
mod positions;
mod state;

pub use collapsed::Collapsed;
pub use laws::positions_accept;
pub use positions::Positions;
