//! What is made of the expression of a query, which is kept while the text of the expression stays.
#![tactic(auto)]

mod forward;
mod kept;
mod maker;
mod room;
mod text;

pub use forward::Forward;
pub use kept::{Expressed, Kept};
pub use maker::Maker;
pub use room::Room;
