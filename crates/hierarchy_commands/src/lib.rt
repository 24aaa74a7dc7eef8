//! Hierarchies in a run: reading one, which is checked at once, and the commands `check` and `contract`.
#![tactic(auto)]

mod broken;
mod checking;
mod contracting;
mod laws;
pub mod progress;
mod reading;

pub use checking::check;
pub use contracting::contract;
pub use laws::{check_completes, contract_completes};
pub use progress::ContractionNotes;
pub use reading::read_if_named;
