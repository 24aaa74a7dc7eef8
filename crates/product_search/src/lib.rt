//! The exact search over the product of a lawful graph and an automaton, and the check of a list of labels that
//! bounds every accepted walk. Both are proved once, for all graphs and automata.
#![tactic(auto)]

mod ahead;
mod arc_check;
mod arrivals;
mod chains;
mod checking;
mod claim;
mod correcting;
mod end_check;
mod ends;
mod explore;
mod frontier;
mod label;
mod limit;
mod listing;
mod lookup;
mod machine;
mod moves;
mod order_check;
mod question;
mod queue;
mod retrace;
mod row;
mod searching;
mod start;
mod start_check;
mod targets;
mod verdict;
mod workspace;

pub use arrivals::search_arrivals;
pub use checking::check_labels;
pub use claim::LabelClaim;
pub use label::{Best, Found, FoundWithCount, Hop, Label, Walk};
pub use limit::{Limited, stops_are_due};
pub use machine::Machine;
pub use question::Question;
pub use searching::{search, search_best_with, search_counted_within, search_within};
pub use targets::TargetTable;
pub use verdict::LabelVerdict;
pub use workspace::Workspace;
