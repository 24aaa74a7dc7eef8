//! Queries and journeys: how a query line is read, what answers it, which journeys are real,
//! and how an answer is printed.
#![tactic(auto)]

pub mod answer;
mod copy_list;
mod endpoints;
pub mod fault;
mod large;
mod laws;
mod printing;
pub mod query;
pub mod real;
mod rides;
mod shape;
pub mod step_ends;
mod telling;
mod texts;

pub use answer::BlockBody;
pub use copy_list::copies;
pub use fault::QueryFault;
pub use large::{large_block, large_places, stopped_block};
pub use laws::{block_fixes_its_journey, reading_is_unique};
pub use printing::{block, framed, push_journey, refused_block};
pub use query::{Query, read_query};
pub use real::{ends, first_bad, is_real, word};
pub use rides::keeps_rules;
pub use step_ends::{StepEnd, step_end};
pub use texts::push_refusal;
