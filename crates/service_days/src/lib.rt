//! The days of a region: their dates, the bases that the region clock counts from, clock texts, and
//! the days on which a service runs.
#![tactic(auto)]

mod civil;
mod clock;
mod range;
mod region_days;
mod services;
mod zones;

pub use civil::read_date;
pub use clock::below_sixty;
pub use range::RangeFault;
pub use region_days::Days;
pub use services::ServiceRule;
