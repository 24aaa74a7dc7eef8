//! Where and when the steps of a journey end.

ghost use Rattle.std.specs.Prelude.{◌<◌, ◌^◌};
ghost use Rattle.journey.specs.Ends.{IsStepEnd};

use crate::rides::{NamedRide, ride_end};
use mode_network::{Network, Step};
use plan_base::Time;

/// Where and when a step ends, and its letter, if it has one.
#[derive(Clone, Copy, Debug, PartialEq, Eq)]
pub struct StepEnd {
    pub node: u32,
    pub at: Time,
    pub letter: Option<u8>,
}

/// The end of a step that is taken from `v` at `t`; None exactly where the network has no such step.
pub fn step_end(network: &Network, v: u32, t: Time, step: Step) -> Option<StepEnd>
    requires { t < 2 ^ 127 }
    ensures { IsStepEnd network.now v t step result }
{
    match step {
        Step::Wait { until } => {
            if t <= until {
                Some(StepEnd {
                    node: v,
                    at: until,
                    letter: None,
                })
            } else {
                None
            }
        }
        Step::Road { to } => {
            match network.arc_ms(v, to) {
                Some(ms) => Some(StepEnd {
                    node: to,
                    at: t + Time::from(ms),
                    letter: network.letter(v),
                }),
                None => None,
            }
        }
        Step::Link { to } => {
            match network.link_ms(v, to) {
                Some(ms) => Some(StepEnd {
                    node: to,
                    at: t + Time::from(ms),
                    letter: None,
                }),
                None => None,
            }
        }
        Step::Stand => {
            match network.letter(v) {
                Some(letter) => Some(StepEnd {
                    node: v,
                    at: t,
                    letter: Some(letter),
                }),
                None => None,
            }
        }
        Step::Ride {
            trip,
            day,
            board,
            alight,
        } => {
            let named = NamedRide {
                trip,
                day,
                board,
                alight,
            };
            ride_end(network, v, t, named)
        }
    }
}
