//! Journeys over a network, step by step.

use plan_base::Time;
use std::marker::Model;

/// One step of a journey.
#[derive(Clone, Copy, Debug, PartialEq, Eq)]
pub enum Step {
    /// Stays at the node until a time that is not before.
    Wait {
        until: Time,
    },
    /// Takes the road arc to this node, in the mode of its layer.
    Road {
        to: u32,
    },
    /// Takes the link to this node.
    Link {
        to: u32,
    },
    /// A leg of length zero at a road node, in the mode of its layer.
    Stand,
    /// Rides on the run of this trip on this day, from the call at which it boards to a later one.
    Ride {
        trip: u32,
        day: u32,
        board: u32,
        alight: u32,
    },
}

/// Where and when a journey starts, and its steps in order. A contract sees it as a route.
#[derive(Debug, Drop)]
pub struct Journey {
    pub start: u32,
    pub at: Time,
    pub steps: Vec<Step>,
}

impl Model for Journey {
    ghost use Rattle.mode_network.specs.Journeys.{Route};

    ghost Value = { Route };

    ghost view = { λ j. record { start = j.start; at = j.at; steps = j.steps.items } };
}
