//! Leave to evaluate a range.
ghost use Rattle.std.specs.Prelude.{◌≡◌, ◌≤◌};
ghost use Rattle.qh_limits.specs.Limits.{max_grants};

use std::marker::Model;

/// Leave to evaluate a range: its number, and the number of the attempt, from 1 to 16, or 0 in the final sweep.
#[derive(Clone, Copy, PartialEq, Eq, Debug)]
pub struct Ticket {
    range: u32,
    attempt: u32,
}

impl Model for Ticket {
    ghost use Rattle.std.specs.Prelude.{◌≤◌};
    ghost use Rattle.qh_limits.specs.Limits.{max_grants};
    ghost use Rattle.qh_range.specs.Results.{Ticket};

    ghost Value = { Ticket };

    ghost view = { λ t. record { range = t.range; attempt = t.attempt } };

    ghost inverse = { λ t. record { range = t.range; attempt = t.attempt } };

    ghost invariant = { λ t. t.attempt ≤ max_grants };
}

impl Ticket {
    /// The ticket for an attempt at a range. It takes no memory.
    pub fn new(range: u32, attempt: u32) -> Ticket
        requires { attempt ≤ max_grants }
        ensures { result ≡ record { range = range; attempt = attempt } }
    {
        Ticket { range, attempt }
    }

    /// The range.
    pub fn range(&self) -> u32
        ensures { result ≡ self.now.range }
    {
        self.range
    }

    /// The attempt, 0 to 16.
    pub fn attempt(&self) -> u32
        ensures value { result ≡ self.now.attempt }
        ensures few { result ≤ max_grants }
    {
        self.attempt
    }
}
