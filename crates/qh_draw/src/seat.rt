//! A seat.
ghost use Rattle.std.specs.Prelude.{◌≡◌};

use crate::rule::Rights;
use atomic_table::Seat as Place;
use std::marker::Model;

/// The right to draw some numbers of one draw. Contracts see which draw, how many numbers it may still draw, and those
/// that it drew, in order.
#[derive(Drop)]
pub struct Seat {
    pub(crate) each: u64,
    pub(crate) left: u64,
    pub(crate) place: Place<(), Rights>,
}

impl Model for Seat {
    ghost use Rattle.std.specs.Prelude.{◌≡◌, []};
    ghost use Rattle.qh_draw.specs.Seats.{Seat, seat_of, seat_coded};

    ghost Value = { Seat };

    ghost coded = { seat_coded };

    ghost view = { λ s. seat_of s.place.table_id s.place.me.0.each s.left s.place.me.0.drawn };

    ghost invariant = { λ s. (s.place.me.0.left ≡ s.left) × (s.place.me.0.each ≡ s.each) × (s.place.me.1 ≡ []) };
}

impl Seat {
    /// How many numbers it may still draw.
    pub fn left(&self) -> u64
        ensures { result ≡ self.now.left }
    {
        self.left
    }
}
