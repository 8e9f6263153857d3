//! The word that the seats draw from.
ghost use Rattle.std.specs.Prelude.{◌≡◌, ◌+◌, ◌-◌, ◌*◌, ◌^◌, ◌<◌, ◌≤◌, [], ◌∷◌, ◌++◌, All, IfOk, ℕ, vec_len};
ghost use Rattle.qh_draw.specs.Seats.{seat_of};
ghost use Rattle.qh_draw.specs.Rule.{times};

use crate::rule::{Deals, Draws, Joins, Looks, OneEach, Plan, Rights};
use crate::seat::Seat;
use atomic_table::Table;
use std::alloc::{AllocError, Global};
use std::marker::Model;

/// The most seats of a draw.
pub const MAX_SEATS: u32 = 16;

/// The most numbers that a seat may draw.
pub const MAX_EACH: u64 = 8_589_934_592;

/// The word that the seats draw from: it begins at 0, and each draw raises it by one. Contracts see which draw it is.
///
/// What its type keeps at every moment: the lists of its seats are disjoint, together they hold exactly the numbers below
/// the word, and the word and the seats' rights left add up to the number of seats times what each may draw.
#[derive(Drop)]
pub struct Draw {
    table: Table<(), Rights, Plan, OneEach, Global>,
}

impl Model for Draw {
    ghost use Rattle.std.specs.Prelude.{◌≡◌};
    ghost use Rattle.atomic_table.specs.Seated.{TableId, table_id_coded};

    ghost Value = { TableId };

    ghost coded = { table_id_coded };

    ghost view = { λ d. d.table.shared.table_id };

    ghost invariant = { λ d. (d.table.shared.table_id.words ≡ 1) × (d.table.shared.table_id.slots ≡ 0) };
}

impl Draw {
    /// A draw and its seats, each of which may draw `each` numbers.
    pub fn new(alloc: Global, seats: u32, each: u64) -> Result<(Draw, Vec<Seat>), AllocError>
        requires some { 1 ≤ seats }
        requires few { seats ≤ MAX_SEATS }
        requires each { each ≤ MAX_EACH }
        ensures seats { IfOk result (λ r. vec_len r.1 ≡ seats) }
        ensures fresh { IfOk result (λ r. All (λ s. s ≡ seat_of r.0 each each []) r.1.items) }
    {
        let (draw, mut last) = Draw::start(alloc, u64::from(seats) * each, each)?;
        let mut all = Vec::with_capacity(alloc, seats as usize)?;
        for _ in 1..seats {
            all.push(draw.deal(&mut last))?;
        }
        all.push(last)?;
        Ok((draw, all))
    }

    /// A draw with one seat, which has all rights.
    fn start(alloc: Global, total: u64, each: u64) -> Result<(Draw, Seat), AllocError>
        requires { total < 2 ^ 63 }
        ensures { IfOk result (λ r. r.1 ≡ seat_of r.0 each total []) }
    {
        let plan = Plan { total, each };
        let (table, place) = Table::of_words(alloc, &[0], &plan)?;
        let seat = Seat {
            each,
            left: total,
            place,
        };
        Ok((Draw { table }, seat))
    }

    /// A new seat with as many rights as a seat has at first, which the given one gives.
    fn deal(&self, seat: &mut Seat) -> Seat
        requires of { seat.old.of ≡ self.now }
        requires enough { seat.old.each ≤ seat.old.left }
        ensures left { seat.new ≡ record seat.old { left = seat.old.left - seat.old.each } }
        ensures fresh { result ≡ seat_of seat.old.of seat.old.each seat.old.each [] }
    {
        let each = seat.each;
        let place = self.table.shared.split_seat::<Deals>(&mut seat.place);
        seat.left -= each;
        Seat {
            each,
            left: each,
            place,
        }
    }

    /// Draws a number, by one atomic addition. No other seat draws it, and it is above each number that this seat drew.
    pub fn draw(&self, seat: &mut Seat) -> u64
        requires of { seat.old.of ≡ self.now }
        requires left { 0 < seat.old.left }
        ensures drawn { seat.new.drawn ≡ seat.old.drawn ++ result ∷ [] }
        ensures above { All (λ x. x < result) seat.old.drawn }
        ensures left { seat.new.left + 1 ≡ seat.old.left }
        ensures same { (seat.new.of ≡ seat.old.of) × (seat.new.each ≡ seat.old.each) }
    {
        let found = self.table.shared.fetch_add::<Draws>(&mut seat.place, 0, 1);
        seat.left -= 1;
        found
    }

    /// The word, by one load: a number above each that this seat drew.
    pub fn look(&self, seat: &mut Seat) -> u64
        requires { seat.old.of ≡ self.now }
        ensures above { All (λ x. x < result) seat.old.drawn }
        ensures once { (x : ℕ) → times x seat.old.drawn ≤ 1 }
        ensures same { seat.new ≡ seat.old }
    {
        self.table.shared.load::<Looks>(&mut seat.place, 0)
    }

    /// The rights and the numbers of a seat go to another.
    pub fn join(&self, seat: &mut Seat, other: Seat)
        requires of { seat.old.of ≡ self.now }
        requires other { other.of ≡ self.now }
        requires room { seat.old.left + other.left < 2 ^ 64 }
        ensures left { seat.new.left ≡ seat.old.left + other.left }
        ensures drawn { seat.new.drawn ≡ seat.old.drawn ++ other.drawn }
        ensures same { (seat.new.of ≡ seat.old.of) × (seat.new.each ≡ seat.old.each) }
    {
        let Seat {
            each: _,
            left,
            place,
        } = other;
        self.table.shared.join_seat::<Joins>(&mut seat.place, place);
        seat.left += left;
    }
}
