//! The workers of a run, with what each of them has of its own.
ghost use Rattle.std.specs.Prelude.{◌≡◌, ◌+◌, ◌<◌, ◌≤◌, All, IfOk, vec_len};
ghost use Rattle.qh_plan.specs.Jobs.{ranges};

use qh_board::Board;
use qh_disk::Disk;
use qh_draw::{Draw, Seat};
use qh_lease::{LEDGER_PARTS, Ledgers, Share, Timer};
use qh_plan::Job;
use std::alloc::{AllocError, Global};

/// What a worker has of its own: its number, the right to draw, and a share of the tally.
#[derive(Drop)]
pub(crate) struct Hired<N: Ledgers> {
    pub(crate) number: u32,
    pub(crate) seat: Seat,
    pub(crate) share: Share<N>,
}

/// A worker for each seat of a draw, each of which may draw more numbers than the job has ranges.
pub(crate) fn hire<D: Disk, T: Timer, N: Ledgers>(
    alloc: Global,
    board: &mut Board<'_, D, T, N>,
    job: &Job,
    draw: &Draw,
    mut seats: Vec<Seat>,
) -> Result<Vec<Hired<N>>, AllocError>
    requires seats { All (λ s. (s.of ≡ draw.now) × (ranges job.now < s.left)) seats.items }
    requires few { board.old.tally.out + vec_len seats < LEDGER_PARTS }
    ensures board { board.new ≡ record board.old { tally = board.new.tally } }
    ensures few { board.new.tally.out ≤ board.old.tally.out + vec_len seats }
    ensures out { IfOk result (λ w. board.new.tally.out ≡ board.old.tally.out + vec_len w) }
    ensures count { IfOk result (λ w. vec_len w ≡ vec_len seats) }
    ensures hired { IfOk result (λ w. All (λ h. (h.seat.of ≡ draw.now) × (ranges job.now < h.seat.left)) w.items) }
{
    let mut hired = Vec::with_capacity(alloc, seats.len())?;
    while let Some(seat) = seats.pop() {
        let number = hired.len() as u32;
        let share = board.new_share();
        hired.push(Hired {
            number,
            seat,
            share,
        })?;
    }
    Ok(hired)
}

/// The board takes the workers' shares back.
pub(crate) fn settle_all<D: Disk, T: Timer, N: Ledgers>(
    board: &mut Board<'_, D, T, N>,
    mut hired: Vec<Hired<N>>,
)
    requires { board.old.tally.out ≡ vec_len hired }
    ensures board { board.new ≡ record board.old { tally = board.new.tally } }
    ensures out { board.new.tally.out ≡ 0 }
{
    while let Some(worker) = hired.pop() {
        let Hired {
            number: _,
            seat: _,
            share,
        } = worker;
        board.settle(share);
    }
}
