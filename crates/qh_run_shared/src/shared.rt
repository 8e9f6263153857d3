//! A board that workers share.
ghost use Rattle.std.specs.Prelude.{◌≡◌, ◌<◌, IfSome};
ghost use Rattle.qh_run_shared.specs.Facts.{UnderLock};

use crate::locked::Locked;
use crate::named::Named;
use qh_board::Board;
use qh_disk::Disk;
use qh_lease::{Ledgers, Share, Timer};
use qh_range::{Admit, Claim, Delivery, RangeResult, Ticket};
use qh_workers::Desk;
use std::sync::{Mutex, Wait};

/// A board under a lock. It keeps what its run's name says, and is the desk of the run's workers.
pub struct SharedBoard<'d, R, D: Disk, T: Timer, N: Ledgers, M: Named> {
    rt: &'d R,
    inner: Mutex<Locked<'d, D, T, N, M>>,
}

impl<'d, R, D: Disk, T: Timer, N: Ledgers, M: Named> SharedBoard<'d, R, D, T, N, M> {
    /// Puts a board under a lock.
    pub fn new(rt: &'d R, board: Board<'d, D, T, N>) -> SharedBoard<'d, R, D, T, N, M>
        requires { UnderLock D.face D.loans M.run board }
    {
        SharedBoard {
            rt,
            inner: Mutex::new(Locked::new(board)),
        }
    }

    /// The board, once no worker has it any more.
    pub fn into_board(self) -> Board<'d, D, T, N>
        ensures { UnderLock D.face D.loans M.run result }
    {
        let SharedBoard { rt: _, inner } = self;
        inner.into_inner().into_board()
    }
}

/// Each call waits for the lock and holds it for one call of the board. It may drain, halt, repeat, refuse a give-back and meet a disk fault.
impl<'d, R: Wait, D: Disk, T: Timer, N: Ledgers, M: Named> Desk<N>
    for SharedBoard<'d, R, D, T, N, M> {
    ghost job = { λ _. M.run.job };

    ghost may_drain = { λ _. Unit {0} };

    ghost may_halt = { λ _. Unit {0} };

    ghost may_repeat = { λ _. Unit {0} };

    ghost may_refuse = { λ _. Unit {0} };

    ghost may_fault = { λ _. Unit {0} };

    fn claim(&self, share: &mut Share<N>) -> Claim {
        self.inner.lock(self.rt).claim(share)
    }

    fn admit(&self, range: u32, share: &mut Share<N>) -> Admit {
        self.inner.lock(self.rt).admit(range, share)
    }

    fn deliver(&self, outcome: RangeResult, share: &mut Share<N>) -> Delivery {
        self.inner.lock(self.rt).deliver(outcome, share)
    }

    fn give_back(&self, ticket: Ticket, share: &mut Share<N>) -> bool {
        self.inner.lock(self.rt).give_back(ticket, share)
    }
}
