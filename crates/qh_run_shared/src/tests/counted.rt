//! What two workers were granted and acknowledged on a board without a journal, before any sweep.
ghost use Rattle.std.specs.Prelude.{◌≡◌, None};
ghost use Rattle.qh_lease.specs.Register.{IsBlankOf};
ghost use Rattle.qh_lease.specs.Tally.{nothing};

use crate::together::{Worked, work_where_open};
use qh_board::Board;
use qh_disk::MemDisk;
use qh_journal::Journal;
use qh_lease::{Counted, LEDGER_PARTS, Ledgers, ScriptTimer, Tally, Three, Totals};
use qh_plan::Job;
use qh_range::Claim;
use qh_workers::FreeGate;
use std::alloc::Global;
use std::marker::Brand;
use std::sync::ledger::Blank;
use std::sync::{Arc, Wait};
use std::test::Fail;
use std::thread::Threads;

/// Takes a range and gives it back, so that no worker is admitted to it: one has to claim it.
fn return_one<'d, N: Ledgers>(board: &mut Board<'d, MemDisk, ScriptTimer, N>)
    requires running { board.old.course.fault ≡ None }
    requires out { board.old.tally.out ≡ 0 }
    ensures job { board.new.job ≡ board.old.job }
    ensures running { board.new.course.fault ≡ None }
    ensures out { board.new.tally.out ≡ 0 }
{
    let mut share = board.new_share();
    if let Claim::Granted(ticket) = board.claim(&mut share) {
        let _ = board.give_back(ticket, &mut share);
    }
    board.settle(share);
}

/// Two workers work on a board with this tally and a timer that is never due. Where `returned` a range was given back before.
fn count_by<R, N>(
    rt: &R,
    alloc: Global,
    job: &Arc<Job>,
    tally: Tally<N>,
    returned: bool,
) -> Result<Totals, Fail>
where
    R: Threads + Wait + Sync,
    N: Ledgers + Send + Sync,
    N::Grants: Send + Sync,
    N::Backs: Send + Sync,
    N::Acks: Send + Sync,
    requires out { tally.out ≡ 0 }
    requires totals { tally.totals ≡ nothing }
    requires settled { tally.settled ≡ nothing }
{
    let journal = Journal::<MemDisk>::unkept(alloc, job)?;
    let mut timer = ScriptTimer::new(alloc, &[])?;
    let shared = Arc::try_clone(job)?;
    let Ok(mut board) = Board::attach(alloc, journal, shared, &mut timer, tally) else {
        return Err("no memory for a board".into());
    };
    if returned {
        return_one(&mut board);
    }
    let Worked {
        mut board,
        ready: _,
    } = work_where_open(rt, alloc, board, job, 2, &FreeGate);
    Ok(board.settled())
}

/// The same over ledgers that are blank.
fn count_over<R, G, B, A>(
    rt: &R,
    alloc: Global,
    job: &Arc<Job>,
    blanks: (Blank, Blank, Blank),
    returned: bool,
) -> Result<Totals, Fail>
where
    R: Threads + Wait + Sync,
    G: Counted + Send + Sync,
    B: Counted + Send + Sync,
    A: Counted + Send + Sync,
    requires grants { IsBlankOf blanks.0.name blanks.0.parts G.name G.parts }
    requires backs { IsBlankOf blanks.1.name blanks.1.parts B.name B.parts }
    requires acks { IsBlankOf blanks.2.name blanks.2.parts A.name A.parts }
{
    let (grants, backs, acks) = blanks;
    count_by(
        rt,
        alloc,
        job,
        Tally::<Three<G, B, A>>::new(grants, backs, acks),
        returned,
    )
}

/// What was granted, given back and acknowledged of the ranges of a job after two workers. Where `returned` a range was granted
/// and given back before they came.
pub fn count<R: Threads + Wait + Sync>(
    rt: &R,
    alloc: Global,
    job: &Arc<Job>,
    returned: bool,
) -> Result<Totals, Fail> {
    let blanks = (
        Blank::new(LEDGER_PARTS),
        Blank::new(LEDGER_PARTS),
        Blank::new(LEDGER_PARTS),
    );
    count_over::<R, Brand, Brand, Brand>(rt, alloc, job, blanks, returned)
}
