//! The work of one worker.
ghost use Rattle.std.specs.Prelude.{◌≡◌, ◌≢◌, ◌+◌, ◌<◌, ◌≤◌, ◌⊎◌, ℕ, IfErr, OnOk, SomeIff};
ghost use Rattle.std.specs.Arc.{arc_value};
ghost use Rattle.qh_plan.specs.Jobs.{ranges};
ghost use Rattle.qh_workers.specs.Shares.{Grows, AllAcked, AllAnswered};
ghost use Rattle.qh_workers.specs.Ends.{EndCause, IsHeld};

use crate::bench::{Bench, pass};
use crate::desk::Desk;
use crate::ended::Ended;
use crate::gate::{Point, WorkerGate};
use crate::serve::serve;
use qh_draw::{Draw, Seat};
use qh_half::Steps;
use qh_lease::{Ledgers, Share};
use qh_plan::Job;
use qh_prefix::PrefixCache;
use qh_range::{Admit, Claim, Room};
use std::alloc::Global;
use std::sync::ledger::Ledger;
use std::sync::{Arc, Mutex, Wait};

/// The range of the job that a drawn number is, if it is one.
fn range_of(job: &Job, number: u64) -> Option<u32>
    ensures { SomeIff result (number < ranges job.now) number }
{
    if number < u64::from(job.ranges()) {
        Some(number as u32)
    } else {
        None
    }
}

/// Draws a number, asks for the range that it is and serves the ticket. It answers whether the number was a range.
fn serve_drawn<R: Wait, N: Ledgers, K: Desk<N>, W: WorkerGate, L: Ledger>(
    bench: &Bench<'_, R, K, W>,
    number: u64,
    room: &mut Room,
    share: &mut Share<N>,
    steps: &mut Steps<L>,
) -> Result<bool, Ended>
    requires job { K.job bench.now.desk.now ≡ arc_value bench.now.job.now }
    requires room { room.old ≡ arc_value bench.now.job.now }
    ensures room { room.new ≡ room.old }
    ensures grows { Grows share.old share.new }
    ensures acked { OnOk result (¬ (K.may_repeat bench.now.desk.now) → AllAcked share.old share.new) }
    ensures back { result ≡ Err Ended.Memory → ¬ (K.may_refuse bench.now.desk.now) → AllAnswered share.old share.new }
    ensures unacked { ((range : ℕ) → IsHeld (W.stops bench.now.gate.now bench.now.worker) range) → share.new.acks ≡ share.old.acks }
    ensures cause { IfErr result (EndCause ⊥ (W.may_quit bench.now.gate.now) (K.may_halt bench.now.desk.now ⊎ K.may_fault bench.now.desk.now)) }
{
    let Some(range) = range_of(bench.job, number) else {
        return Ok(false);
    };
    match bench.desk.admit(range, share) {
        Admit::Granted(ticket) => serve(bench, room, ticket, share, steps)?,
        Admit::Taken => {}
        Admit::Halted { .. } => return Err(Ended::Halted),
    }
    Ok(true)
}

/// Claims a range and serves the ticket.
fn serve_claimed<R: Wait, N: Ledgers, K: Desk<N>, W: WorkerGate, L: Ledger>(
    bench: &Bench<'_, R, K, W>,
    room: &mut Room,
    share: &mut Share<N>,
    steps: &mut Steps<L>,
) -> Result<(), Ended>
    requires job { K.job bench.now.desk.now ≡ arc_value bench.now.job.now }
    requires room { room.old ≡ arc_value bench.now.job.now }
    ensures room { room.new ≡ room.old }
    ensures grows { Grows share.old share.new }
    ensures acked { OnOk result (¬ (K.may_repeat bench.now.desk.now) → AllAcked share.old share.new) }
    ensures drained { result ≡ Err Ended.Drained → share.new ≡ share.old }
    ensures back { result ≡ Err Ended.Memory → ¬ (K.may_refuse bench.now.desk.now) → AllAnswered share.old share.new }
    ensures stopped { W.stops bench.now.gate.now bench.now.worker Point.BeforeClaim → (result ≡ Err Ended.Quit) × (share.new ≡ share.old) }
    ensures unacked { ((range : ℕ) → IsHeld (W.stops bench.now.gate.now bench.now.worker) range) → share.new.acks ≡ share.old.acks }
    ensures cause { IfErr result (EndCause (K.may_drain bench.now.desk.now) (W.may_quit bench.now.gate.now) (K.may_halt bench.now.desk.now ⊎ K.may_fault bench.now.desk.now)) }
{
    pass(bench.gate, bench.worker, Point::BeforeClaim)?;
    match bench.desk.claim(share) {
        Claim::Granted(ticket) => serve(bench, room, ticket, share, steps),
        Claim::Drained => Err(Ended::Drained),
        Claim::Halted { .. } => Err(Ended::Halted),
    }
}

/// Draws ranges and serves them until a number is no range.
fn serve_draws<R: Wait, N: Ledgers, K: Desk<N>, W: WorkerGate, L: Ledger>(
    bench: &Bench<'_, R, K, W>,
    draw: &Draw,
    seat: &mut Seat,
    room: &mut Room,
    share: &mut Share<N>,
    steps: &mut Steps<L>,
) -> Result<(), Ended>
    requires job { K.job bench.now.desk.now ≡ arc_value bench.now.job.now }
    requires room { room.old ≡ arc_value bench.now.job.now }
    requires seat { seat.old.of ≡ draw.now }
    requires left { ranges (arc_value bench.now.job.now) < seat.old.left }
    ensures room { room.new ≡ room.old }
    ensures seat { seat.new.of ≡ seat.old.of }
    ensures draws { seat.old.left ≤ seat.new.left + ranges (arc_value bench.now.job.now) + 1 }
    ensures grows { Grows share.old share.new }
    ensures acked { OnOk result (¬ (K.may_repeat bench.now.desk.now) → AllAcked share.old share.new) }
    ensures back { result ≡ Err Ended.Memory → ¬ (K.may_repeat bench.now.desk.now) → ¬ (K.may_refuse bench.now.desk.now) → AllAnswered share.old share.new }
    ensures stopped { W.stops bench.now.gate.now bench.now.worker Point.BeforeClaim → (result ≡ Err Ended.Quit) × (share.new ≡ share.old) }
    ensures unacked { ((range : ℕ) → IsHeld (W.stops bench.now.gate.now bench.now.worker) range) → share.new.acks ≡ share.old.acks }
    ensures cause { IfErr result (EndCause ⊥ (W.may_quit bench.now.gate.now) (K.may_halt bench.now.desk.now ⊎ K.may_fault bench.now.desk.now)) }
{
    for _ in 0..u64::from(bench.job.ranges()) + 1 {
        pass(bench.gate, bench.worker, Point::BeforeClaim)?;
        let number = draw.draw(seat);
        if !serve_drawn(bench, number, room, share, steps)? {
            break;
        }
    }
    Ok(())
}

/// Claims ranges and serves them until it ends.
fn serve_claims<R: Wait, N: Ledgers, K: Desk<N>, W: WorkerGate, L: Ledger>(
    bench: &Bench<'_, R, K, W>,
    room: &mut Room,
    share: &mut Share<N>,
    steps: &mut Steps<L>,
) -> Ended
    requires job { K.job bench.now.desk.now ≡ arc_value bench.now.job.now }
    requires room { room.old ≡ arc_value bench.now.job.now }
    ensures grows { Grows share.old share.new }
    ensures acked { result ≡ Ended.Drained → ¬ (K.may_repeat bench.now.desk.now) → AllAcked share.old share.new }
    ensures back { result ≡ Ended.Memory → ¬ (K.may_repeat bench.now.desk.now) → ¬ (K.may_refuse bench.now.desk.now) → AllAnswered share.old share.new }
    ensures unacked { ((range : ℕ) → IsHeld (W.stops bench.now.gate.now bench.now.worker) range) → share.new.acks ≡ share.old.acks }
    ensures cause { EndCause (K.may_drain bench.now.desk.now) (W.may_quit bench.now.gate.now) (K.may_halt bench.now.desk.now ⊎ K.may_fault bench.now.desk.now) result }
{
    for _ in bench.rt.forever() {
        if let Err(ended) = serve_claimed(bench, room, share, steps) {
            return ended;
        }
    }
    unreachable!()
}

/// Works for a job until it ends. It draws ranges and asks for each until it draws a number that is none, and claims only
/// then; it evaluates each range for which it has a ticket and delivers the result.
///
/// Before each draw and each claim, at each evaluation and before each delivery it passes the gate. Where memory lacks it
/// gives its ticket back; that a cache does not keep a checkpoint is no end. It may wait, for a lock too, and owes no
/// return.
pub fn work<R: Wait, N: Ledgers, K: Desk<N>, W: WorkerGate, L: Ledger>(
    rt: &R,
    alloc: Global,
    job: &Arc<Job>,
    desk: &K,
    gate: &W,
    cache: &Mutex<PrefixCache>,
    draw: &Draw,
    seat: &mut Seat,
    worker: u32,
    share: &mut Share<N>,
    steps: &mut Steps<L>,
) -> Ended
    requires job { K.job desk.now ≡ arc_value job.now }
    requires seat { seat.old.of ≡ draw.now }
    requires left { ranges (arc_value job.now) < seat.old.left }
    ensures cause { EndCause (K.may_drain desk.now) (W.may_quit gate.now) (K.may_halt desk.now ⊎ K.may_fault desk.now) result }

    ensures grows { Grows share.old share.new }
    // As many as it was granted were acknowledged, and none was given back.
    ensures drained { result ≡ Ended.Drained → ¬ (K.may_repeat desk.now) → AllAcked share.old share.new }
    // As many as it was granted were acknowledged or given back.
    ensures memory { result ≡ Ended.Memory → ¬ (K.may_repeat desk.now) → ¬ (K.may_refuse desk.now) → AllAnswered share.old share.new }

    // Where the gate stops it at its first point, it does nothing but find memory.
    ensures stopped { W.stops gate.now worker Point.BeforeClaim → result ≢ Ended.Memory → result ≡ Ended.Quit }
    ensures idle { W.stops gate.now worker Point.BeforeClaim → share.new ≡ share.old }
    // Where the gate stops it at each range, before the evaluation or before the delivery, none is acknowledged.
    ensures unacked { ((range : ℕ) → IsHeld (W.stops gate.now worker) range) → share.new.acks ≡ share.old.acks }

    ensures seat { seat.new.of ≡ seat.old.of }
    ensures draws { seat.old.left ≤ seat.new.left + ranges (arc_value job.now) + 1 }
{
    let Ok(mut room) = Room::new(alloc, job) else {
        return Ended::Memory;
    };
    let bench = Bench {
        rt,
        alloc,
        job,
        desk,
        gate,
        cache,
        worker,
    };
    if let Err(ended) = serve_draws(&bench, draw, seat, &mut room, share, steps) {
        return ended;
    }
    serve_claims(&bench, &mut room, share, steps)
}
