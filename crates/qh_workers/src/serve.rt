//! What a worker does with a ticket in hand.
ghost use Rattle.std.specs.Prelude.{◌≡◌, ◌<◌, ◌≤◌, ◌⊎◌, IfOk, IfErr, OnOk};
ghost use Rattle.std.specs.Arc.{arc_value};
ghost use Rattle.qh_plan.specs.Jobs.{ranges};
ghost use Rattle.qh_workers.specs.Shares.{Grows, one_ack, one_back};
ghost use Rattle.qh_workers.specs.Ends.{EndCause, IsHeld};

use crate::bench::{Bench, pass};
use crate::desk::Desk;
use crate::ended::Ended;
use crate::gate::{Point, WorkerGate};
use crate::points::{prefix_at, shared_point};
use qh_half::Steps;
use qh_lease::{Ledgers, Share};
use qh_range::{Delivery, RangeResult, Room, Ticket};
use std::alloc::AllocError;
use std::sync::Wait;
use std::sync::ledger::Ledger;

/// Evaluates the range of a ticket, with no lock held.
fn evaluate_ticket<R: Wait, K, W, L: Ledger>(
    bench: &Bench<'_, R, K, W>,
    room: &mut Room,
    ticket: &Ticket,
    steps: &mut Steps<L>,
) -> Result<RangeResult, AllocError>
    requires room { room.old ≡ arc_value bench.now.job.now }
    requires below { ticket.now.range < ranges (arc_value bench.now.job.now) }
    ensures job { IfOk result (λ r. r.job ≡ arc_value bench.now.job.now) }
    ensures room { room.new ≡ room.old }
{
    let prefix = prefix_at(bench.job, ticket.range());
    let point = shared_point(bench.rt, bench.alloc, bench.cache, bench.job, prefix, steps)?;
    room.evaluate(bench.alloc, ticket, &point, steps)
}

/// Delivers a result of the desk's job.
fn bring<N: Ledgers, K: Desk<N>>(
    desk: &K,
    outcome: RangeResult,
    share: &mut Share<N>,
) -> Result<(), Ended>
    requires { outcome.job ≡ K.job desk.now }
    ensures grows { Grows share.old share.new }
    ensures acked { OnOk result (¬ (K.may_repeat desk.now) → share.new ≡ one_ack share.old) }
    ensures halted { IfErr result (λ e. (e ≡ Ended.Halted) × (K.may_halt desk.now ⊎ K.may_fault desk.now)) }
{
    match desk.deliver(outcome, share) {
        Delivery::Acked | Delivery::Repeat => Ok(()),
        Delivery::Halted { .. } | Delivery::DiskFault => Err(Ended::Halted),
        Delivery::Stranger => unreachable!(),
    }
}

/// Evaluates the range of a ticket in hand and delivers its result. Where memory lacks it gives the ticket back.
pub fn serve<R: Wait, N: Ledgers, K: Desk<N>, W: WorkerGate, L: Ledger>(
    bench: &Bench<'_, R, K, W>,
    room: &mut Room,
    ticket: Ticket,
    share: &mut Share<N>,
    steps: &mut Steps<L>,
) -> Result<(), Ended>
    requires job { K.job bench.now.desk.now ≡ arc_value bench.now.job.now }
    requires room { room.old ≡ arc_value bench.now.job.now }
    requires below { ticket.range < ranges (arc_value bench.now.job.now) }
    ensures room { room.new ≡ room.old }
    ensures grows { Grows share.old share.new }
    ensures acked { OnOk result (¬ (K.may_repeat bench.now.desk.now) → share.new ≡ one_ack share.old) }
    ensures back { result ≡ Err Ended.Memory → ¬ (K.may_refuse bench.now.desk.now) → share.new ≡ one_back share.old }
    ensures stopped { W.stops bench.now.gate.now bench.now.worker (Point.Computing ticket.range) → (result ≡ Err Ended.Quit) × (share.new ≡ share.old) }
    ensures unacked { IsHeld (W.stops bench.now.gate.now bench.now.worker) ticket.range → share.new.acks ≡ share.old.acks }
    ensures cause { IfErr result (EndCause ⊥ (W.may_quit bench.now.gate.now) (K.may_halt bench.now.desk.now ⊎ K.may_fault bench.now.desk.now)) }
{
    let range = ticket.range();
    pass(bench.gate, bench.worker, Point::Computing { range })?;
    let Ok(outcome) = evaluate_ticket(bench, room, &ticket, steps) else {
        bench.desk.give_back(ticket, share);
        return Err(Ended::Memory);
    };
    pass(bench.gate, bench.worker, Point::BeforeDeliver { range })?;
    bring(bench.desk, outcome, share)
}
