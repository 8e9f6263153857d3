//! A fake desk, which answers by a script and notes its calls.
ghost use Rattle.std.specs.Prelude.{◌≡◌, ◌<◌, ◌≤◌, IfOk, IfSome, is_some, if◌then◌else◌};
ghost use Rattle.std.specs.Arc.{arc_value};
ghost use Rattle.qh_lease.specs.Tally.{nothing};
ghost use Rattle.qh_workers.specs.Shares.{one_grant, after_back};
ghost use Rattle.qh_workers.specs.Claims.{claim_ticket, after_claim};
ghost use Rattle.qh_workers.specs.Admissions.{admit_ticket, after_admit, AdmitCause};
ghost use Rattle.qh_workers.specs.Deliveries.{after_delivery, DeliveryCause};

use qh_lease::{Ledgers, Share, Tally};
use qh_plan::Job;
use qh_range::{Admit, Claim, Delivery, RangeResult, Ticket};
use qh_workers::Desk;
use std::alloc::{AllocError, Global};
use std::sync::{Arc, Mutex, Wait};

/// A call that the desk got.
#[derive(Clone, Copy, PartialEq, Eq, Debug)]
pub enum Call {
    Admit(u32),
    Claim,
    Deliver(u32),
    GiveBack(u32),
}

/// What it answers to a claim. After its script it answers Halted.
#[derive(Clone, Copy, PartialEq, Eq, Debug)]
pub enum Answer {
    Grant(u32),
    Drained,
}

/// What lies under the desk's lock. It counts at most 1,000 calls, and is halted then.
#[derive(Drop)]
pub struct Till<N: Ledgers> {
    pub tally: Tally<N>,
    admits: bool,
    script: Vec<Answer>,
    calls: Vec<Call>,
    counted: u64,
    ghost grants: { tally.totals.grants ≤ counted },
    ghost backs: { tally.totals.backs ≤ counted },
    ghost acks: { tally.totals.acks ≤ counted },
}

impl<N: Ledgers> Till<N> {
    /// A till that admits what is drawn or finds it taken, and answers claims in turn.
    pub fn new(
        alloc: Global,
        tally: Tally<N>,
        admits: bool,
        answers: &[Answer],
    ) -> Result<Till<N>, AllocError>
        requires out { tally.out ≡ 0 }
        requires totals { tally.totals ≡ nothing }
        ensures { IfOk result (λ t. t.tally.out ≡ 0) }
    {
        let mut script = Vec::from_slice(alloc, answers)?;
        script.reverse();
        Ok(Till {
            tally,
            admits,
            script,
            calls: Vec::new(alloc),
            counted: 0,
        })
    }

    pub fn new_share(&mut self) -> Share<N>
        requires { self.old.tally.out ≡ 0 }
    {
        self.tally.new_share()
    }

    /// A ticket for the range, where there is such a range and the till still counts.
    fn grant(&mut self, range: u32, ranges: u32, share: &mut Share<N>) -> Option<Ticket>
        ensures ticket { IfSome result (λ t. t.range < ranges) }
        ensures share { share.new ≡ (if is_some result then one_grant share.old else share.old) }
    {
        if range >= ranges || self.counted >= 1000 {
            return None;
        }
        self.counted += 1;
        self.tally.grant(share);
        Some(Ticket::new(range, 1))
    }

    fn claim(&mut self, ranges: u32, share: &mut Share<N>) -> Claim
        ensures ticket { IfSome (claim_ticket result) (λ t. t.range < ranges) }
        ensures share { share.new ≡ after_claim result share.old }
    {
        let _ = self.calls.push(Call::Claim);
        match self.script.pop() {
            Some(Answer::Drained) => Claim::Drained,
            Some(Answer::Grant(range)) => match self.grant(range, ranges, share) {
                Some(ticket) => Claim::Granted(ticket),
                None => Claim::Halted { faults: 0 },
            },
            None => Claim::Halted { faults: 0 },
        }
    }

    fn admit(&mut self, range: u32, ranges: u32, share: &mut Share<N>) -> Admit
        ensures ticket { IfSome (admit_ticket result) (λ t. t.range < ranges) }
        ensures share { share.new ≡ after_admit result share.old }
    {
        let _ = self.calls.push(Call::Admit(range));
        if !self.admits {
            return Admit::Taken;
        }
        match self.grant(range, ranges, share) {
            Some(ticket) => Admit::Granted(ticket),
            None => Admit::Halted { faults: 0 },
        }
    }

    fn deliver(&mut self, range: u32, share: &mut Share<N>) -> Delivery
        ensures share { share.new ≡ after_delivery result share.old }
        ensures cause { DeliveryCause ⊥ ⊥ (Unit {0}) ⊥ result }
    {
        let _ = self.calls.push(Call::Deliver(range));
        if self.counted >= 1000 {
            return Delivery::Halted { faults: 0 };
        }
        self.counted += 1;
        self.tally.ack(share);
        Delivery::Acked
    }

    fn give_back(&mut self, range: u32, share: &mut Share<N>) -> bool
        ensures { share.new ≡ after_back result share.old }
    {
        let _ = self.calls.push(Call::GiveBack(range));
        if self.counted >= 1000 {
            return false;
        }
        self.counted += 1;
        self.tally.back(share);
        true
    }

    fn into_calls(self) -> Vec<Call> {
        self.calls
    }
}

/// A desk that never repeats and has no disk.
#[derive(Drop)]
pub struct FakeDesk<'a, R, N: Ledgers> {
    rt: &'a R,
    pub job: Arc<Job>,
    till: Mutex<Till<N>>,
}

impl<'a, R: Wait, N: Ledgers> FakeDesk<'a, R, N> {
    pub fn new(rt: &'a R, job: Arc<Job>, till: Till<N>) -> FakeDesk<'a, R, N>
        ensures { arc_value result.job ≡ arc_value job }
    {
        FakeDesk {
            rt,
            job,
            till: Mutex::new(till),
        }
    }

    pub fn into_calls(self) -> Vec<Call> {
        self.till.into_inner().into_calls()
    }
}

impl<'a, R: Wait, N: Ledgers> Desk<N> for FakeDesk<'a, R, N> {
    ghost use Rattle.std.specs.Arc.{arc_value};

    ghost job = { λ d. arc_value d.job };

    ghost may_drain = { λ _. Unit {0} };

    ghost may_halt = { λ _. Unit {0} };

    ghost may_repeat = { λ _. ⊥ };

    ghost may_refuse = { λ _. Unit {0} };

    ghost may_fault = { λ _. ⊥ };

    fn claim(&self, share: &mut Share<N>) -> Claim {
        self.till.lock(self.rt).claim(self.job.ranges(), share)
    }

    fn admit(&self, range: u32, share: &mut Share<N>) -> Admit {
        self.till
            .lock(self.rt)
            .admit(range, self.job.ranges(), share)
    }

    fn deliver(&self, outcome: RangeResult, share: &mut Share<N>) -> Delivery {
        self.till.lock(self.rt).deliver(outcome.range(), share)
    }

    fn give_back(&self, ticket: Ticket, share: &mut Share<N>) -> bool {
        self.till.lock(self.rt).give_back(ticket.range(), share)
    }
}
