//! What no contract says: that calls succeed where there is memory, and what a clock does.
ghost use Rattle.std.specs.Prelude.{◌≡◌};
ghost use Rattle.qh_lease.specs.Register.{IsBlankOf};
ghost use Rattle.qh_lease.specs.Tally.{nothing};

use qh_lease::{
    ClockTimer, Counted, LEDGER_PARTS, Leases, Ledgers, ScriptTimer, Tally, Three, Timer, Totals,
};
use std::io;
use std::marker::Brand;
use std::rt::Clock;
use std::sync::atomic::{AtomicU64, Ordering};
use std::sync::ledger::Blank;
use std::test::Fail;
use std::time::Duration;

// Grants the next fresh range.
fn grant_fresh(leases: &mut Leases) -> Option<(u32, u32)> {
    let range = leases.next_fresh()?;
    let attempt = leases.grant(range);
    Some((range, attempt))
}

// Grants again the lowest range that is out, from one on.
fn grant_out(leases: &mut Leases, from: u32) -> Option<(u32, u32)> {
    let range = leases.next_out(from)?;
    let attempt = leases.grant(range);
    Some((range, attempt))
}

#[derive(Clone, Copy, Debug)]
enum Call {
    GrantFresh,
    GrantOut(u32),
    NextReturned,
    NextOut(u32),
    // Gives back the lowest range that is out, by this attempt.
    GiveBack(u32),
    AcknowledgeFresh,
}

// Makes one call, and answers the range and the attempt, 0 where there is none.
fn make(leases: &mut Leases, call: Call) -> Option<(u32, u32)> {
    match call {
        Call::GrantFresh => grant_fresh(leases),
        Call::GrantOut(from) => grant_out(leases, from),
        Call::NextReturned => Some((leases.next_returned()?, 0)),
        Call::NextOut(from) => Some((leases.next_out(from)?, 0)),
        Call::GiveBack(attempt) => {
            let range = leases.next_out(0)?;
            if leases.give_back(range, attempt) {
                Some((range, attempt))
            } else {
                None
            }
        }
        Call::AcknowledgeFresh => {
            let range = leases.next_fresh()?;
            leases.acknowledge(range);
            Some((range, 0))
        }
    }
}

#[test]
fn a_range_goes_through_its_leases(rt: HostRuntime) -> Result<(), Fail> {
    let mut leases = Leases::new(rt.alloc(), 3)?;
    let rows = [
        (Call::GrantFresh, Some((0, 1))),
        (Call::GrantFresh, Some((1, 1))),
        (Call::GrantOut(1), Some((1, 2))),
        (Call::NextReturned, None),
        (Call::GiveBack(2), None),
        (Call::GiveBack(1), Some((0, 1))),
        (Call::NextReturned, Some((0, 0))),
        (Call::NextOut(0), Some((1, 0))),
        (Call::AcknowledgeFresh, Some((2, 0))),
        (Call::GrantFresh, None),
        (Call::GrantOut(2), None),
    ];
    for (call, want) in rows {
        assert_eq!(rt; make(&mut leases, call), want, "{call:?}");
    }
    Ok(())
}

#[test]
fn a_full_table_is_granted_sixteen_times(rt: HostRuntime) -> Result<(), Fail> {
    let mut leases = Leases::new(rt.alloc(), 16_384)?;
    let mut grants = 0u64;
    for _ in 0..16_384 {
        if grant_fresh(&mut leases).is_some() {
            grants = grants.saturating_add(1);
        }
    }
    assert_eq!(rt; leases.next_fresh(), None);
    for from in [0, 127, 128, 9_000, 16_383] {
        assert_eq!(rt; leases.next_out(from), Some(from));
    }
    assert_eq!(rt; leases.next_out(16_384), None);
    for _ in 0..20 {
        if grant_out(&mut leases, 16_383).is_some() {
            grants = grants.saturating_add(1);
        }
    }
    assert_eq!(rt; leases.next_out(16_383), None);
    assert_eq!(rt; grants, 16_384 + 15);
    Ok(())
}

#[test]
fn a_script_is_followed_to_its_end(rt: HostRuntime) -> Result<(), Fail> {
    let mut timer = ScriptTimer::new(rt.alloc(), &[true, false, true])?;
    assert_eq!(rt; timer.last_grant(), None);
    timer.granted(5, 2);
    for want in [true, false, true, false, false] {
        assert_eq!(rt; timer.due(0, 1), want);
    }
    assert_eq!(rt; timer.last_grant(), Some((5, 2)));
    Ok(())
}

// A clock that goes on by ten seconds at each reading, or cannot be read.
#[derive(Drop)]
struct TenSecondClock {
    readings: AtomicU64,
    broken: bool,
}

impl Clock for TenSecondClock {
    fn monotonic(&self) -> io::Result<Duration> {
        if self.broken {
            return Err(io::Error::from(io::ErrorKind::Other));
        }
        let readings = self.readings.fetch_add(1, Ordering::SeqCst);
        Ok(Duration::from_secs(readings.saturating_mul(10)))
    }

    fn since_1970(&self) -> io::Result<Duration> {
        self.monotonic()
    }
}

#[test]
fn a_lease_is_due_after_its_seconds(rt: HostRuntime) {
    let rows = [
        (None, false, false),
        (Some(0), false, true),
        (Some(10), false, true),
        (Some(11), false, false),
        (Some(10), true, false),
    ];
    for (seconds, broken, want) in rows {
        let clock = TenSecondClock {
            readings: AtomicU64::new(0),
            broken,
        };
        let mut timer = ClockTimer::new(&clock, rt.alloc(), seconds);
        timer.granted(7, 1);
        assert_eq!(rt; timer.due(7, 1), want, "{seconds:?} {broken}");
        assert_eq!(rt; timer.due(8, 1), seconds == Some(0));
    }
    let mut timer = ClockTimer::new(&rt, rt.alloc(), Some(0));
    timer.granted(0, 1);
    assert!(rt; timer.due(0, 1));
}

// Two callers: the first is granted twice and gives one back, the second is acknowledged once.
fn two_callers<N: Ledgers>(mut tally: Tally<N>) -> [Totals; 5]
    requires out { tally.out ≡ 0 }
    requires totals { tally.totals ≡ nothing }
    requires settled { tally.settled ≡ nothing }
{
    let mut first = tally.new_share();
    let mut second = tally.new_share();
    tally.grant(&mut first);
    tally.grant(&mut first);
    tally.back(&mut first);
    tally.ack(&mut second);
    let counted = [first.counts(), second.counts()];
    tally.settle(first);
    let before = tally.settled();
    tally.settle(second);
    let [of_first, of_second] = counted;
    [of_first, of_second, before, tally.settled(), tally.totals()]
}

fn two_callers_over<G: Counted, B: Counted, A: Counted>(
    grants: Blank,
    backs: Blank,
    acks: Blank,
) -> [Totals; 5]
    requires grants { IsBlankOf grants.name grants.parts G.name G.parts }
    requires backs { IsBlankOf backs.name backs.parts B.name B.parts }
    requires acks { IsBlankOf acks.name acks.parts A.name A.parts }
{
    two_callers(Tally::<Three<G, B, A>>::new(grants, backs, acks))
}

fn two_callers_counted() -> [Totals; 5] {
    two_callers_over::<Brand, Brand, Brand>(
        Blank::new(LEDGER_PARTS),
        Blank::new(LEDGER_PARTS),
        Blank::new(LEDGER_PARTS),
    )
}

fn totals(grants: u64, backs: u64, acks: u64) -> Totals {
    Totals {
        grants,
        backs,
        acks,
    }
}

#[test]
fn shares_add_up(rt: HostRuntime) {
    let want = [
        totals(2, 1, 0),
        totals(0, 0, 1),
        totals(2, 1, 0),
        totals(2, 1, 1),
        totals(2, 1, 1),
    ];
    assert_eq!(rt; two_callers_counted(), want);
}
