//! A tally's side of one ledger.
ghost use Rattle.std.specs.Prelude.{◌≡◌, ◌+◌, ◌-◌, ◌<◌, ◌^◌};
ghost use Rattle.qh_lease.specs.Register.{IsBlankOf};

use crate::ledgers::{Counted, LEDGER_PARTS};
use crate::slip::Slip;
use std::marker::Model;
use std::sync::ledger;
use std::sync::ledger::{Blank, Book};

// A tally's side of one ledger: the total that was counted, what the settled slips counted, and how many
// slips are out. The ledger is what shows that no slip counts past the total.
#[derive(Drop)]
pub struct Register<L: Counted> {
    out: u64,
    total: u64,
    settled: u64,
    book: Book<L>,
    rest: ledger::Share<L>,
}

impl<L: Counted> Model for Register<L> {
    ghost use Rattle.qh_lease.specs.Register.{Standing, IsBalanced};

    ghost Value = { Standing };

    ghost view = { λ r. record { out = r.out; total = r.total; settled = r.settled } };

    ghost invariant = { λ r. IsBalanced L.parts r.out r.total r.settled r.book.total r.rest.parts r.rest.amount };
}

impl<L: Counted> Register<L> {
    // A register that has given out no slip and counted nothing.
    pub fn open(blank: Blank) -> Register<L>
        requires { IsBlankOf blank.name blank.parts L.name L.parts }
        ensures out { result.out ≡ 0 }
        ensures total { result.total ≡ 0 }
        ensures settled { result.settled ≡ 0 }
    {
        let (book, rest) = blank.open::<L>();
        Register {
            out: 0,
            total: 0,
            settled: 0,
            book,
            rest,
        }
    }

    pub fn out(&self) -> u64
        ensures { result ≡ self.now.out }
    {
        self.out
    }

    pub fn total(&self) -> u64
        ensures { result ≡ self.now.total }
    {
        self.total
    }

    // A slip that has counted nothing.
    pub fn give_slip(&mut self) -> Slip<L>
        requires { self.old.out < LEDGER_PARTS - 1 }
        ensures slip { result ≡ 0 }
        ensures register { self.new ≡ record self.old { out = self.old.out + 1 } }
    {
        let part = self.rest.split_off(1, 0);
        self.out += 1;
        Slip { count: 0, part }
    }

    // Counts one, at the slip and in total.
    pub fn count(&mut self, slip: &mut Slip<L>)
        requires { self.old.total < 2 ^ 63 }
        ensures slip { slip.new ≡ slip.old + 1 }
        ensures register { self.new ≡ record self.old { total = self.old.total + 1 } }
    {
        self.book.audit(&mut slip.part);
        self.book.add(&mut slip.part, 1);
        self.total += 1;
        slip.count += 1;
    }

    // Takes a slip back.
    pub fn take_slip(&mut self, slip: Slip<L>)
        requires { 0 < self.old.out }
        ensures out { self.new.out + 1 ≡ self.old.out }
        ensures total { self.new.total ≡ self.old.total }
        ensures settled { self.new.settled ≡ self.old.settled + slip }
    {
        let Slip { count, part } = slip;
        self.rest.merge(part);
        self.book.audit(&mut self.rest);
        self.out -= 1;
        self.settled += count;
    }

    // What the settled slips counted: all there is, where none is out.
    pub fn settled(&mut self) -> u64
        ensures settled { result ≡ self.old.settled }
        ensures same { self.new ≡ self.old }
        ensures whole { self.old.out ≡ 0 → self.old.settled ≡ self.old.total }
    {
        self.book.audit(&mut self.rest);
        self.settled
    }
}
