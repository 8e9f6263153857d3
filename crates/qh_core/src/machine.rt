//! The machine: its state and its one step.
ghost use Rattle.std.specs.Prelude.{◌≡◌, ◌<◌, ◌≤◌, length, IfOk};
ghost use Rattle.qh_core.specs.Machine.{lease_of, slot_of, runs, runs_for, start, answer_to, next};

use crate::event::Event;
use crate::kept::Kept;
use crate::leases::{find, forget};
use crate::moved::Moved;
use crate::slot_state::SlotState;
use crate::slots::{are_pending, keep, sync_all};
use qh_lease::Lease;
use qh_limits::MAX_RANGES;
use std::alloc::{AllocError, Global};
use std::marker::Model;

/// The machine that each run follows. Contracts see its state.
#[derive(Debug, Drop)]
pub struct Machine {
    leases: Vec<Lease>,
    slots: Vec<SlotState>,
    up: bool,
    halted: bool,
}

impl Model for Machine {
    ghost use Rattle.std.specs.Prelude.{◌≡◌, length};
    ghost use Rattle.qh_core.specs.Machine.{State};

    ghost Value = { State };

    ghost view = { λ m. record { leases = m.leases.items; slots = m.slots.items; up = m.up; halted = m.halted } };

    ghost invariant = { λ m. length m.slots.items ≡ length m.leases.items };
}

impl Machine {
    /// A machine that is up, with fresh leases and closed slots. It fails for want of memory alone.
    pub fn new(alloc: Global, ranges: u32) -> Result<Machine, AllocError>
        requires some { 0 < ranges }
        requires few { ranges ≤ MAX_RANGES }
        ensures { IfOk result (λ machine. machine ≡ start ranges) }
    {
        Ok(Machine {
            leases: vec![in alloc; Lease::Fresh; ranges as usize]?,
            slots: vec![in alloc; SlotState::Closed; ranges as usize]?,
            up: true,
            halted: false,
        })
    }

    /// The lease of a range.
    pub fn lease_of(&self, range: u32) -> Lease
        requires { range < length self.now.leases }
        ensures { result ≡ lease_of self.now range }
    {
        self.leases[range as usize]
    }

    /// How far the slot of a range is written.
    pub fn slot_of(&self, range: u32) -> SlotState
        requires { range < length self.now.leases }
        ensures { result ≡ slot_of self.now range }
    {
        self.slots[range as usize]
    }

    /// Whether a run has the journal open.
    pub fn is_up(&self) -> bool
        ensures { result ≡ self.now.up }
    {
        self.up
    }

    /// Whether the run has met a disk fault.
    pub fn is_halted(&self) -> bool
        ensures { result ≡ self.now.halted }
    {
        self.halted
    }

    fn runs(&self) -> bool
        ensures { result ≡ runs self.now }
    {
        self.up && !self.halted
    }

    fn runs_for(&self, range: u32) -> bool
        ensures { result ≡ runs_for self.now range }
    {
        self.runs() && (range as usize) < self.leases.len()
    }

    fn grant(&mut self, range: u32) -> Moved
        ensures answer { result ≡ answer_to self.old (Event.Grant range) }
        ensures state { self.new ≡ next self.old (Event.Grant range) }
        ensures ranges { length self.new.leases ≡ length self.old.leases }
    {
        if !self.runs_for(range) {
            return Moved::Illegal;
        }
        let lease = self.lease_of(range);
        if !lease.may_grant() {
            return Moved::Illegal;
        }
        let attempt = lease.next_attempt();
        self.leases[range as usize] = Lease::Out { attempt };
        Moved::Done
    }

    fn give_back(&mut self, range: u32, attempt: u32) -> Moved
        ensures answer { result ≡ answer_to self.old (Event.GiveBack range attempt) }
        ensures state { self.new ≡ next self.old (Event.GiveBack range attempt) }
        ensures ranges { length self.new.leases ≡ length self.old.leases }
    {
        if !self.runs_for(range) {
            return Moved::Illegal;
        }
        if self.lease_of(range) != (Lease::Out { attempt }) {
            return Moved::Illegal;
        }
        self.leases[range as usize] = Lease::Returned { attempt };
        Moved::Done
    }

    fn write_body(&mut self, range: u32) -> Moved
        ensures answer { result ≡ answer_to self.old (Event.Body range) }
        ensures state { self.new ≡ next self.old (Event.Body range) }
        ensures ranges { length self.new.leases ≡ length self.old.leases }
    {
        if !self.runs_for(range) {
            return Moved::Illegal;
        }
        if self.lease_of(range) == Lease::Acked {
            return Moved::Repeat;
        }
        if self.slot_of(range) != SlotState::Closed {
            return Moved::Illegal;
        }
        self.slots[range as usize] = SlotState::BodyWritten;
        Moved::Done
    }

    fn open_gate(&mut self, range: u32) -> Moved
        ensures answer { result ≡ answer_to self.old (Event.OpenGate range) }
        ensures state { self.new ≡ next self.old (Event.OpenGate range) }
        ensures ranges { length self.new.leases ≡ length self.old.leases }
    {
        if !self.runs_for(range) {
            return Moved::Illegal;
        }
        if self.slot_of(range) != SlotState::BodySafe {
            return Moved::Illegal;
        }
        self.slots[range as usize] = SlotState::GateWritten;
        Moved::Done
    }

    fn sync(&mut self) -> Moved
        ensures answer { result ≡ answer_to self.old Event.Sync }
        ensures state { self.new ≡ next self.old Event.Sync }
        ensures ranges { length self.new.leases ≡ length self.old.leases }
    {
        if !self.runs() {
            return Moved::Illegal;
        }
        sync_all(&mut self.slots);
        Moved::Done
    }

    fn acknowledge(&mut self, range: u32) -> Moved
        ensures answer { result ≡ answer_to self.old (Event.Ack range) }
        ensures state { self.new ≡ next self.old (Event.Ack range) }
        ensures ranges { length self.new.leases ≡ length self.old.leases }
    {
        if !self.runs_for(range) {
            return Moved::Illegal;
        }
        if self.slot_of(range) != SlotState::Stored {
            return Moved::Illegal;
        }
        if self.lease_of(range) == Lease::Acked {
            return Moved::Illegal;
        }
        self.leases[range as usize] = Lease::Acked;
        Moved::Done
    }

    fn halt(&mut self) -> Moved
        ensures answer { result ≡ answer_to self.old Event.Halt }
        ensures state { self.new ≡ next self.old Event.Halt }
        ensures ranges { length self.new.leases ≡ length self.old.leases }
    {
        if !self.runs() {
            return Moved::Illegal;
        }
        self.halted = true;
        Moved::Done
    }

    fn crash(&mut self, kept: &Kept) -> Moved
        ensures answer { result ≡ answer_to self.old (Event.Crash kept.now) }
        ensures state { self.new ≡ next self.old (Event.Crash kept.now) }
        ensures ranges { length self.new.leases ≡ length self.old.leases }
    {
        if !self.up {
            return Moved::Illegal;
        }
        if !are_pending(&self.slots, kept.ranges()) {
            return Moved::Illegal;
        }
        keep(&mut self.slots, kept.ranges());
        forget(&mut self.leases);
        self.up = false;
        self.halted = false;
        Moved::Done
    }

    fn reopen(&mut self, kept: &Kept) -> Moved
        ensures answer { result ≡ answer_to self.old (Event.Reopen kept.now) }
        ensures state { self.new ≡ next self.old (Event.Reopen kept.now) }
        ensures ranges { length self.new.leases ≡ length self.old.leases }
    {
        if !are_pending(&self.slots, kept.ranges()) {
            return Moved::Illegal;
        }
        keep(&mut self.slots, kept.ranges());
        find(&mut self.leases, &self.slots);
        self.up = true;
        self.halted = false;
        Moved::Done
    }

    /// Takes a step, where the table of events says that the event is legal in this state. An illegal event
    /// changes nothing. A step takes no memory, and at most a few times as long as there are ranges.
    pub fn step(&mut self, event: &Event) -> Moved
        ensures answer { result ≡ answer_to self.old event.now }
        ensures state { self.new ≡ next self.old event.now }
        ensures ranges { length self.new.leases ≡ length self.old.leases }
        ensures illegal { result ≡ Moved.Illegal → self.new ≡ self.old }
    {
        match event {
            Event::Grant { range } => self.grant(*range),
            Event::GiveBack { range, attempt } => self.give_back(*range, *attempt),
            Event::Body { range } => self.write_body(*range),
            Event::OpenGate { range } => self.open_gate(*range),
            Event::Sync => self.sync(),
            Event::Ack { range } => self.acknowledge(*range),
            Event::Stop => Moved::Done,
            Event::Halt => self.halt(),
            Event::Crash { kept } => self.crash(kept),
            Event::Reopen { kept } => self.reopen(kept),
        }
    }
}
