//! The three ledgers that a tally counts with.
use std::marker::{Brand, PhantomData};
use std::sync::ledger::Ledger;

/// How many parts a ledger of a tally is cut into: one for each share that is out, and one that stays.
pub const LEDGER_PARTS: u64 = 1_048_576;

/// A ledger that a tally may count with, cut into [`LEDGER_PARTS`] parts.
pub trait Counted: Ledger {}

impl Counted for Brand {}

/// The three ledgers of a tally: of grants, of give-backs and of acknowledgements.
pub trait Ledgers {
    type Grants: Counted;

    type Backs: Counted;

    type Acks: Counted;
}

/// Three ledgers as one type.
pub struct Three<G, B, A> {
    pub grants: PhantomData<G>,
    pub backs: PhantomData<B>,
    pub acks: PhantomData<A>,
}

impl<G: Counted, B: Counted, A: Counted> Ledgers for Three<G, B, A> {
    type Grants = G;

    type Backs = B;

    type Acks = A;
}
