//! The rule on the word and on what the seats know, and the steps that keep it.
use atomic_table::{Join, Play, Split, TableRule};
use std::collections::LinkedList;

/// What a seat knows: how many numbers a seat of its draw may draw at first, how many it may still draw, and those that
/// it drew. No value of it is made.
pub struct Rights {
    pub each: u64,
    pub left: u64,
    pub drawn: LinkedList<u64>,
}

/// How many numbers there are, and how many of them a seat may draw at first.
#[derive(Drop)]
pub struct Plan {
    pub total: u64,
    pub each: u64,
}

/// The rule: the numbers below the word were drawn, each once, and the word and the rights left add up to the total.
pub struct OneEach;

impl TableRule<(), Rights, Plan> for OneEach {
    ghost use Rattle.std.specs.Prelude.{[]};
    ghost use Rattle.qh_draw.specs.Rule.{IsFair, rights};

    ghost holds = { λ plan s. IsFair plan.total s.words s.views };

    ghost first = { λ plan. rights plan.each plan.total [] };
}

/// A seat draws the number that the word was.
pub struct Draws;

impl Play<(), Rights> for Draws {
    ghost use Rattle.std.specs.Prelude.{◌≡◌};
    ghost use Rattle.qh_draw.specs.Rule.{Drew};

    ghost then = { λ step me n after. Drew me.0 n after.0 × (me.1 ≡ after.1) };
}

/// A seat looks at the word.
pub struct Looks;

impl Play<(), Rights> for Looks {
    ghost use Rattle.std.specs.Prelude.{◌≡◌};
    ghost use Rattle.qh_draw.specs.Rule.{Looked};

    ghost then = { λ step me n after. Looked me.0 n after.0 × (me.1 ≡ after.1) };
}

/// A seat gives as many rights as a seat has at first to a new one.
pub struct Deals;

impl Split<Rights> for Deals {
    ghost use Rattle.qh_draw.specs.Rule.{dealt, one_share};

    ghost left = { dealt };

    ghost right = { one_share };
}

/// A seat takes in another's rights and numbers.
pub struct Joins;

impl Join<Rights> for Joins {
    ghost use Rattle.qh_draw.specs.Rule.{joined, spent};

    ghost both = { joined };

    ghost spent = { spent };
}
