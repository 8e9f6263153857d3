//! What the definition alone says of the numbers' growth.
ghost use Rattle.qh_uncut.specs.Bounds.{AtMostDoubles};

/// After any n gates of the table, of whatever kinds, each coefficient's magnitude is at most 2^n.
pub fn each_gate_at_most_doubles()
    ensures { AtMostDoubles }
{}
