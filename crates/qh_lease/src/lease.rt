//! Who holds a range.
use qh_limits::MAX_GRANTS;

/// Who holds a range. An attempt is the number of the grant, 1 to `MAX_GRANTS`.
#[derive(Clone, Copy, Debug, PartialEq, Eq)]
pub enum Lease {
    /// It was never granted.
    Fresh,
    /// A caller holds it, by this grant.
    Out { attempt: u32 },
    /// The caller that held it by this grant gave it back.
    Returned { attempt: u32 },
    /// Its result is recorded.
    Acked,
}

impl Lease {
    ghost use Rattle.std.specs.Prelude.{◌≡◌, ◌+◌, IsTrue};
    ghost use Rattle.qh_lease.specs.Lease.{grants_of, may_grant};

    /// Whether the range may be granted: it is not acknowledged, and has had fewer than `MAX_GRANTS`.
    pub fn may_grant(self) -> bool
        ensures { result ≡ may_grant self }
    {
        match self {
            Lease::Fresh => true,
            Lease::Out { attempt } => attempt < MAX_GRANTS,
            Lease::Returned { attempt } => attempt < MAX_GRANTS,
            Lease::Acked => false,
        }
    }

    /// The attempt of the next grant: 1 for a fresh range, else one more than before.
    pub fn next_attempt(self) -> u32
        requires { IsTrue (may_grant self) }
        ensures { result ≡ grants_of self + 1 }
    {
        match self {
            Lease::Fresh => 1,
            Lease::Out { attempt } => attempt + 1,
            Lease::Returned { attempt } => attempt + 1,
            Lease::Acked => unreachable!(),
        }
    }
}
