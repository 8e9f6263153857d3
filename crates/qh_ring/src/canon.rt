//! A number over a power of √2, in least form.
ghost use Rattle.std.specs.Prelude.{◌≡◌, ◌≢◌, ◌≤◌, ◌<◌, IfSome, IfNone};
ghost use Rattle.qh_limits.specs.Limits.{coefficient_bits};
ghost use Rattle.qh_ring.specs.declared.number.Omega.{Omega};
ghost use Rattle.qh_ring.specs.Numbers.{IsWithin, product, root, IsCanon};

use crate::number::Omega;

/// The number z/√2^k.
#[derive(Clone, Copy, PartialEq, Eq, Debug)]
pub struct Canon {
    pub z: Omega,
    pub k: u32,
}

/// z/√2, where that is a number of this ring: exactly where a - c and b - d are even.
fn half_root(z: &Omega) -> Option<Omega>
    requires { IsWithin coefficient_bits z.now }
    ensures some { IfSome result (λ q. (product root q ≡ z.now) × IsWithin coefficient_bits q) }
    ensures none { IfNone result ((q : Omega) → product root q ≢ z.now) }
{
    let Omega { a, b, c, d } = *z;
    if (a - c) % 2 != 0 || (b - d) % 2 != 0 {
        return None;
    }
    Some(Omega {
        a: (b - d) / 2,
        b: (a + c) / 2,
        c: (b + d) / 2,
        d: (c - a) / 2,
    })
}

/// The canonical form of z/√2^k, of a number within 126 bits: the equal form of least k.
/// It costs one exact division by √2 for each factor that it takes out.
pub fn reduce(z: &Omega, k: u32) -> Canon
    requires { IsWithin coefficient_bits z.now }
    ensures { IsCanon z.now k result }
{
    let mut rest = *z;
    let mut power = k;
    while power > 0 {
        let Some(quotient) = half_root(&rest) else {
            break;
        };
        rest = quotient;
        power -= 1;
    }
    Canon { z: rest, k: power }
}
