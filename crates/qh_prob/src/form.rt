//! A probability over a power of 2, in least form.
ghost use Rattle.std.specs.Prelude.{◌≡◌, ◌≢◌, ◌≤◌, IfSome, IfNone};
ghost use Rattle.qh_prob.specs.declared.prob.Prob.{Prob};
ghost use Rattle.qh_limits.specs.Limits.{max_weight};
ghost use Rattle.qh_prob.specs.Probability.{IsBounded, plus};
ghost use Rattle.qh_prob.specs.Forms.{IsLeast};

use crate::prob::Prob;

/// Half of P + Q√2, where both are even.
fn half(prob: &Prob) -> Option<Prob>
    requires { IsBounded prob.now }
    ensures some { IfSome result (λ h. (plus h h ≡ prob.now) × IsBounded h) }
    ensures none { IfNone result ((h : Prob) → plus h h ≢ prob.now) }
{
    if prob.p % 2 != 0 || prob.q % 2 != 0 {
        return None;
    }
    Some(Prob {
        p: prob.p / 2,
        q: prob.q / 2,
    })
}

/// The equal form of (P + Q√2)/2^k of least k; zero becomes 0, 0 and 0.
///
/// P is at most 2^120, the magnitude of Q at most P, and k at most 120. It takes no memory.
pub fn least(prob: &Prob, k: u32) -> (Prob, u32)
    requires bounded { IsBounded prob.now }
    requires shallow { k ≤ max_weight }
    ensures form { IsLeast prob.now k result.0 result.1 }
    ensures own { IsLeast result.0 result.1 result.0 result.1 }
    ensures bounded { IsBounded result.0 }
{
    let mut rest = *prob;
    let mut power = k;
    while power > 0 {
        let Some(halved) = half(&rest) else {
            break;
        };
        rest = halved;
        power -= 1;
    }
    (rest, power)
}
