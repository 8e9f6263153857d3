//! What crosses a cut.
ghost use Rattle.std.specs.Prelude.{◌≡◌, ◌≤◌, ◌<◌, ◌+◌, ◌*◌, ◌&&◌, All, true, false, length, nat_le, nat_lt, if◌then◌else◌};
ghost use Rattle.qh_limits.specs.Limits.{max_gates};
ghost use Rattle.qh_gates.specs.declared.gate.Gate.{Gate as GateValue};
ghost use Rattle.qh_gates.specs.Tables.{qubits_of};
ghost use Rattle.qh_gates.specs.Terms.{terms_of};
ghost use Rattle.qh_plan.specs.Paths.{crosses, radices};
ghost use Rattle.qh_plan.specs.Plans.{term_bits};
ghost use Rattle.qh_planner.specs.Counts.{IsCounted, IsSmall, below, one_more};

use qh_gates::{Gate, Kind, terms};

/// How many gates cross a cut. Its paths, prefix values and root values are 2 to the power of the other counts.
#[derive(Clone, Copy, PartialEq, Eq, Debug)]
pub(crate) struct Crossing {
    pub gates: u32,
    pub paths: u32,
    pub prefixes: u32,
    pub roots: u32,
}

/// The gates that cross the cut at `size`, of which the first `p` are prefix and the next `r` root.
pub(crate) fn crossing_at(gates: &[Gate], size: u32, p: u32, r: u32) -> Crossing
    requires single { All (λ (g : GateValue). qubits_of g.kind ≡ 1 → g.q1 ≡ g.q0) gates.now }
    requires few { length gates.now ≤ max_gates }
    ensures counted { IsCounted (radices (below size) gates.now) p r result }
    ensures small { IsSmall result }
    ensures few { result.gates ≤ length gates.now }
{
    let mut crossing = Crossing {
        gates: 0,
        paths: 0,
        prefixes: 0,
        roots: 0,
    };
    for gate in gates {
        crossing = with_gate(crossing, gate, size, p, r);
    }
    crossing
}

/// The counts with this gate, which counts where it crosses the cut.
fn with_gate(crossing: Crossing, gate: &Gate, size: u32, p: u32, r: u32) -> Crossing
    requires single { qubits_of gate.now.kind ≡ 1 → gate.now.q1 ≡ gate.now.q0 }
    requires few { crossing.gates < max_gates }
    requires small { IsSmall crossing }
    ensures across { crosses (below size) gate.now ≡ true → result ≡ one_more p r (term_bits (length (terms_of gate.now.kind))) crossing }
    ensures inside { crosses (below size) gate.now ≡ false → result ≡ crossing }
    ensures few { result.gates ≤ crossing.gates + 1 }
    ensures small { IsSmall result }
{
    if !crosses(size, gate) {
        return crossing;
    }
    one_more(crossing, p, r, term_bits(gate.kind))
}

/// Whether one of the gate's qubits is below `size` and the other is not.
fn crosses(size: u32, gate: &Gate) -> bool
    ensures { result ≡ crosses (below size) gate.now }
{
    (gate.q0 < size) != (gate.q1 < size)
}

/// The power of 2 that counts the terms of a gate.
fn term_bits(kind: Kind) -> u32
    requires { qubits_of kind ≡ 2 }
    ensures value { result ≡ term_bits (length (terms_of kind)) }
    ensures small { result ≤ 2 }
{
    match terms(kind, false).len() {
        4 => 2,
        2 => 1,
        _ => 0,
    }
}

/// The counts with one gate more, of 2^bits terms.
#[tactic(auto, using(crate::proofs::CountLemmas::small_more))]
fn one_more(crossing: Crossing, p: u32, r: u32, bits: u32) -> Crossing
    requires few { crossing.gates < max_gates }
    requires small { IsSmall crossing }
    requires bits { bits ≤ 2 }
    ensures value { result ≡ one_more p r bits crossing }
    ensures small { IsSmall result }
{
    Crossing {
        gates: crossing.gates + 1,
        paths: crossing.paths + bits,
        prefixes: add_where(crossing.gates < p, crossing.prefixes, bits),
        roots: add_where(is_root(crossing.gates, p, r), crossing.roots, bits),
    }
}

/// The count, and `bits` more where the gate counts.
fn add_where(counts: bool, count: u32, bits: u32) -> u32
    requires small { count ≤ 2 * max_gates }
    requires bits { bits ≤ 2 }
    ensures { result ≡ (if counts then count + bits else count) }
{
    if counts { count + bits } else { count }
}

/// Whether the crossing gate of this number, from 0, is a root gate.
fn is_root(number: u32, p: u32, r: u32) -> bool
    ensures { result ≡ (nat_le p number && nat_lt number (p + r)) }
{
    p <= number && u64::from(number) < u64::from(p) + u64::from(r)
}
