//! The indices that differ at a gate's qubits alone, and what becomes of their numbers.
ghost use Rattle.std.specs.Prelude.{◌≡◌, ◌+◌, ◌*◌, ◌^◌, ◌<◌, ◌≤◌, length, All};
ghost use Rattle.qh_limits.specs.Limits.{coefficient_bits, max_part_qubits};
ghost use Rattle.qh_ring.specs.Numbers.{IsWithin};
ghost use Rattle.qh_kernel.specs.Places.{with_gap};
ghost use Rattle.qh_kernel.specs.Sources.{HasPlaces, moved};

use crate::sources::{Source, new_number, put};
use qh_ring::Omega;

/// The weight of qubit `q` in an index.
pub(crate) fn stride_of(q: u32) -> usize
    requires { q < 64 }
    ensures { result ≡ 2 ^ q }
{
    1usize << q
}

/// The index whose bit at `q` is 0 and whose other bits are those of `p`, in order.
pub(crate) fn index_with_gap(p: usize, q: u32) -> usize
    requires qubit { q < max_part_qubits }
    requires small { p < 2 ^ max_part_qubits }
    ensures { result ≡ with_gap q p }
{
    (p >> q) * stride_of(q) + p
}

/// Gives both places the numbers of their sources. It reads all before it writes.
pub(crate) fn move_pair(v: &mut [Omega], sources: &[Source; 2], places: &[usize; 2])
    requires places { All (λ k. k < length v.old) places.now }
    requires columns { HasPlaces 2 sources.now }
    requires bounded { All (IsWithin coefficient_bits) v.old }
    ensures value { v.new ≡ moved 2 sources.now places.now v.old }
    ensures bounded { All (IsWithin coefficient_bits) v.new }
{
    let low = new_number(v, sources[0], places);
    let high = new_number(v, sources[1], places);
    put(v, places[0], low);
    put(v, places[1], high);
}

/// Gives all four places the numbers of their sources. It reads all before it writes.
pub(crate) fn move_quad(v: &mut [Omega], sources: &[Source; 4], places: &[usize; 4])
    requires places { All (λ k. k < length v.old) places.now }
    requires columns { HasPlaces 4 sources.now }
    requires bounded { All (IsWithin coefficient_bits) v.old }
    ensures value { v.new ≡ moved 4 sources.now places.now v.old }
    ensures bounded { All (IsWithin coefficient_bits) v.new }
{
    let first = new_number(v, sources[0], places);
    let second = new_number(v, sources[1], places);
    let third = new_number(v, sources[2], places);
    let fourth = new_number(v, sources[3], places);
    put(v, places[0], first);
    put(v, places[1], second);
    put(v, places[2], third);
    put(v, places[3], fourth);
}
