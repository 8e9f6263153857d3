//! Groups of blocks: the blocks whose indices differ at a gate's qubits alone.
ghost use Rattle.std.specs.Prelude.{◌≡◌, ◌^◌, ◌<◌, ◌≤◌, length, slice_index_or, slice_set};
ghost use Rattle.qh_limits.specs.Limits.{max_part_qubits};
ghost use Rattle.qh_kernel.specs.Places.{with_gap};

use crate::block::Block;

/// The weight of qubit `q` in an index.
#[inline(always)]
pub(crate) fn stride_of(q: u32) -> usize
    requires { q < 64 }
    ensures { result ≡ 2 ^ q }
{
    1usize << q
}

/// The index whose bit at `q` is 0 and whose other bits are those of `p`, in order.
#[inline(always)]
pub(crate) fn index_with_gap(p: usize, q: u32) -> usize
    requires qubit { q < max_part_qubits }
    requires small { p < 2 ^ max_part_qubits }
    ensures { result ≡ with_gap q p }
{
    (p >> q) * stride_of(q) + p
}

/// The block at a place.
#[inline(always)]
pub(crate) fn block_at<V: Copy>(v: &[Block<V>], k: usize) -> Block<V>
    requires { k < length v.now }
    ensures { result ≡ slice_index_or v.now k result }
{
    v[k]
}

/// Writes both blocks of a pair.
#[inline(always)]
pub(crate) fn put_pair<V: Copy>(
    v: &mut [Block<V>],
    low: usize,
    high: usize,
    x: Block<V>,
    y: Block<V>,
)
    requires low { low < length v.old }
    requires high { high < length v.old }
    ensures { v.new ≡ slice_set (slice_set v.old low x) high y }
{
    v[low] = x;
    v[high] = y;
}

/// The four blocks of a quad, the gate's first qubit the high place of their order.
pub(crate) type Quad<V> = (Block<V>, Block<V>, Block<V>, Block<V>);

/// The blocks at four places.
#[inline(always)]
pub(crate) fn quad_at<V: Copy>(v: &[Block<V>], places: [usize; 4]) -> Quad<V>
    requires first { slice_index_or places 0 0 < length v.now }
    requires second { slice_index_or places 1 0 < length v.now }
    requires third { slice_index_or places 2 0 < length v.now }
    requires fourth { slice_index_or places 3 0 < length v.now }
    ensures first { result.0 ≡ slice_index_or v.now (slice_index_or places 0 0) result.0 }
    ensures second { result.1 ≡ slice_index_or v.now (slice_index_or places 1 0) result.1 }
    ensures third { result.2 ≡ slice_index_or v.now (slice_index_or places 2 0) result.2 }
    ensures fourth { result.3 ≡ slice_index_or v.now (slice_index_or places 3 0) result.3 }
{
    (v[places[0]], v[places[1]], v[places[2]], v[places[3]])
}

/// Writes the blocks at four places.
#[inline(always)]
pub(crate) fn put_quad<V: Copy>(v: &mut [Block<V>], places: [usize; 4], quad: Quad<V>)
    requires first { slice_index_or places 0 0 < length v.old }
    requires second { slice_index_or places 1 0 < length v.old }
    requires third { slice_index_or places 2 0 < length v.old }
    requires fourth { slice_index_or places 3 0 < length v.old }
    ensures { v.new ≡ slice_set (slice_set (slice_set (slice_set v.old (slice_index_or places 0 0) quad.0) (slice_index_or places 1 0) quad.1) (slice_index_or places 2 0) quad.2) (slice_index_or places 3 0) quad.3 }
{
    v[places[0]] = quad.0;
    v[places[1]] = quad.1;
    v[places[2]] = quad.2;
    v[places[3]] = quad.3;
}
