//! What a kernel needs of a vector.
ghost use Rattle.std.specs.Prelude.{◌≡◌, ◌<◌, ◌≤◌, ◌↔◌, IsTrue, ◌+◌, ◌^◌, ℕ, ℤ, pos, List, replicate, slice_set, ◌+ℤ◌, neg_ℤ, unsigned_abs};
ghost use Rattle.qh_ring.specs.Numbers.{IsBelow};
ghost use Rattle.qh_kernel.specs.Lanes.{at_lane, AreBelow, IsEven, flipped, chosen};

/// 2^PLACES whole numbers, each of a magnitude below 2^ROOM.
pub trait Vector: Copy {
    /// The numbers in order.
    ghost lanes: { Self → List ℤ };

    /// A lane's number has this many bits.
    ghost PLACES: { ℕ };

    const PLACES: u32;

    /// The bits of a magnitude.
    ghost ROOM: { ℕ };

    const ROOM: u32;

    /// 0 in each lane.
    fn zero() -> Self
        ensures { lanes result ≡ replicate (2 ^ PLACES) (pos 0) };

    /// The number in a lane.
    fn get(self, lane: usize) -> i64
        requires lane { lane < 2 ^ PLACES }
        requires below { AreBelow (2 ^ PLACES) ROOM (lanes self) }
        ensures { result ≡ at_lane (lanes self) lane };

    /// Another number in a lane.
    fn with(self, lane: usize, number: i64) -> Self
        requires lane { lane < 2 ^ PLACES }
        requires below { AreBelow (2 ^ PLACES) ROOM (lanes self) }
        requires number { IsBelow ROOM number }
        ensures { lanes result ≡ slice_set (lanes self) lane number };

    /// The sums.
    fn plus(self, other: Self, bits: u32) -> Self
        requires room { bits < ROOM }
        requires below { AreBelow (2 ^ PLACES) bits (lanes self) }
        requires other { AreBelow (2 ^ PLACES) bits (lanes other) }
        ensures lanes { (r : ℕ) → r < 2 ^ PLACES → at_lane (lanes result) r ≡ at_lane (lanes self) r +ℤ at_lane (lanes other) r }
        ensures below { AreBelow (2 ^ PLACES) (bits + 1) (lanes result) };

    /// The negations.
    fn negated(self, bits: u32) -> Self
        requires room { bits < ROOM }
        requires below { AreBelow (2 ^ PLACES) bits (lanes self) }
        ensures lanes { (r : ℕ) → r < 2 ^ PLACES → at_lane (lanes result) r ≡ neg_ℤ (at_lane (lanes self) r) }
        ensures below { AreBelow (2 ^ PLACES) bits (lanes result) };

    /// Each lane takes the number of the lane whose number differs in bit `place`.
    fn partner(self, place: u32, bits: u32) -> Self
        requires place { place < PLACES }
        requires room { bits ≤ ROOM }
        requires below { AreBelow (2 ^ PLACES) bits (lanes self) }
        ensures lanes { (r : ℕ) → r < 2 ^ PLACES → at_lane (lanes result) r ≡ at_lane (lanes self) (flipped place r) }
        ensures below { AreBelow (2 ^ PLACES) bits (lanes result) };

    /// The lanes whose bit `place` is 0 of this vector, and the others of `high`.
    fn blended(self, high: Self, place: u32, bits: u32) -> Self
        requires place { place < PLACES }
        requires room { bits ≤ ROOM }
        requires below { AreBelow (2 ^ PLACES) bits (lanes self) }
        requires high { AreBelow (2 ^ PLACES) bits (lanes high) }
        ensures lanes { (r : ℕ) → r < 2 ^ PLACES → at_lane (lanes result) r ≡ chosen place r (at_lane (lanes self) r) (at_lane (lanes high) r) }
        ensures below { AreBelow (2 ^ PLACES) bits (lanes result) };

    /// Half of each number, all of which are even.
    fn halved(self, bits: u32) -> Self
        requires room { bits ≤ ROOM }
        requires below { AreBelow (2 ^ PLACES) bits (lanes self) }
        requires even { (r : ℕ) → r < 2 ^ PLACES → IsEven (at_lane (lanes self) r) }
        ensures lanes { (r : ℕ) → r < 2 ^ PLACES → at_lane (lanes result) r +ℤ at_lane (lanes result) r ≡ at_lane (lanes self) r }
        ensures below { AreBelow (2 ^ PLACES) bits (lanes result) };

    /// Whether each number is even.
    fn is_even(self) -> bool
        requires { AreBelow (2 ^ PLACES) ROOM (lanes self) }
        ensures { IsTrue result ↔ ((r : ℕ) → r < 2 ^ PLACES → IsEven (at_lane (lanes self) r)) };

    /// The larger magnitude in each lane.
    fn larger(self, other: Self) -> Self
        requires below { AreBelow (2 ^ PLACES) ROOM (lanes self) }
        requires other { AreBelow (2 ^ PLACES) ROOM (lanes other) }
        ensures above { (b : ℕ) → AreBelow (2 ^ PLACES) b (lanes self) → AreBelow (2 ^ PLACES) b (lanes other) → AreBelow (2 ^ PLACES) b (lanes result) }
        ensures self_below { (b : ℕ) → AreBelow (2 ^ PLACES) b (lanes result) → AreBelow (2 ^ PLACES) b (lanes self) }
        ensures other_below { (b : ℕ) → AreBelow (2 ^ PLACES) b (lanes result) → AreBelow (2 ^ PLACES) b (lanes other) };

    /// The greatest magnitude.
    fn most(self) -> u64
        requires { AreBelow (2 ^ PLACES) ROOM (lanes self) }
        ensures most { (r : ℕ) → r < 2 ^ PLACES → unsigned_abs (at_lane (lanes self) r) ≤ result }
        ensures least { (b : ℕ) → AreBelow (2 ^ PLACES) b (lanes self) → result < 2 ^ b };

    ghost few_places: { PLACES ≤ 4 };

    ghost some_room: { 8 ≤ ROOM };

    ghost small_room: { ROOM ≤ 63 };
}
