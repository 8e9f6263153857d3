//! Lanes of 64 bits.
ghost use Rattle.std.specs.Prelude.{◌≤◌};
ghost use Rattle.std.proofs.Common.{arith};

use crate::lanes::Vector;
use std::simd::i64x8;
use std::simd::prelude::*;

impl Vector for i64x8 {
    ghost lanes = { λ v. v };

    ghost PLACES = { 3 };

    const PLACES: u32 = 3;

    ghost ROOM = { 63 };

    const ROOM: u32 = 63;

    ghost few_places = { Prim.omega arith };

    ghost some_room = { Prim.omega arith };

    ghost small_room = { Prim.omega arith };

    #[inline(always)]
    fn zero() -> Self {
        i64x8::splat(0)
    }

    #[inline(always)]
    fn get(self, lane: usize) -> i64 {
        self.to_array()[lane]
    }

    #[inline(always)]
    fn with(self, lane: usize, number: i64) -> Self {
        let mut lanes = self.to_array();
        lanes[lane] = number;
        i64x8::from_array(lanes)
    }

    #[inline(always)]
    fn plus(self, other: Self, _bits: u32) -> Self {
        self.strict_add(other)
    }

    #[inline(always)]
    fn negated(self, _bits: u32) -> Self {
        self.strict_neg()
    }

    #[inline(always)]
    fn partner(self, place: u32, _bits: u32) -> Self {
        if place == 0 {
            return self.swizzle([1, 0, 3, 2, 5, 4, 7, 6]);
        }
        if place == 1 {
            return self.swizzle([2, 3, 0, 1, 6, 7, 4, 5]);
        }
        self.swizzle([4, 5, 6, 7, 0, 1, 2, 3])
    }

    #[inline(always)]
    fn blended(self, high: Self, place: u32, _bits: u32) -> Self {
        if place == 0 {
            return self.shuffle(high, [0, 9, 2, 11, 4, 13, 6, 15]);
        }
        if place == 1 {
            return self.shuffle(high, [0, 1, 10, 11, 4, 5, 14, 15]);
        }
        self.shuffle(high, [0, 1, 2, 3, 12, 13, 14, 15])
    }

    #[inline(always)]
    fn halved(self, _bits: u32) -> Self {
        self >> i64x8::splat(1)
    }

    #[inline(always)]
    fn is_even(self) -> bool {
        (self & i64x8::splat(1)).simd_eq(i64x8::splat(0)).all()
    }

    #[inline(always)]
    fn larger(self, other: Self) -> Self {
        self.strict_abs().simd_max(other.strict_abs())
    }

    #[inline(always)]
    fn most(self) -> u64 {
        let lanes = self.to_array();
        let mut most = 0u64;
        for r in 0..8usize {
            most = most.max(lanes[r].unsigned_abs());
        }
        most
    }
}
