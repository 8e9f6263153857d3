//! Lanes of 16 bits.
ghost use Rattle.std.specs.Prelude.{◌≤◌};
ghost use Rattle.std.proofs.Common.{arith};

use crate::lanes::Vector;
use std::simd::i16x16;
use std::simd::prelude::*;

impl Vector for i16x16 {
    ghost lanes = { λ v. v };

    ghost PLACES = { 4 };

    const PLACES: u32 = 4;

    ghost ROOM = { 15 };

    const ROOM: u32 = 15;

    ghost few_places = { Prim.omega arith };

    ghost some_room = { Prim.omega arith };

    ghost small_room = { Prim.omega arith };

    #[inline(always)]
    fn zero() -> Self {
        i16x16::splat(0)
    }

    #[inline(always)]
    fn get(self, lane: usize) -> i64 {
        self.to_array()[lane] as i64
    }

    #[inline(always)]
    fn with(self, lane: usize, number: i64) -> Self {
        let mut lanes = self.to_array();
        lanes[lane] = number as i16;
        i16x16::from_array(lanes)
    }

    #[inline(always)]
    fn plus(self, other: Self, _bits: u32) -> Self {
        self.strict_add(other)
    }

    #[inline(always)]
    fn negated(self, _bits: u32) -> Self {
        self.strict_neg()
    }

    #[inline(always)]
    fn partner(self, place: u32, _bits: u32) -> Self {
        if place == 0 {
            return self.swizzle([1, 0, 3, 2, 5, 4, 7, 6, 9, 8, 11, 10, 13, 12, 15, 14]);
        }
        if place == 1 {
            return self.swizzle([2, 3, 0, 1, 6, 7, 4, 5, 10, 11, 8, 9, 14, 15, 12, 13]);
        }
        if place == 2 {
            return self.swizzle([4, 5, 6, 7, 0, 1, 2, 3, 12, 13, 14, 15, 8, 9, 10, 11]);
        }
        self.swizzle([8, 9, 10, 11, 12, 13, 14, 15, 0, 1, 2, 3, 4, 5, 6, 7])
    }

    #[inline(always)]
    fn blended(self, high: Self, place: u32, _bits: u32) -> Self {
        if place == 0 {
            return self.shuffle(
                high,
                [0, 17, 2, 19, 4, 21, 6, 23, 8, 25, 10, 27, 12, 29, 14, 31],
            );
        }
        if place == 1 {
            return self.shuffle(
                high,
                [0, 1, 18, 19, 4, 5, 22, 23, 8, 9, 26, 27, 12, 13, 30, 31],
            );
        }
        if place == 2 {
            return self.shuffle(
                high,
                [0, 1, 2, 3, 20, 21, 22, 23, 8, 9, 10, 11, 28, 29, 30, 31],
            );
        }
        self.shuffle(
            high,
            [0, 1, 2, 3, 4, 5, 6, 7, 24, 25, 26, 27, 28, 29, 30, 31],
        )
    }

    #[inline(always)]
    fn halved(self, _bits: u32) -> Self {
        self >> i16x16::splat(1)
    }

    #[inline(always)]
    fn is_even(self) -> bool {
        (self & i16x16::splat(1)).simd_eq(i16x16::splat(0)).all()
    }

    #[inline(always)]
    fn larger(self, other: Self) -> Self {
        self.strict_abs().simd_max(other.strict_abs())
    }

    #[inline(always)]
    fn most(self) -> u64 {
        let lanes = self.to_array();
        let mut most = 0u16;
        for r in 0..16usize {
            most = most.max(lanes[r].unsigned_abs());
        }
        most as u64
    }
}
