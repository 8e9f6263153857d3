//! Values worked out by hand from ω² = i, ω⁴ = -1 and √2 = ω - ω³, and the limits on both sides.
use qh_limits::COEFFICIENT_BITS;
use qh_ring::{
    Canon, Entry, Mat2, Omega, TooWide, add_bounded, mul_checked, reduce, times_unit, within,
};
use std::process::Abort;
use std::test::Fail;

const LIMIT_126: i128 = 85070591730234615865843651857942052864;

const LIMIT_92: i128 = 4951760157141521099596496896;

fn number(a: i128, b: i128, c: i128, d: i128) -> Omega {
    Omega { a, b, c, d }
}

#[test]
fn bounds(rt: HostRuntime) -> Result<(), Fail> {
    for (z, bits, answer) in [
        (number(LIMIT_126 - 1, 0, 0, 1 - LIMIT_126), 126, true),
        (number(LIMIT_126, 0, 0, 0), 126, false),
        (number(0, 0, -LIMIT_126, 0), 126, false),
        (number(0, LIMIT_92 - 1, 0, 0), 92, true),
        (number(0, 0, 0, LIMIT_92), 92, false),
        (number(0, 0, 0, 0), 0, true),
        (number(0, 1, 0, 0), 0, false),
    ] {
        assert_eq!(rt; within(&z, bits), answer, "{z:?} within {bits} bits");
    }
    Ok(())
}

#[test]
fn sums_and_turns(rt: HostRuntime) -> Result<(), Fail> {
    let z = number(1, 20, 300, 4000);
    for (j, turned) in [
        (0, z),
        (1, number(-4000, 1, 20, 300)),
        (2, number(-300, -4000, 1, 20)),
        (4, number(-1, -20, -300, -4000)),
        (7, number(20, 300, 4000, -1)),
    ] {
        assert!(rt; within(&z, COEFFICIENT_BITS));
        assert!(rt; j < 8);
        assert_eq!(rt; times_unit(&z, j), turned, "times the power {j}");
    }
    assert!(rt; within(&z, COEFFICIENT_BITS));
    assert!(rt; within(&Omega::ONE, COEFFICIENT_BITS) && within(&Omega::ZERO, COEFFICIENT_BITS));
    assert_eq!(rt; add_bounded(&z, &Omega::ONE), number(2, 20, 300, 4000));
    assert_eq!(rt; add_bounded(&z, &Omega::ZERO), z);
    Ok(())
}

#[test]
fn zeros(rt: HostRuntime) -> Result<(), Fail> {
    for row in Mat2::default().rows {
        assert_eq!(rt; row, [Entry::Zero, Entry::Zero]);
    }
    Ok(())
}

#[test]
fn products(rt: HostRuntime) -> Result<(), Fail> {
    let half = 1i128 << 46;
    for (x, y, answer) in [
        (
            number(0, 1, 0, 0),
            number(0, 1, 0, 0),
            Ok(number(0, 0, 1, 0)),
        ),
        (
            number(0, 0, 0, 1),
            number(0, 1, 0, 0),
            Ok(number(-1, 0, 0, 0)),
        ),
        (
            number(0, 1, 0, -1),
            number(0, 1, 0, -1),
            Ok(number(2, 0, 0, 0)),
        ),
        (
            number(1, 2, 3, 4),
            number(5, 6, 7, 8),
            Ok(number(-56, -36, 2, 60)),
        ),
        (
            number(1, 0, 0, 0),
            number(0, LIMIT_92 - 1, 0, 0),
            Ok(number(0, LIMIT_92 - 1, 0, 0)),
        ),
        (number(0, 0, 0, -1), number(0, LIMIT_92, 0, 0), Err(TooWide)),
        (number(half, 0, 0, 0), number(0, 0, half, 0), Err(TooWide)),
    ] {
        assert!(rt; within(&x, COEFFICIENT_BITS));
        assert!(rt; within(&y, COEFFICIENT_BITS));
        assert_eq!(rt; mul_checked(&x, &y), answer, "{x:?} times {y:?}");
    }
    Ok(())
}

#[test]
fn least_forms(rt: HostRuntime) -> Result<(), Fail> {
    for (z, k, least) in [
        (
            number(1, 0, 0, 0),
            1,
            Canon {
                z: number(1, 0, 0, 0),
                k: 1,
            },
        ),
        (
            number(2, 0, 0, 0),
            2,
            Canon {
                z: number(1, 0, 0, 0),
                k: 0,
            },
        ),
        (
            number(2, 0, 0, 0),
            1,
            Canon {
                z: number(0, 1, 0, -1),
                k: 0,
            },
        ),
        (
            number(0, 1, 0, -1),
            3,
            Canon {
                z: number(1, 0, 0, 0),
                k: 2,
            },
        ),
        (
            number(1, 1, 0, 0),
            2,
            Canon {
                z: number(1, 1, 0, 0),
                k: 2,
            },
        ),
        (
            number(0, 0, 0, 0),
            4096,
            Canon {
                z: number(0, 0, 0, 0),
                k: 0,
            },
        ),
        (
            number(LIMIT_126 - 2, 0, 0, 0),
            0,
            Canon {
                z: number(LIMIT_126 - 2, 0, 0, 0),
                k: 0,
            },
        ),
    ] {
        assert!(rt; within(&z, COEFFICIENT_BITS));
        assert_eq!(rt; reduce(&z, k), least, "{z:?} over the root to the {k}");
    }
    Ok(())
}
