//! The kernels against the sum of their definition on three qubits, and the limit on both sides.
ghost use Rattle.std.specs.Prelude.{◌↔◌, All, IsTrue};
ghost use Rattle.qh_limits.specs.Limits.{coefficient_bits};
ghost use Rattle.qh_ring.specs.Numbers.{IsWithin};
ghost use Rattle.qh_kernel.specs.Rows.{is_single, are_single};

use qh_kernel::{Over, apply1, apply2, ground_vector};
use qh_limits::COEFFICIENT_BITS;
use qh_ring::{Entry, Mat2, Mat4, Omega, within};
use std::test::Fail;

const O: Entry = Entry::Zero;

const P0: Entry = Entry::Unit(0);

const P1: Entry = Entry::Unit(1);

const P2: Entry = Entry::Unit(2);

const P3: Entry = Entry::Unit(3);

const P4: Entry = Entry::Unit(4);

const P6: Entry = Entry::Unit(6);

const LIMIT: i128 = 85070591730234615865843651857942052864;

fn all_within(v: &[Omega]) -> bool
    ensures { IsTrue result ↔ All (IsWithin coefficient_bits) v.now }
{
    v.iter().all(|z| within(z, COEFFICIENT_BITS))
}

/// Whether the row has at most one entry other than Zero.
fn is_single_row(row: &[Entry; 4]) -> bool
    ensures { IsTrue result ↔ IsTrue (is_single row.now) }
{
    row.iter().filter(|entry| **entry != Entry::Zero).count() <= 1
}

fn are_single_rows(m: &Mat4) -> bool
    ensures { IsTrue result ↔ IsTrue (are_single m.now.rows) }
{
    is_single_row(&m.rows[0])
        && is_single_row(&m.rows[1])
        && is_single_row(&m.rows[2])
        && is_single_row(&m.rows[3])
}

/// Eight numbers that no two gates leave alike.
fn sample() -> [Omega; 8] {
    let mut v = [Omega::ZERO; 8];
    for x in 0..8u8 {
        let n = i128::from(x);
        v[usize::from(x)] = Omega {
            a: 100 + n,
            b: 10 * n - 7,
            c: 3 - n,
            d: 1000 * n,
        };
    }
    v
}

/// z ω^j by j single steps.
fn turned(z: &Omega, j: u8) -> Omega {
    let mut turned = *z;
    for _step in 0..j {
        turned = Omega {
            a: turned.d.wrapping_neg(),
            b: turned.a,
            c: turned.b,
            d: turned.c,
        };
    }
    turned
}

/// The sum of the definition: over all settings of the qubits, the first qubit the high place.
fn by_definition(v: &[Omega; 8], rows: &[[Entry; 4]; 4], qubits: &[u32]) -> [Omega; 8] {
    let mut new = [Omega::ZERO; 8];
    for x in 0..8usize {
        let row = place(x, qubits);
        for column in 0..4usize {
            if let Entry::Unit(j) = rows[row % 4][column] {
                let y = with_setting(x, qubits, column);
                let term = turned(&v[y % 8], j);
                let sum = new[x];
                new[x] = Omega {
                    a: sum.a.wrapping_add(term.a),
                    b: sum.b.wrapping_add(term.b),
                    c: sum.c.wrapping_add(term.c),
                    d: sum.d.wrapping_add(term.d),
                };
            }
        }
    }
    new
}

/// The bits of x at these qubits.
fn place(x: usize, qubits: &[u32]) -> usize {
    let mut place = 0usize;
    for q in qubits {
        place = place.wrapping_mul(2) | (x >> (q % 3) & 1);
    }
    place
}

/// x with these qubits set to the bits of a column.
fn with_setting(x: usize, qubits: &[u32], column: usize) -> usize {
    let mut y = x;
    let mut rest = column;
    for q in qubits.iter().rev() {
        let weight = 1usize << (q % 3);
        y = if rest % 2 == 1 {
            y | weight
        } else {
            y & !weight
        };
        rest /= 2;
    }
    y
}

#[test]
fn one_qubit(rt: HostRuntime) -> Result<(), Fail> {
    for m in [
        Mat2 {
            rows: [[P0, P0], [P0, P4]],
        },
        Mat2 {
            rows: [[P0, O], [O, P1]],
        },
        Mat2 {
            rows: [[O, P6], [P2, O]],
        },
        Mat2 {
            rows: [[P1, P6], [P0, P1]],
        },
        Mat2 {
            rows: [[P0, O], [O, P0]],
        },
        Mat2 {
            rows: [[O, O], [P3, O]],
        },
        Mat2 {
            rows: [[P0, O], [P1, P2]],
        },
    ] {
        let [first, second] = m.rows;
        let rows = [
            [first[0], first[1], O, O],
            [second[0], second[1], O, O],
            [O; 4],
            [O; 4],
        ];
        for q in 0..3u32 {
            let mut v = sample();
            assert!(rt; all_within(&v));
            assert_eq!(rt; apply1(&mut v, 3, &m, q), Ok(()));
            assert_eq!(rt; v, by_definition(&sample(), &rows, &[q]), "{m:?} on {q}");
        }
    }
    Ok(())
}

#[test]
fn two_qubits(rt: HostRuntime) -> Result<(), Fail> {
    for m in [
        Mat4 {
            rows: [[P0, O, O, O], [O, P0, O, O], [O, O, P0, O], [O, O, O, P4]],
        },
        Mat4 {
            rows: [[P0, O, O, O], [O, P0, O, O], [O, O, O, P0], [O, O, P0, O]],
        },
        Mat4 {
            rows: [[P0, O, O, O], [O, O, P2, O], [O, P2, O, O], [O, O, O, P0]],
        },
        Mat4 {
            rows: [[O, O, O, P1], [P3, O, O, O], [O, P6, O, O], [O, O, P2, O]],
        },
        Mat4 {
            rows: [[O, P1, O, O], [O, O, O, O], [O, P0, O, O], [P2, O, O, O]],
        },
    ] {
        assert!(rt; are_single_rows(&m));
        for (q0, q1) in [(0, 1), (1, 0), (0, 2), (2, 0), (1, 2), (2, 1)] {
            let mut v = sample();
            assert!(rt; all_within(&v) && q0 < 3 && q1 < 3 && q0 != q1);
            apply2(&mut v, 3, &m, q0, q1);
            assert_eq!(rt;
                v,
                by_definition(&sample(), &m.rows, &[q0, q1]),
                "{m:?} on {q0} {q1}"
            );
        }
    }
    Ok(())
}

#[test]
fn limits(rt: HostRuntime) -> Result<(), Fail> {
    let half = LIMIT / 2;
    let h = Mat2 {
        rows: [[P0, P0], [P0, P4]],
    };
    let x = Mat2 {
        rows: [[O, P0], [P4, O]],
    };
    for (m, low, high, answer) in [
        (h, half, half - 1, Ok(())),
        (h, half, half, Err(Over)),
        (h, half, -half, Err(Over)),
        (h, half, 1 - half, Ok(())),
        (h, LIMIT - 1, 0, Ok(())),
        (h, LIMIT - 1, 1, Err(Over)),
        (x, LIMIT - 1, 1 - LIMIT, Ok(())),
    ] {
        let mut v = [
            Omega {
                c: low,
                ..Omega::ZERO
            },
            Omega {
                c: high,
                ..Omega::ZERO
            },
        ];
        assert!(rt; all_within(&v));
        assert_eq!(rt; apply1(&mut v, 1, &m, 0), answer, "{low} and {high}");
    }
    Ok(())
}

#[test]
fn ground(rt: HostRuntime) -> Result<(), Fail> {
    let v = ground_vector(rt.alloc(), 2)?;
    let expected = [Omega::ONE, Omega::ZERO, Omega::ZERO, Omega::ZERO];
    assert_eq!(rt; v.as_slice(), expected.as_slice());
    Ok(())
}
