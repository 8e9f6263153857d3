//! A number and its linear operations.
ghost use Rattle.std.specs.Prelude.{◌≡◌, ◌↔◌, ◌≤◌, ◌<◌, IsTrue};
ghost use Rattle.qh_limits.specs.Limits.{coefficient_bits};
ghost use Rattle.qh_ring.specs.Numbers.{IsBelow, IsWithin, sum, product, unit_power};

/// The number a + bω + cω² + dω³, where ω is the eighth root of unity with ω² = i and ω⁴ = -1.
#[derive(Clone, Copy, PartialEq, Eq, Debug)]
pub struct Omega {
    pub a: i128,
    pub b: i128,
    pub c: i128,
    pub d: i128,
}

impl Omega {
    /// The number 0.
    pub const ZERO: Omega = Omega {
        a: 0,
        b: 0,
        c: 0,
        d: 0,
    };
    /// The number 1.
    pub const ONE: Omega = Omega {
        a: 1,
        b: 0,
        c: 0,
        d: 0,
    };
}

/// Whether the magnitude of `x` is below 2^bits.
pub(crate) fn is_below(x: i128, bits: u32) -> bool
    requires { bits ≤ coefficient_bits }
    ensures { IsTrue result ↔ IsBelow bits x }
{
    x.unsigned_abs() < 1u128 << bits
}

/// Whether each coefficient's magnitude is below 2^bits, for at most 126 bits.
pub fn within(z: &Omega, bits: u32) -> bool
    requires { bits ≤ coefficient_bits }
    ensures { IsTrue result ↔ IsWithin bits z.now }
{
    is_below(z.a, bits) && is_below(z.b, bits) && is_below(z.c, bits) && is_below(z.d, bits)
}

/// The sum of two numbers within 126 bits.
pub fn add_bounded(x: &Omega, y: &Omega) -> Omega
    requires x_within { IsWithin coefficient_bits x.now }
    requires y_within { IsWithin coefficient_bits y.now }
    ensures { result ≡ sum x.now y.now }
{
    Omega {
        a: x.a + y.a,
        b: x.b + y.b,
        c: x.c + y.c,
        d: x.d + y.d,
    }
}

/// The number of these coefficients.
fn of_coefficients(a: i128, b: i128, c: i128, d: i128) -> Omega
    ensures { result ≡ record { a = a; b = b; c = c; d = d } }
{
    Omega { a, b, c, d }
}

/// z·ω^j, of a number within 126 bits and a j below 8. Its coefficients are those of z, moved and signed.
pub fn times_unit(z: &Omega, j: u8) -> Omega
    requires z_within { IsWithin coefficient_bits z.now }
    requires unit { j < 8 }
    ensures value { result ≡ product (unit_power j) z.now }
    ensures bounded { IsWithin coefficient_bits result }
{
    let Omega { a, b, c, d } = *z;
    match j {
        0 => of_coefficients(a, b, c, d),
        1 => of_coefficients(-d, a, b, c),
        2 => of_coefficients(-c, -d, a, b),
        3 => of_coefficients(-b, -c, -d, a),
        4 => of_coefficients(-a, -b, -c, -d),
        5 => of_coefficients(d, -a, -b, -c),
        6 => of_coefficients(c, d, -a, -b),
        _ => of_coefficients(b, c, d, -a),
    }
}
