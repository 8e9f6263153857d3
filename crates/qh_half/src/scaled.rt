//! A number with its factor put back.
ghost use Rattle.std.specs.Prelude.{◌≡◌, ◌≤◌, ◌+◌, ◌^◌, ◌+ℤ◌, ◌-ℤ◌, ◌*ℤ◌, pos};
ghost use Rattle.qh_limits.specs.Limits.{coefficient_bits};
ghost use Rattle.qh_ring.specs.Numbers.{IsBelow, IsWithin, product, root, times_root};

use qh_ring::Omega;

/// 2^twos.
fn power_of(twos: u32) -> i128
    requires { twos ≤ 96 }
    ensures { result ≡ pos (2 ^ twos) }
{
    1i128 << twos
}

/// A product that fits.
#[inline(always)]
fn product_of(x: i128, y: i128) -> i128
    requires { IsBelow coefficient_bits (x *ℤ y) }
    ensures { result ≡ x *ℤ y }
{
    x * y
}

/// A sum that fits.
#[inline(always)]
fn sum_of(x: i128, y: i128) -> i128
    requires { IsBelow coefficient_bits (x +ℤ y) }
    ensures { result ≡ x +ℤ y }
{
    x + y
}

/// A difference that fits.
#[inline(always)]
fn difference_of(x: i128, y: i128) -> i128
    requires { IsBelow coefficient_bits (x -ℤ y) }
    ensures { result ≡ x -ℤ y }
{
    x - y
}

/// The number times 2^twos, which fits.
fn doubled(z: &Omega, twos: u32) -> Omega
    requires few { twos ≤ 96 }
    requires here { IsWithin coefficient_bits z.now }
    requires fits { IsWithin coefficient_bits (times_root (twos + twos) z.now) }
    ensures { result ≡ times_root (twos + twos) z.now }
{
    let power = power_of(twos);
    Omega {
        a: product_of(power, z.a),
        b: product_of(power, z.b),
        c: product_of(power, z.c),
        d: product_of(power, z.d),
    }
}

/// The number times √2, which fits.
fn rooted(z: &Omega) -> Omega
    requires here { IsWithin coefficient_bits z.now }
    requires fits { IsWithin coefficient_bits (product root z.now) }
    ensures { result ≡ product root z.now }
{
    Omega {
        a: difference_of(z.b, z.d),
        b: sum_of(z.a, z.c),
        c: sum_of(z.b, z.d),
        d: difference_of(z.c, z.a),
    }
}

/// The number times √2^roots, which fits.
pub(crate) fn scaled(z: &Omega, roots: u32) -> Omega
    requires few { roots ≤ 192 }
    requires here { IsWithin coefficient_bits z.now }
    requires fits { IsWithin coefficient_bits (times_root roots z.now) }
    ensures value { result ≡ times_root roots z.now }
    ensures bounded { IsWithin coefficient_bits result }
{
    let twos = roots / 2;
    if roots == twos + twos {
        return doubled(z, twos);
    }
    rooted(&doubled(z, twos))
}
