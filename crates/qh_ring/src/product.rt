//! The checked product.
ghost use Rattle.std.specs.Prelude.{◌≡◌, ◌*ℤ◌, ◌+ℤ◌};
ghost use Rattle.std.specs.Option.{SomeIff};
ghost use Rattle.std.specs.Result.{OkIff};
ghost use Rattle.qh_limits.specs.Limits.{coefficient_bits, product_bits};
ghost use Rattle.qh_ring.specs.Numbers.{IsBelow, IsWithin, product, scaled_by, AreNarrow};
ghost use Rattle.qh_ring.specs.Rows.{combined};

use crate::number::{Omega, is_below};
use qh_limits::PRODUCT_BITS;

/// One of the sixteen products of two coefficients has a magnitude of 2^92 or more.
#[derive(Clone, Copy, PartialEq, Eq, Debug)]
pub struct TooWide;

/// x times y, where its magnitude is below 2^92.
fn narrow_product(x: i128, y: i128) -> Option<i128>
    ensures { SomeIff result (IsBelow product_bits (x *ℤ y)) (x *ℤ y) }
{
    match x.checked_mul(y) {
        Some(product) if is_below(product, PRODUCT_BITS) => Some(product),
        _ => None,
    }
}

/// Each coefficient of y times x, where all are below 2^92.
fn scaled(x: i128, y: &Omega) -> Option<Omega>
    ensures { SomeIff result (IsWithin product_bits (scaled_by x y.now)) (scaled_by x y.now) }
{
    let a = narrow_product(x, y.a)?;
    let b = narrow_product(x, y.b)?;
    let c = narrow_product(x, y.c)?;
    let d = narrow_product(x, y.d)?;
    Some(Omega { a, b, c, d })
}

fn sum_of_four(p: i128, q: i128, r: i128, s: i128) -> i128
    requires p_below { IsBelow product_bits p }
    requires q_below { IsBelow product_bits q }
    requires r_below { IsBelow product_bits r }
    requires s_below { IsBelow product_bits s }
    ensures { result ≡ p +ℤ q +ℤ r +ℤ s }
{
    p + q + r + s
}

/// p + qω + rω² + sω³.
fn combine(p: &Omega, q: &Omega, r: &Omega, s: &Omega) -> Omega
    requires p_within { IsWithin product_bits p.now }
    requires q_within { IsWithin product_bits q.now }
    requires r_within { IsWithin product_bits r.now }
    requires s_within { IsWithin product_bits s.now }
    ensures { result ≡ combined p.now q.now r.now s.now }
{
    let a = sum_of_four(p.a, -q.d, -r.c, -s.b);
    let b = sum_of_four(p.b, q.a, -r.d, -s.c);
    let c = sum_of_four(p.c, q.b, r.a, -s.d);
    let d = sum_of_four(p.d, q.c, r.b, s.a);
    Omega { a, b, c, d }
}

/// The product of two numbers within 126 bits. It is TooWide exactly where one of the sixteen products of
/// a coefficient of x and one of y has a magnitude of 2^92 or more. It costs sixteen checked products.
pub fn mul_checked(x: &Omega, y: &Omega) -> Result<Omega, TooWide>
    requires x_within { IsWithin coefficient_bits x.now }
    requires y_within { IsWithin coefficient_bits y.now }
    ensures { OkIff result (AreNarrow x.now y.now) (product x.now y.now) }
{
    let Some(p) = scaled(x.a, y) else {
        return Err(TooWide);
    };
    let Some(q) = scaled(x.b, y) else {
        return Err(TooWide);
    };
    let Some(r) = scaled(x.c, y) else {
        return Err(TooWide);
    };
    let Some(s) = scaled(x.d, y) else {
        return Err(TooWide);
    };
    Ok(combine(&p, &q, &r, &s))
}
