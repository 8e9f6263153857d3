//! Numbers as bytes, the highest first.
ghost use Rattle.std.specs.Prelude.{◌≡◌, ◌+◌, ◌*◌, ◌≤◌, IfOk, All, length, vec_len, take, drop, ◌++◌};
ghost use Rattle.std.specs.List.{flat_map};
ghost use Rattle.qh_disk.specs.Disk.{overwritten};
ghost use Rattle.qh_slots.specs.Layout.{part};
ghost use Rattle.qh_slots.specs.Slots.{int_bytes, omega_bytes, FitsOmega};

use byteorder::{BigEndian, ByteOrder};
use qh_ring::Omega;
use std::alloc::{AllocError, Global};

/// The bytes of a number.
const SIZE: usize = 64;

/// The whole number in the 16 bytes from `at` on.
#[tactic(auto, using(crate::proofs::ByteLemmas::int_from, crate::proofs::ByteLemmas::bytes_dropped))]
fn read_int(bytes: &[u8], at: usize) -> i128
    requires { at + 16 ≤ length bytes.now }
    ensures { int_bytes result ≡ part at 16 bytes.now }
{
    BigEndian::read_i128(&bytes[at..])
}

/// The number that these 64 bytes are.
#[tactic(auto, using(crate::proofs::ByteLemmas::omega_from))]
fn read_number(bytes: &[u8]) -> Omega
    requires { length bytes.now ≡ 64 }
    ensures bytes { omega_bytes result ≡ bytes.now }
    ensures fits { FitsOmega result }
{
    Omega {
        a: read_int(bytes, 0),
        b: read_int(bytes, 16),
        c: read_int(bytes, 32),
        d: read_int(bytes, 48),
    }
}

/// The numbers that these bytes are.
pub(crate) fn read_numbers(
    alloc: Global,
    bytes: &[u8],
    count: usize,
) -> Result<Vec<Omega>, AllocError>
    requires { length bytes.now ≡ 64 * count }
    ensures count { IfOk result (λ v. vec_len v ≡ count) }
    ensures fits { IfOk result (λ v. All FitsOmega v.items) }
    ensures bytes { IfOk result (λ v. flat_map omega_bytes v.items ≡ bytes.now) }
{
    let mut numbers = Vec::with_capacity(alloc, count)?;
    for m in 0..count {
        numbers.push(read_number(&bytes[SIZE * m..SIZE * m + SIZE]))?;
    }
    Ok(numbers)
}

/// Writes a whole number over the 16 bytes from `at` on.
fn write_int(bytes: &mut [u8], at: usize, x: i128)
    requires { at + 16 ≤ length bytes.old }
    ensures { bytes.new ≡ overwritten at (int_bytes x) bytes.old }
{
    BigEndian::write_i128(&mut bytes[at..], x);
}

/// Writes a number over the 64 bytes from `at` on.
fn write_number(bytes: &mut [u8], at: usize, z: &Omega)
    requires { at + 64 ≤ length bytes.old }
    ensures { bytes.new ≡ overwritten at (omega_bytes z.now) bytes.old }
{
    write_int(bytes, at, z.a);
    write_int(bytes, at + 16, z.b);
    write_int(bytes, at + 32, z.c);
    write_int(bytes, at + 48, z.d);
}

/// Writes these numbers over the bytes from `at` on.
pub(crate) fn write_numbers(bytes: &mut [u8], at: usize, numbers: &[Omega])
    requires { at + 64 * length numbers.now ≤ length bytes.old }
    ensures { bytes.new ≡ overwritten at (flat_map omega_bytes numbers.now) bytes.old }
{
    for m in 0..numbers.len() {
        write_number(bytes, at + SIZE * m, &numbers[m]);
    }
}
