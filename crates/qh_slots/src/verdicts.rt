//! The body of a slot: a verdict as the bytes behind its gate.
ghost use Rattle.std.specs.Prelude.{◌≡◌, ◌+◌, ◌-◌, ◌*◌, ◌^◌, ◌<◌, ◌≤◌, ◌∷◌, ◌++◌, ℕ, List, Option, Some, None, IfOk, IfSome, OnOk, IsTrue, ◌↔◌, All, length, replicate, take, drop};
ghost use Rattle.std.specs.List.{flat_map};
ghost use Rattle.byteorder.specs.Endian.{big_bytes};
ghost use Rattle.qh_ring.specs.declared.number.Omega.{Omega as OmegaValue};
ghost use Rattle.qh_limits.specs.Limits.{coefficient_bits};
ghost use Rattle.qh_ring.specs.Numbers.{IsWithin};
ghost use Rattle.qh_plan.specs.declared.verdict.Verdict.{Verdict as VerdictValue};
ghost use Rattle.qh_plan.specs.Jobs.{ranges, IsJob};
ghost use Rattle.qh_plan.specs.Ranges.{Fits};
ghost use Rattle.qh_disk.specs.Disk.{overwritten};
ghost use Rattle.qh_slots.specs.Layout.{body_size, slot_size, part};
ghost use Rattle.qh_slots.specs.Slots.{omega_bytes, spelled, sum_bytes, over_bytes, verdict_bytes, HasSpace};

use crate::numbers::{read_numbers, write_numbers};
use byteorder::{BigEndian, ByteOrder};
use qh_limits::COEFFICIENT_BITS;
use qh_plan::{Job, Sums, Verdict};
use qh_ring::{Omega, within};
use std::alloc::{AllocError, Global};

const SUM: u8 = 0;

const OVER: u8 = 1;

/// The first byte of the numbers.
const NUMBERS: usize = 9;

/// The path that stands behind the first byte.
fn read_path(bytes: &[u8]) -> u64
    requires { 9 ≤ length bytes.now }
    ensures { big_bytes 8 result ≡ part 1 8 bytes.now }
{
    BigEndian::read_u64(&bytes[1..])
}

/// Whether all bytes from the numbers on are 0.
fn is_blank(bytes: &[u8]) -> bool
    requires { 9 ≤ length bytes.now }
    ensures { IsTrue result ↔ All (λ b. b ≡ 0) (drop 9 bytes.now) }
{
    bytes[NUMBERS..].iter().all(|b| *b == 0)
}

/// The sums, where each number is within 126 bits.
fn sums_within(numbers: Vec<Omega>) -> Option<Sums>
    ensures found { IfSome result (λ s. (s ≡ numbers.items) × All (IsWithin coefficient_bits) s) }
    ensures all { All (IsWithin coefficient_bits) numbers.items → result ≡ Some numbers.items }
{
    if !numbers.iter().all(|z| within(z, COEFFICIENT_BITS)) {
        return None;
    }
    Some(Sums::of(numbers))
}

/// The sums that these bytes are the spelling of.
fn read_sums(alloc: Global, bytes: &[u8], count: usize) -> Result<Option<Sums>, AllocError>
    requires { length bytes.now ≡ 9 + 64 * count }
    ensures found { IfOk result (λ o. IfSome o (λ s. (bytes.now ≡ sum_bytes s) × (length s ≡ count))) }
    ensures alone { IfOk result (λ o. (s : List OmegaValue) → bytes.now ≡ sum_bytes s → length s ≡ count → All (IsWithin coefficient_bits) s → o ≡ Some s) }
{
    if bytes[0] != SUM {
        return Ok(None);
    }
    if read_path(bytes) != 0 {
        return Ok(None);
    }
    let numbers = read_numbers(alloc, &bytes[NUMBERS..], count)?;
    Ok(sums_within(numbers))
}

/// The path that these bytes are the spelling of, as one that is over.
fn read_over(bytes: &[u8], count: usize) -> Option<u64>
    requires { length bytes.now ≡ 9 + 64 * count }
    ensures found { IfSome result (λ p. bytes.now ≡ over_bytes count p) }
    ensures alone { (p : ℕ) → p < 2 ^ 64 → bytes.now ≡ over_bytes count p → result ≡ Some p }
{
    if bytes[0] != OVER {
        return None;
    }
    if !is_blank(bytes) {
        return None;
    }
    Some(read_path(bytes))
}

/// The verdict, where it may be that of the range.
fn fitting(job: &Job, range: u32, verdict: Verdict) -> Option<Verdict>
    requires { range < ranges job.now }
    ensures found { IfSome result (λ v. (v ≡ verdict) × Fits job.now range v) }
    ensures all { Fits job.now range verdict → result ≡ Some verdict }
{
    if job.fits(range, &verdict) {
        Some(verdict)
    } else {
        None
    }
}

/// The verdict that fits the range and that these bytes are the spelling of, where they are as many as a body has.
fn read_body(
    alloc: Global,
    bytes: &[u8],
    job: &Job,
    range: u32,
) -> Result<Option<Verdict>, AllocError>
    requires range { range < ranges job.now }
    requires size { length bytes.now ≡ body_size job.now }
    ensures found { IfOk result (λ o. IfSome o (λ v. (bytes.now ≡ spelled job.now v) × Fits job.now range v)) }
    ensures alone { IfOk result (λ o. (v : VerdictValue) → bytes.now ≡ spelled job.now v → Fits job.now range v → o ≡ Some v) }
{
    let count = job.bits().len();
    if let Some(sums) = read_sums(alloc, bytes, count)? {
        return Ok(fitting(job, range, Verdict::Sum(sums)));
    }
    let Some(path) = read_over(bytes, count) else {
        return Ok(None);
    };
    Ok(fitting(job, range, Verdict::Over { path }))
}

/// The bytes of a slot of the job, its gate among them.
pub fn slot_size(job: &Job) -> u64
    ensures { result ≡ slot_size job.now }
{
    10 + 64 * job.bits().len() as u64
}

/// The bytes of a slot of the job behind its gate.
pub fn body_size(job: &Job) -> usize
    ensures size { result ≡ body_size job.now }
    ensures valid { IsJob job.now }
{
    9 + 64 * job.bits().len()
}

/// The verdict of the range that these bytes, those of a slot behind its gate, spell. None where they spell no verdict of this job, or one that
/// does not fit the range. Any number of bytes may be given.
pub fn read_slot(
    alloc: Global,
    bytes: &[u8],
    job: &Job,
    range: u32,
) -> Result<Option<Verdict>, AllocError>
    requires { range < ranges job.now }
    ensures found { IfOk result (λ o. IfSome o (λ v. (bytes.now ≡ spelled job.now v) × Fits job.now range v)) }
    ensures alone { IfOk result (λ o. (v : VerdictValue) → bytes.now ≡ spelled job.now v → Fits job.now range v → o ≡ Some v) }
{
    if bytes.len() != body_size(job) {
        return Ok(None);
    }
    read_body(alloc, bytes, job, range)
}

/// Fills the bytes of a slot behind its gate: 9, and 64 for each bitstring, of which a sum has one number each. It takes no memory.
pub fn put_slot(verdict: &Verdict, out: &mut [u8])
    requires { HasSpace verdict.now (length out.old) }
    ensures { (count : ℕ) → length out.old ≡ 9 + 64 * count → out.new ≡ verdict_bytes count verdict.now }
{
    match verdict {
        Verdict::Sum(sums) => put_sums(sums.values(), out),
        Verdict::Over { path } => put_over(*path, out),
    }
}

/// Writes the first byte and the path.
fn begin(bytes: &mut [u8], first: u8, path: u64)
    requires { 9 ≤ length bytes.old }
    ensures { bytes.new ≡ overwritten 0 (first ∷ big_bytes 8 path) bytes.old }
{
    bytes[0] = first;
    BigEndian::write_u64(&mut bytes[1..], path);
}

/// Writes zeros from `at` to the end.
fn blank(bytes: &mut [u8], at: usize)
    requires { at ≤ length bytes.old }
    ensures { bytes.new ≡ overwritten at (replicate (length bytes.old - at) 0) bytes.old }
{
    bytes[at..].fill(0);
}

/// Writes the spelling of sums.
fn put_sums(numbers: &[Omega], bytes: &mut [u8])
    requires { length bytes.old ≡ 9 + 64 * length numbers.now }
    ensures { bytes.new ≡ sum_bytes numbers.now }
{
    begin(bytes, SUM, 0);
    write_numbers(bytes, NUMBERS, numbers);
}

/// Writes the spelling of a path that is over.
fn put_over(path: u64, bytes: &mut [u8])
    requires { 9 ≤ length bytes.old }
    ensures { (count : ℕ) → length bytes.old ≡ 9 + 64 * count → bytes.new ≡ over_bytes count path }
{
    begin(bytes, OVER, path);
    blank(bytes, NUMBERS);
}
