//! The head of a journal: the bytes before its slots, in both formats.
ghost use Rattle.std.specs.Prelude.{◌≡◌, ◌+◌, ◌*◌, ◌≤◌, ◌∷◌, ◌++◌, IfOk, Option, Some, None, bytes_eq, codes, length, min, not, nat_le, nat_lt, ◌&&◌, ◌||◌};
ghost use Rattle.byteorder.specs.Endian.{big_bytes};
ghost use Rattle.qh_limits.specs.Limits.{max_journal_bytes};
ghost use Rattle.qh_plan.specs.Jobs.{ranges};
ghost use Rattle.qh_slots.specs.Layout.{mark, head, old_head, part, place, slot_size};
ghost use Rattle.qh_slots.specs.Attaching.{common, head_refusal, is_named, later_refusal, name_refusal, old_head_refusal};

use crate::fault::AttachFault;
use qh_plan::Job;
use std::alloc::{AllocError, Global};

/// The byte of an open gate. Each other byte is a closed one.
pub const MARK: u8 = 0xa5;

/// The names of both formats.
const NAME: &[u8] = b"QSHJ002";

const OLD_NAME: &[u8] = b"QSHJ001";

/// What both heads begin with: an open gate, the name, and the length of the job text.
fn begun(alloc: Global, name: &[u8], text: &[u8]) -> Result<Vec<u8>, AllocError>
    ensures { IfOk result (λ v. v.items ≡ (mark ∷ name.now) ++ big_bytes 8 (length text.now)) }
{
    let mut bytes = Vec::from_slice(alloc, &[MARK])?;
    bytes.extend_from_slice(name)?;
    bytes.extend_from_slice(&(text.len() as u64).to_be_bytes())?;
    Ok(bytes)
}

/// The head of a job's journal in format 2.
#[tactic(auto, using(crate::proofs::PlaceLemmas::whole_small))]
pub fn head(alloc: Global, job: &Job) -> Result<Vec<u8>, AllocError>
    ensures head { IfOk result (λ v. v.items ≡ head job.now) }
    ensures short { place (head job.now) job.now (ranges job.now) ≤ max_journal_bytes }
{
    let text = job.text();
    let mut bytes = begun(alloc, NAME, text)?;
    bytes.extend_from_slice(&u64::from(job.ranges()).to_be_bytes())?;
    bytes.extend_from_slice(&(job.bits().len() as u64).to_be_bytes())?;
    bytes.extend_from_slice(text)?;
    Ok(bytes)
}

/// The head of a job's journal in format 1.
#[tactic(auto, using(crate::proofs::PlaceLemmas::old_small))]
pub fn old_head(alloc: Global, job: &Job) -> Result<Vec<u8>, AllocError>
    ensures head { IfOk result (λ v. v.items ≡ old_head job.now) }
    ensures short { place (old_head job.now) job.now (ranges job.now) ≤ max_journal_bytes }
{
    let text = job.text();
    let mut bytes = begun(alloc, OLD_NAME, text)?;
    bytes.extend_from_slice(text)?;
    Ok(bytes)
}

/// In how many bytes two lists agree from their start.
fn common(front: &[u8], head: &[u8]) -> usize
    ensures { result ≡ common front.now head.now }
{
    let shorter = front.len().min(head.len());
    for n in 0..shorter {
        if front[n] != head[n] {
            return n;
        }
    }
    shorter
}

/// Whether the name stands in bytes 1 to 7.
fn is_named(front: &[u8], name: &[u8]) -> bool
    requires { 8 ≤ length front.now }
    ensures { result ≡ is_named name.now front.now }
{
    &front[1..8] == name
}

/// Whether so many bytes that begin with `front` begin as the first format does.
fn is_old(front: &[u8], count: u64) -> bool
    requires { 16 ≤ count → 8 ≤ length front.now }
    ensures { result ≡ (nat_le 16 count && is_named (codes "QSHJ001") front.now) }
{
    count >= 16 && is_named(front, OLD_NAME)
}

/// Whether so many bytes that begin with `front` begin as this format does.
fn is_new(front: &[u8], count: u64) -> bool
    requires { 32 ≤ count → 8 ≤ length front.now }
    ensures { not result ≡ (nat_lt count 32 || not (is_named (codes "QSHJ002") front.now)) }
{
    count >= 32 && is_named(front, NAME)
}

/// Whether so many bytes that begin with `front` are long enough for format 1 and have its name.
fn is_first(front: &[u8], count: u64) -> bool
    requires { 16 ≤ count → 8 ≤ length front.now }
    ensures { not result ≡ (nat_lt count 16 || not (is_named (codes "QSHJ001") front.now)) }
{
    count >= 16 && is_named(front, OLD_NAME)
}

/// Why a file of so many bytes that begins with `front` is no journal of this head and size, where the name is right.
#[tactic(auto, using(std::proofs::lemmas::Bool::Decides::nat_tests))]
fn later_refusal(head: &[u8], size: u64, count: u64, front: &[u8]) -> Option<AttachFault>
    ensures { result ≡ later_refusal head.now size count front.now }
{
    let place = common(front, head);
    if place < head.len() {
        return Some(AttachFault::OtherJob {
            place: place as u64,
        });
    }
    if count != size {
        return Some(AttachFault::BadLength { found: count });
    }
    None
}

/// Why a file of so many bytes that begins with `front`, 32 of them or all, has no name of format 2.
#[tactic(auto, using(std::proofs::lemmas::Bool::Decides::nat_tests))]
pub fn name_refusal(count: u64, front: &[u8]) -> Option<AttachFault>
    requires { min 32 count ≤ length front.now }
    ensures { result ≡ name_refusal count front.now None }
{
    if count == 0 {
        return Some(AttachFault::Empty);
    }
    if front[0] != MARK {
        return Some(AttachFault::Unbegun);
    }
    if is_old(front, count) {
        return Some(AttachFault::OldJournal);
    }
    if !is_new(front, count) {
        return Some(AttachFault::NotAJournal);
    }
    None
}

/// Why a file of so many bytes that begins with `front`, as many as the head has or all, is no journal of format 2 with this head and size.
#[tactic(auto, using(crate::proofs::StandLemmas::name_stops, crate::proofs::StandLemmas::name_goes_on), unfolding(crate::specs::Attaching::head_refusal))]
pub fn head_refusal(head: &[u8], size: u64, count: u64, front: &[u8]) -> Option<AttachFault>
    requires long { 32 ≤ length head.now }
    requires front { length front.now ≡ min (length head.now) count }
    ensures { result ≡ head_refusal head.now size count front.now }
{
    if let Some(fault) = name_refusal(count, front) {
        return Some(fault);
    }
    later_refusal(head, size, count, front)
}

/// The same for format 1.
#[tactic(auto, using(std::proofs::lemmas::Bool::Decides::nat_tests), unfolding(crate::specs::Attaching::old_head_refusal))]
pub fn old_head_refusal(head: &[u8], size: u64, count: u64, front: &[u8]) -> Option<AttachFault>
    requires long { 16 ≤ length head.now }
    requires front { length front.now ≡ min (length head.now) count }
    ensures { result ≡ old_head_refusal head.now size count front.now }
{
    if count == 0 {
        return Some(AttachFault::Empty);
    }
    if front[0] != MARK {
        return Some(AttachFault::Unbegun);
    }
    if !is_first(front, count) {
        return Some(AttachFault::NotAJournal);
    }
    later_refusal(head, size, count, front)
}
