//! Bytes that have their room beforehand.
ghost use Rattle.std.specs.Prelude.{◌≡◌, ◌≤◌, length, vec_len, replicate, IfOk};
ghost use Rattle.std.specs.Vec.{vec_capacity};
ghost use Rattle.qh_disk.specs.Disk.{resized};
ghost use Rattle.qh_disk.specs.History.{placed};

use std::alloc::{AllocError, Global};

// These bytes, with room for so many.
pub(crate) fn with_room(alloc: Global, room: usize, bytes: &[u8]) -> Result<Vec<u8>, AllocError>
    ensures items { IfOk result (λ v. v.items ≡ bytes.now) }
    ensures room { IfOk result (λ v. room ≤ vec_capacity v) }
{
    let mut all = Vec::with_capacity(alloc, room)?;
    all.extend_from_slice(bytes)?;
    Ok(all)
}

// Writes a piece, as far as it lies inside.
pub(crate) fn place(bytes: &mut Vec<u8>, at: usize, piece: &[u8])
    ensures items { bytes.new.items ≡ placed at piece.now bytes.old.items }
    ensures len { vec_len bytes.new ≡ vec_len bytes.old }
    ensures room { vec_capacity bytes.old ≤ vec_capacity bytes.new }
{
    let end = bytes.len().min(at.saturating_add(piece.len()));
    if at < end {
        bytes[at..end].copy_from_slice(&piece[..end - at]);
    }
}

// Fills a range, as far as it lies inside.
pub(crate) fn fill(bytes: &mut Vec<u8>, at: usize, count: usize, value: u8)
    ensures items { bytes.new.items ≡ placed at (replicate count value) bytes.old.items }
    ensures len { vec_len bytes.new ≡ vec_len bytes.old }
    ensures room { vec_capacity bytes.old ≤ vec_capacity bytes.new }
{
    let end = bytes.len().min(at.saturating_add(count));
    if at < end {
        bytes[at..end].fill(value);
    }
}

// Cuts, or lengthens with zeros.
pub(crate) fn resize(bytes: &mut Vec<u8>, length: usize)
    requires { length ≤ vec_capacity bytes.old }
    ensures items { bytes.new.items ≡ resized length bytes.old.items }
    ensures len { vec_len bytes.new ≡ length }
    ensures room { vec_capacity bytes.old ≤ vec_capacity bytes.new }
{
    let _ = bytes.resize(length, 0);
}

pub(crate) fn copy(to: &mut Vec<u8>, from: &[u8])
    requires { length from.now ≤ vec_capacity to.old }
    ensures items { to.new.items ≡ from.now }
    ensures len { vec_len to.new ≡ length from.now }
    ensures room { vec_capacity to.old ≤ vec_capacity to.new }
{
    to.clear();
    let _ = to.extend_from_slice(from);
}
