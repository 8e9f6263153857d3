//! How a file is emptied.
ghost use Rattle.std.specs.Prelude.{◌≡◌, ◌↔◌, ℕ, List, [], OnOk, OnErr, IfOk, IfErr, IsTrue};
ghost use Rattle.std.proofs.Common.{get_or};
ghost use Rattle.qh_limits.specs.Counts.{Rose};
ghost use Rattle.qh_disk.specs.Disk.{IsSafe, Reads};
ghost use Rattle.qh_disk.specs.Looks.{Looks};
ghost use Rattle.qh_disk.specs.Moments.{EachImage};
ghost use Rattle.qh_slots.specs.Layout.{mark};
ghost use Rattle.qh_parts.specs.Laying.{IsUnbegun, Wipes};

use crate::fault::DiskFault;
use crate::reading::{barrier, settle};
use qh_disk::{Disk, Failed};
use qh_slots::MARK;

/// Makes what is read safe, and tells whether the header is open.
#[tactic(auto, using(qh_disk::proofs::Looking::looks_on, qh_disk::proofs::Looking::looks_call))]
fn look<D: Disk>(disk: &mut D) -> Result<bool, Failed>
    ensures open { IfOk result (λ is_open. Reads (D.face disk.new) (λ f. IsTrue is_open ↔ (get_or f 0 0 ≡ mark))) }
    ensures safe { OnOk result (IsSafe (D.face disk.new)) }
    ensures looks { Looks (D.face disk.old) (D.face disk.new) }
    ensures same { D.loans disk.new ≡ D.loans disk.old }
    ensures rose { OnErr result (Rose (D.face disk.old).faults (D.face disk.new).faults) }
    ensures count { IfErr result (λ e. e.faults ≡ (D.face disk.new).faults) }
{
    if barrier(disk)? == 0 {
        return Ok(false);
    }
    let mut gate = [0];
    disk.read_at(0, &mut gate)?;
    Ok(gate[0] == MARK)
}

/// Writes a closed gate over an open header.
fn write_closed<D: Disk>(disk: &mut D) -> Result<(), Failed>
    requires safe { IsSafe (D.face disk.old) }
    requires open { Reads (D.face disk.old) (λ f. get_or f 0 0 ≡ mark) }
    ensures closed { OnOk result (Reads (D.face disk.new) IsUnbegun) }
    ensures wipes { Wipes (D.face disk.old) (D.face disk.new) }
    ensures same { D.loans disk.new ≡ D.loans disk.old }
    ensures rose { OnErr result (Rose (D.face disk.old).faults (D.face disk.new).faults) }
    ensures count { IfErr result (λ e. e.faults ≡ (D.face disk.new).faults) }
{
    disk.write_at(0, &[0])
}

/// Closes an open header, and makes that safe.
fn close<D: Disk>(disk: &mut D) -> Result<(), Failed>
    requires safe { IsSafe (D.face disk.old) }
    requires open { Reads (D.face disk.old) (λ f. get_or f 0 0 ≡ mark) }
    ensures closed { OnOk result (EachImage (D.face disk.new) IsUnbegun) }
    ensures wipes { Wipes (D.face disk.old) (D.face disk.new) }
    ensures same { D.loans disk.new ≡ D.loans disk.old }
    ensures rose { OnErr result (Rose (D.face disk.old).faults (D.face disk.new).faults) }
    ensures count { IfErr result (λ e. e.faults ≡ (D.face disk.new).faults) }
{
    write_closed(disk)?;
    settle(disk)
}

/// Closes the header if it is open.
fn shut<D: Disk>(disk: &mut D) -> Result<(), Failed>
    ensures closed { OnOk result (EachImage (D.face disk.new) IsUnbegun) }
    ensures wipes { Wipes (D.face disk.old) (D.face disk.new) }
    ensures same { D.loans disk.new ≡ D.loans disk.old }
    ensures rose { OnErr result (Rose (D.face disk.old).faults (D.face disk.new).faults) }
    ensures count { IfErr result (λ e. e.faults ≡ (D.face disk.new).faults) }
{
    if look(disk)? { close(disk) } else { Ok(()) }
}

/// Cuts a file whose header is closed.
fn cut<D: Disk>(disk: &mut D) -> Result<(), Failed>
    requires closed { EachImage (D.face disk.old) IsUnbegun }
    ensures empty { OnOk result (Reads (D.face disk.new) (λ f. f ≡ [])) }
    ensures wipes { Wipes (D.face disk.old) (D.face disk.new) }
    ensures same { D.loans disk.new ≡ D.loans disk.old }
    ensures rose { OnErr result (Rose (D.face disk.old).faults (D.face disk.new).faults) }
    ensures count { IfErr result (λ e. e.faults ≡ (D.face disk.new).faults) }
{
    disk.set_len(0)
}

/// Empties a file whose header is closed.
fn clear<D: Disk>(disk: &mut D) -> Result<(), Failed>
    requires closed { EachImage (D.face disk.old) IsUnbegun }
    ensures empty { OnOk result (EachImage (D.face disk.new) (λ f. f ≡ [])) }
    ensures safe { OnOk result (IsSafe (D.face disk.new)) }
    ensures wipes { Wipes (D.face disk.old) (D.face disk.new) }
    ensures same { D.loans disk.new ≡ D.loans disk.old }
    ensures rose { OnErr result (Rose (D.face disk.old).faults (D.face disk.new).faults) }
    ensures count { IfErr result (λ e. e.faults ≡ (D.face disk.new).faults) }
{
    cut(disk)?;
    settle(disk)
}

/// Closes the header if it is open, and then empties the file.
fn shut_and_clear<D: Disk>(disk: &mut D) -> Result<(), Failed>
    ensures empty { OnOk result (EachImage (D.face disk.new) (λ f. f ≡ [])) }
    ensures safe { OnOk result (IsSafe (D.face disk.new)) }
    ensures wipes { Wipes (D.face disk.old) (D.face disk.new) }
    ensures same { D.loans disk.new ≡ D.loans disk.old }
    ensures rose { OnErr result (Rose (D.face disk.old).faults (D.face disk.new).faults) }
    ensures count { IfErr result (λ e. e.faults ≡ (D.face disk.new).faults) }
{
    shut(disk)?;
    clear(disk)
}

/// Makes the file empty, whatever it held. It takes no memory.
pub fn wipe<D: Disk>(disk: &mut D) -> Result<(), DiskFault>
    ensures empty { OnOk result (EachImage (D.face disk.new) (λ f. f ≡ [])) }
    ensures safe { OnOk result (IsSafe (D.face disk.new)) }
    ensures wipes { Wipes (D.face disk.old) (D.face disk.new) }
    ensures same { D.loans disk.new ≡ D.loans disk.old }
    ensures rose { OnErr result (Rose (D.face disk.old).faults (D.face disk.new).faults) }
    ensures count { IfErr result (λ e. e.faults ≡ (D.face disk.new).faults) }
{
    Ok(shut_and_clear(disk)?)
}
