//! What an event does to the slots.
ghost use Rattle.std.specs.Prelude.{◌≡◌, ◌<◌, length, map, fold, slice_set, All};
ghost use Rattle.qh_core.specs.Machine.{slot_at, is_gate_written, are_pending, synced, survived, slots_after};
ghost use Rattle.qh_core.specs.declared.slot_state.SlotState.TheVariants.{Stored};

use crate::slot_state::SlotState;

// Whether the gate of a range's slot is written, and not yet safe.
fn is_pending(slots: &[SlotState], range: u32) -> bool
    ensures { result ≡ is_gate_written (slot_at slots.now range) }
{
    let place = range as usize;
    if place >= slots.len() {
        return false;
    }
    slots[place] == SlotState::GateWritten
}

// Whether each of these slots has a written gate.
pub fn are_pending(slots: &[SlotState], kept: &[u32]) -> bool
    ensures { result ≡ are_pending slots.now kept.now }
{
    kept.iter().all(|range| is_pending(slots, *range))
}

// What a sync makes of a slot.
fn synced(slot: SlotState) -> SlotState
    ensures { result ≡ synced slot }
{
    match slot {
        SlotState::BodyWritten => SlotState::BodySafe,
        SlotState::GateWritten => SlotState::Stored,
        _ => slot,
    }
}

// What a stop of the machine makes of a slot that is not kept.
fn survived(slot: SlotState) -> SlotState
    ensures { result ≡ survived slot }
{
    match slot {
        SlotState::Stored => SlotState::Stored,
        _ => SlotState::Closed,
    }
}

// A sync.
pub fn sync_all(slots: &mut [SlotState])
    ensures { slots.new ≡ map synced slots.old }
{
    for slot in slots.iter_mut() {
        *slot = synced(*slot);
    }
}

// Closes each slot that is not stored.
fn close_unsafe(slots: &mut [SlotState])
    ensures { slots.new ≡ map survived slots.old }
{
    for slot in slots.iter_mut() {
        *slot = survived(*slot);
    }
}

// Stores each kept slot.
fn store_kept(slots: &mut [SlotState], kept: &[u32])
    requires { All (λ range. range < length slots.old) kept.now }
    ensures { slots.new ≡ fold (λ those range. slice_set those range Stored) slots.old kept.now }
{
    for range in kept {
        slots[*range as usize] = SlotState::Stored;
    }
}

// What a stop of the machine leaves: each kept slot is stored, every other one but a stored one closed.
pub fn keep(slots: &mut [SlotState], kept: &[u32])
    requires { All (λ range. range < length slots.old) kept.now }
    ensures { slots.new ≡ slots_after kept.now slots.old }
{
    store_kept(slots, kept);
    close_unsafe(slots);
}
