//! Slots: what they give together, and where two tables differ.
ghost use Rattle.std.specs.Prelude.{◌≡◌, ◌≢◌, ◌↔◌, ◌<◌, ◌≤◌, ℕ, List, Option, Some, None, IsTrue, IsSome, IfSome, IfNone, All, length, take};
ghost use Rattle.qh_limits.specs.Limits.{coefficient_bits};
ghost use Rattle.qh_ring.specs.declared.number.Omega.{Omega as OmegaValue};
ghost use Rattle.qh_ring.specs.Numbers.{IsWithin};
ghost use Rattle.qh_plan.specs.declared.verdict.Verdict.TheVariants.{Sum};
ghost use Rattle.qh_plan.specs.Verdicts.{added};
ghost use Rattle.qh_slots.specs.Stands.{slot_at};
ghost use Rattle.qh_merge.specs.Union.{added_slot, least_after, lesser_slot, sums_after};

use qh_plan::Verdict;
use qh_ring::{Omega, add_bounded};

/// Adds numbers to sums, place by place.
fn add_all(sums: &mut [Omega], more: &[Omega])
    requires even { length sums.old ≡ length more.now }
    requires sums { All (IsWithin coefficient_bits) sums.old }
    requires more { All (IsWithin coefficient_bits) more.now }
    ensures { sums.new ≡ added sums.old more.now }
{
    for i in 0..sums.len() {
        sums[i] = add_bounded(&sums[i], &more[i]);
    }
}

/// Adds the numbers of a slot to sums.
pub(crate) fn add_slot(sums: &mut [Omega], slot: &Option<Verdict>)
    requires even { (more : List OmegaValue) → slot.now ≡ Some (Sum more) → length sums.old ≡ length more }
    requires within { All (IsWithin coefficient_bits) sums.old }
    ensures { sums.new ≡ added_slot sums.old slot.now }
{
    if let Some(Verdict::Sum(more)) = slot {
        add_all(sums, more.values());
    }
}

/// A path and that of a slot, whichever is less.
pub(crate) fn lesser_path(over: Option<u64>, slot: &Option<Verdict>) -> Option<u64>
    ensures { result ≡ lesser_slot over slot.now }
{
    match (over, slot) {
        (None, Some(Verdict::Over { path })) => Some(*path),
        (Some(least), Some(Verdict::Over { path })) => Some(least.min(*path)),
        (least, _) => least,
    }
}

/// Adds the numbers of slots to sums, and answers a path and those of the slots, whichever is least.
pub(crate) fn add_table(
    sums: &mut [Omega],
    over: Option<u64>,
    table: &[Option<Verdict>],
) -> Option<u64>
    requires even { (r : ℕ) (more : List OmegaValue) → slot_at table.now r ≡ Some (Sum more) → length sums.old ≡ length more }
    requires within { (n : ℕ) → n ≤ length table.now → All (IsWithin coefficient_bits) (sums_after sums.old (take n table.now)) }
    ensures sums { sums.new ≡ sums_after sums.old table.now }
    ensures least { result ≡ least_after over table.now }
{
    let mut least = over;
    for r in 0..table.len() {
        add_slot(sums, &table[r]);
        least = lesser_path(least, &table[r]);
    }
    least
}

/// Whether two numbers are one.
fn same_number(one: &Omega, two: &Omega) -> bool
    ensures { IsTrue result ↔ (one.now ≡ two.now) }
{
    one.a == two.a && one.b == two.b && one.c == two.c && one.d == two.d
}

/// Whether two lists of numbers are one.
fn same_numbers(one: &[Omega], two: &[Omega]) -> bool
    ensures { IsTrue result ↔ (one.now ≡ two.now) }
{
    if one.len() != two.len() {
        return false;
    }
    for k in 0..one.len() {
        if !same_number(&one[k], &two[k]) {
            return false;
        }
    }
    true
}

/// Whether two slots hold the same verdict, or are both closed.
fn same_slot(one: &Option<Verdict>, two: &Option<Verdict>) -> bool
    ensures { IsTrue result ↔ (one.now ≡ two.now) }
{
    match (one, two) {
        (None, None) => true,
        (Some(Verdict::Sum(sums)), Some(Verdict::Sum(others))) => {
            same_numbers(sums.values(), others.values())
        }
        (Some(Verdict::Over { path }), Some(Verdict::Over { path: other })) => path == other,
        _ => false,
    }
}

/// The first range for which two tables differ.
pub(crate) fn first_difference(one: &[Option<Verdict>], two: &[Option<Verdict>]) -> Option<usize>
    requires { length one.now ≡ length two.now }
    ensures inside { IfSome result (λ r. r < length one.now) }
    ensures unequal { IfSome result (λ r. slot_at one.now r ≢ slot_at two.now r) }
    ensures least { IfSome result (λ r. (q : ℕ) → q < r → slot_at one.now q ≡ slot_at two.now q) }
    ensures equal { IfNone result (one.now ≡ two.now) }
{
    for r in 0..one.len() {
        if !same_slot(&one[r], &two[r]) {
            return Some(r);
        }
    }
    None
}

/// The first range without a verdict.
pub(crate) fn first_closed(table: &[Option<Verdict>]) -> Option<usize>
    ensures inside { IfSome result (λ r. r < length table.now) }
    ensures shut { IfSome result (λ r. slot_at table.now r ≡ None) }
    ensures least { IfSome result (λ r. (q : ℕ) → q < r → IsSome (slot_at table.now q)) }
    ensures finished { IfNone result ((r : ℕ) → r < length table.now → IsSome (slot_at table.now r)) }
{
    for r in 0..table.len() {
        if table[r].is_none() {
            return Some(r);
        }
    }
    None
}
