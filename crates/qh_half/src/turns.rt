//! What a matrix makes of the numbers of a half, in the narrowest lanes that they fit.
ghost use Rattle.std.specs.Prelude.{◌≡◌, ◌≢◌, ◌<◌, ◌≤◌, [], ◌∷◌, All, IsTrue, OnOk, OnErr, Some};
ghost use Rattle.qh_ring.specs.Numbers.{IsWithin};
ghost use Rattle.qh_ring.specs.Matrices.{number_in};
ghost use Rattle.qh_ring.specs.States.{applied_list};
ghost use Rattle.qh_kernel.specs.Rows.{are_single};
ghost use Rattle.qh_narrow.specs.Factor.{with_factor};
ghost use Rattle.qh_half.specs.Halves.{AfterMatrix, IsVector};
ghost use Rattle.qh_half.specs.Forms.{held, ArePlaces, IsKept};

use crate::form::{Form, MOST_ROOTS, MOST_ROOTS64};
use crate::places::Places;
use qh_blocks::width_of;
use qh_narrow::{Columns, Columns16, Columns32, Wide};
use qh_ring::{Mat2, Mat4};

/// Applies the matrix to qubit `q` of lanes of 16 bits, where their tracked bound has room for it. Wide leaves them as they
/// were.
fn try16(columns: &mut Columns16, m: &Mat2, q: u32) -> Result<(), Wide>
    requires { q < columns.old.qubits }
    ensures qubits { columns.new.qubits ≡ columns.old.qubits }
    ensures exact { OnOk result (columns.new.numbers ≡ applied_list (number_in m.now.rows) (q ∷ []) columns.old.numbers) }
    ensures within { OnOk result (All (IsWithin 14) columns.new.numbers) }
    ensures same { OnErr result (columns.new ≡ columns.old) }
{
    if width_of(m, columns.bits()) > 14 {
        return Err(Wide);
    }
    columns.apply1(m, q)
}

/// Applies the matrix to qubit `q` of lanes of 32 bits, where their tracked bound has room for it. Wide leaves them as they
/// were.
fn try32(columns: &mut Columns32, m: &Mat2, q: u32) -> Result<(), Wide>
    requires { q < columns.old.qubits }
    ensures qubits { columns.new.qubits ≡ columns.old.qubits }
    ensures exact { OnOk result (columns.new.numbers ≡ applied_list (number_in m.now.rows) (q ∷ []) columns.old.numbers) }
    ensures within { OnOk result (All (IsWithin 30) columns.new.numbers) }
    ensures same { OnErr result (columns.new ≡ columns.old) }
{
    if width_of(m, columns.bits()) > 30 {
        return Err(Wide);
    }
    columns.apply1(m, q)
}

/// Applies the matrix to qubit `q` of lanes of 64 bits, where their tracked bound has room for it. Wide leaves them as they
/// were.
fn try64(columns: &mut Columns, m: &Mat2, q: u32) -> Result<(), Wide>
    requires { q < columns.old.qubits }
    ensures qubits { columns.new.qubits ≡ columns.old.qubits }
    ensures exact { OnOk result (columns.new.numbers ≡ applied_list (number_in m.now.rows) (q ∷ []) columns.old.numbers) }
    ensures within { OnOk result (All (IsWithin 62) columns.new.numbers) }
    ensures same { OnErr result (columns.new ≡ columns.old) }
{
    if width_of(m, columns.bits()) > 62 {
        return Err(Wide);
    }
    columns.apply1(m, q)
}

/// Applies the matrix to qubit `q` of the wide list, and tells the form from then on.
fn turn_wide(places: &mut Places, qubits: u32, m: &Mat2, q: u32) -> Form
    requires kept { IsKept qubits Form.Wide places.old }
    requires qubit { q < qubits }
    ensures kept { IsKept qubits result places.new }
    ensures numbers { AfterMatrix (number_in m.now.rows) (q ∷ []) (held Form.Wide places.old) (held result places.new) }
{
    let Ok(()) = places.wide.apply1(m, q) else {
        return Form::Over;
    };
    Form::Wide
}

/// The same of lanes of 64 bits out of which `roots` roots were taken, by the wide list, which takes the numbers with
/// their factor.
fn turn_spread(places: &mut Places, qubits: u32, m: &Mat2, q: u32, roots: u32) -> Form
    requires alike { ArePlaces qubits places.old }
    requires few { roots ≤ 192 }
    requires vector { IsVector qubits (with_factor roots places.old.narrow64.numbers) }
    requires qubit { q < qubits }
    ensures kept { IsKept qubits result places.new }
    ensures numbers { AfterMatrix (number_in m.now.rows) (q ∷ []) (Some (with_factor roots places.old.narrow64.numbers)) (held result places.new) }
{
    places.wide.spread_from(&places.narrow64, roots);
    turn_wide(places, qubits, m, q)
}

/// The same of lanes of 64 bits. Where they have no room, a common factor is taken out; where they have none then, the
/// wide list takes the numbers, and the matrix is applied there.
fn turn64(places: &mut Places, qubits: u32, m: &Mat2, q: u32, roots: u32) -> Form
    requires kept { IsKept qubits (Form.Narrow64 roots) places.old }
    requires qubit { q < qubits }
    ensures kept { IsKept qubits result places.new }
    ensures numbers { AfterMatrix (number_in m.now.rows) (q ∷ []) (held (Form.Narrow64 roots) places.old) (held result places.new) }
{
    let taken = places.narrow64.take_factor(m, MOST_ROOTS64 - roots);
    let Err(_) = try64(&mut places.narrow64, m, q) else {
        return Form::Narrow64(roots + taken);
    };
    turn_spread(places, qubits, m, q, roots + taken)
}

/// The same of lanes of 32 bits.
fn turn32(places: &mut Places, qubits: u32, m: &Mat2, q: u32, roots: u32) -> Form
    requires kept { IsKept qubits (Form.Narrow32 roots) places.old }
    requires qubit { q < qubits }
    ensures kept { IsKept qubits result places.new }
    ensures numbers { AfterMatrix (number_in m.now.rows) (q ∷ []) (held (Form.Narrow32 roots) places.old) (held result places.new) }
{
    let taken = places.narrow32.take_factor(m, MOST_ROOTS - roots);
    let Err(_) = try32(&mut places.narrow32, m, q) else {
        return Form::Narrow32(roots + taken);
    };
    places.narrow64.widen_from(&places.narrow32);
    if roots + taken > MOST_ROOTS64 {
        return turn_spread(places, qubits, m, q, roots + taken);
    }
    turn64(places, qubits, m, q, roots + taken)
}

/// The same of lanes of 16 bits.
fn turn16(places: &mut Places, qubits: u32, m: &Mat2, q: u32, roots: u32) -> Form
    requires kept { IsKept qubits (Form.Narrow16 roots) places.old }
    requires qubit { q < qubits }
    ensures kept { IsKept qubits result places.new }
    ensures numbers { AfterMatrix (number_in m.now.rows) (q ∷ []) (held (Form.Narrow16 roots) places.old) (held result places.new) }
{
    let taken = places.narrow16.take_factor(m, MOST_ROOTS - roots);
    let Err(_) = try16(&mut places.narrow16, m, q) else {
        return Form::Narrow16(roots + taken);
    };
    places.narrow32.widen_from(&places.narrow16);
    turn32(places, qubits, m, q, roots + taken)
}

/// Applies the matrix to qubit `q`, and tells the form from then on: the narrowest from this one on that the new
/// numbers fit.
pub(crate) fn turn1(form: Form, places: &mut Places, qubits: u32, m: &Mat2, q: u32) -> Form
    requires kept { IsKept qubits form places.old }
    requires qubit { q < qubits }
    ensures kept { IsKept qubits result places.new }
    ensures numbers { AfterMatrix (number_in m.now.rows) (q ∷ []) (held form places.old) (held result places.new) }
{
    match form {
        Form::Narrow16(roots) => turn16(places, qubits, m, q, roots),
        Form::Narrow32(roots) => turn32(places, qubits, m, q, roots),
        Form::Narrow64(roots) => turn64(places, qubits, m, q, roots),
        Form::Wide => turn_wide(places, qubits, m, q),
        Form::Over => Form::Over,
    }
}

/// Applies the matrix, each of whose rows has at most one entry, to the distinct qubits `q0` and `q1`. The form stays.
pub(crate) fn turn2(form: Form, places: &mut Places, qubits: u32, m: &Mat4, q0: u32, q1: u32)
    requires kept { IsKept qubits form places.old }
    requires first { q0 < qubits }
    requires second { q1 < qubits }
    requires apart { q0 ≢ q1 }
    requires single { IsTrue (are_single m.now.rows) }
    ensures kept { IsKept qubits form places.new }
    ensures numbers { AfterMatrix (number_in m.now.rows) (q0 ∷ q1 ∷ []) (held form places.old) (held form places.new) }
{
    match form {
        Form::Narrow16(_) => {
            let _ = places.narrow16.apply2(m, q0, q1);
        }
        Form::Narrow32(_) => {
            let _ = places.narrow32.apply2(m, q0, q1);
        }
        Form::Narrow64(_) => {
            let _ = places.narrow64.apply2(m, q0, q1);
        }
        Form::Wide => places.wide.apply2(m, q0, q1),
        Form::Over => (),
    }
}
