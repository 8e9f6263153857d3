//! What a run of turns makes of the numbers of a half.
ghost use Rattle.std.specs.Prelude.{◌≡◌, ◌<◌, ◌≤◌, length, take, All};
ghost use Rattle.qh_passes.specs.Turns.{matrix_in, qubits_in, IsTurnIn};
ghost use Rattle.qh_half.specs.Halves.{AfterMatrix, AfterTurns};
ghost use Rattle.qh_half.specs.Forms.{held, IsKept};

use crate::form::Form;
use crate::places::Places;
use crate::turns::{turn1, turn2};
use qh_passes::Turn;

/// Lets the lanes in use take first turns of the run, tile by tile, and tells how many they took. The form stays.
fn take_turns(form: Form, places: &mut Places, qubits: u32, run: &[Turn]) -> usize
    requires kept { IsKept qubits form places.old }
    requires turns { All (IsTurnIn qubits) run.now }
    ensures few { result ≤ length run.now }
    ensures kept { IsKept qubits form places.new }
    ensures numbers { AfterTurns (take result run.now) (held form places.old) (held form places.new) }
{
    match form {
        Form::Narrow16(_) => places.narrow16.apply_run(run),
        Form::Narrow32(_) => places.narrow32.apply_run(run),
        Form::Narrow64(_) => places.narrow64.apply_run(run),
        Form::Wide | Form::Over => 0,
    }
}

/// Applies one turn, and tells the form from then on.
fn turn_once(form: Form, places: &mut Places, qubits: u32, turn: &Turn) -> Form
    requires kept { IsKept qubits form places.old }
    requires turn { IsTurnIn qubits turn.now }
    ensures kept { IsKept qubits result places.new }
    ensures numbers { AfterMatrix (matrix_in turn.now) (qubits_in turn.now) (held form places.old) (held result places.new) }
{
    match turn {
        Turn::One { matrix, qubit } => turn1(form, places, qubits, matrix, *qubit),
        Turn::Two {
            matrix,
            first,
            second,
        } => {
            turn2(form, places, qubits, matrix, *first, *second);
            form
        }
    }
}

/// Applies first turns of the run, by tiles or else the first alone. Tells the form from then on, and how many.
fn turn_some(form: Form, places: &mut Places, qubits: u32, run: &[Turn]) -> (Form, usize)
    requires kept { IsKept qubits form places.old }
    requires turns { All (IsTurnIn qubits) run.now }
    requires some { 0 < length run.now }
    ensures some { 0 < result.1 }
    ensures few { result.1 ≤ length run.now }
    ensures kept { IsKept qubits result.0 places.new }
    ensures numbers { AfterTurns (take result.1 run.now) (held form places.old) (held result.0 places.new) }
{
    let taken = take_turns(form, places, qubits, run);
    if taken > 0 {
        return (form, taken);
    }
    (turn_once(form, places, qubits, &run[0]), 1)
}

/// Applies the run, first turn first, and tells the form from then on.
pub(crate) fn turn_all(form: Form, places: &mut Places, qubits: u32, run: &[Turn]) -> Form
    requires kept { IsKept qubits form places.old }
    requires turns { All (IsTurnIn qubits) run.now }
    ensures kept { IsKept qubits result places.new }
    ensures numbers { AfterTurns run.now (held form places.old) (held result places.new) }
{
    let mut form = form;
    let mut done = 0;
    while done < run.len() {
        let (next, taken) = turn_some(form, places, qubits, &run[done..]);
        form = next;
        done += taken;
    }
    form
}
