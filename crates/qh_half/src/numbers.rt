//! The numbers of a half, wherever they stand.
ghost use Rattle.std.specs.Prelude.{◌≡◌, ◌<◌, ◌^◌, IfSome, IsSome, IsNone, OnOk, OnErr};
ghost use Rattle.qh_limits.specs.Limits.{coefficient_bits};
ghost use Rattle.qh_ring.specs.Numbers.{IsWithin};
ghost use Rattle.qh_ring.specs.States.{at_index};
ghost use Rattle.qh_half.specs.declared.places.Places.{Places};
ghost use Rattle.qh_half.specs.Forms.{held, IsKept};

use crate::form::Form;
use crate::places::Places;
use crate::scaled::scaled;
use qh_kernel::Over;
use qh_ring::Omega;

/// The number at an index, of a form that has numbers; of another 0.
pub(crate) fn number_of(form: Form, places: &Places, qubits: u32, index: u32) -> Omega
    requires kept { IsKept qubits form places.now }
    requires index { index < 2 ^ qubits }
    ensures value { IfSome (held form places.now) (λ v. result ≡ at_index v index) }
    ensures bounded { IsWithin coefficient_bits result }
{
    match form {
        Form::Narrow16(roots) => scaled(&places.narrow16.at(index), roots),
        Form::Narrow32(roots) => scaled(&places.narrow32.at(index), roots),
        Form::Narrow64(roots) => scaled(&places.narrow64.at(index), roots),
        Form::Wide => places.wide.at(index),
        Form::Over => Omega::ZERO,
    }
}

/// Over exactly where the form has no numbers.
pub(crate) fn answer_of(form: Form) -> Result<(), Over>
    ensures ok { OnOk result ((p : Places) → IsSome (held form p)) }
    ensures over { OnErr result ((p : Places) → IsNone (held form p)) }
{
    match form {
        Form::Over => Err(Over),
        _ => Ok(()),
    }
}
