//! The sums over some paths.
use qh_ring::Omega;
use std::marker::Model;

/// One number for each asked bitstring, in their order, each within 126 bits. Contracts see the list of numbers.
#[derive(Drop)]
pub struct Sums {
    values: Vec<Omega>,
}

impl Model for Sums {
    ghost use Rattle.std.specs.Prelude.{List, All};
    ghost use Rattle.qh_limits.specs.Limits.{coefficient_bits};
    ghost use Rattle.qh_ring.specs.declared.number.Omega.{Omega};
    ghost use Rattle.qh_ring.specs.Numbers.{IsWithin};

    ghost Value = { List Omega };

    ghost view = { λ s. s.values.items };

    ghost invariant = { λ s. All (IsWithin coefficient_bits) s.values.items };
}

impl Sums {
    ghost use Rattle.std.specs.Prelude.{◌≡◌, All};
    ghost use Rattle.qh_limits.specs.Limits.{coefficient_bits};
    ghost use Rattle.qh_ring.specs.Numbers.{IsWithin};

    /// Keeps these numbers, each of which is within 126 bits. It takes no memory.
    pub fn of(values: Vec<Omega>) -> Sums
        requires { All (IsWithin coefficient_bits) values.items }
        ensures { result ≡ values.items }
    {
        Sums { values }
    }

    /// The numbers in the order of the asked bitstrings.
    pub fn values(&self) -> &[Omega]
        ensures value { result.now ≡ self.now }
        ensures within { All (IsWithin coefficient_bits) self.now }
    {
        self.values.as_slice()
    }
}
