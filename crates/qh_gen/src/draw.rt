//! Draws gates.
ghost use Rattle.std.specs.Prelude.{◌≡◌, ◌/◌, ◌^◌};
ghost use Rattle.qh_gen.specs.Drawings.{drawn_kind, next_state};

use qh_gates::Kind;

/// The state that a drawing leaves, by the multiplier and the increment of Knuth's MMIX.
pub(crate) fn next_state(state: u64) -> u64
    ensures { result ≡ next_state state }
{
    state
        .wrapping_mul(6364136223846793005)
        .wrapping_add(1442695040888963407)
}

/// The gate that is drawn with this new state: `t`, `x_1_2` or `y_1_2`.
pub(crate) fn drawn_kind(state: u64) -> Kind
    ensures { result ≡ drawn_kind (state / 2 ^ 33) }
{
    let number = state >> 33;
    if number % 3 == 0 {
        Kind::T
    } else if number % 3 == 1 {
        Kind::X12
    } else {
        Kind::Y12
    }
}
