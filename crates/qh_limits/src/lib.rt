//! The limits of circuits, cuts, texts and numbers, each under one name, and counts that stay at their last value.
//!
//! Every crate that tests a limit takes its number from here, and every definition takes it from `specs/Limits.antt`;
//! `limits_are_stated` says that these are the same. Constants cost nothing, and a raise costs one addition. No limit is
//! tested here. `specs/Counts.antt` says what it means that a count rose, and `proofs/Chains.antt` how rises follow one
//! another.
#![tactic(auto)]

mod count;

ghost use Rattle.std.specs.Prelude.{◌≡◌};
ghost use Rattle.qh_limits.specs.Limits.{max_qubits, max_uncut_qubits, max_part_qubits, max_gates, max_crossing, max_path_bits, max_ranges, max_grants, max_bitstrings, max_circuit_bytes, max_bits_bytes, max_journal_bytes, coefficient_bits, product_bits, max_layers, max_weight, max_job_bytes, max_workers, max_lease, max_inputs};

pub use count::raise;

/// The most qubits of a circuit.
pub const MAX_QUBITS: u32 = 40;

/// The most qubits of a circuit that is simulated whole.
pub const MAX_UNCUT_QUBITS: u32 = 16;

/// The most qubits of a part.
pub const MAX_PART_QUBITS: u32 = 20;

/// The most gates of a circuit.
pub const MAX_GATES: usize = 4096;

/// The most gates across a cut.
pub const MAX_CROSSING: usize = 32;

/// At most 2 to this power are the paths of a cut circuit.
pub const MAX_PATH_BITS: u32 = 32;

/// The most ranges of a run.
pub const MAX_RANGES: u32 = 16384;

/// The most grants of one range.
pub const MAX_GRANTS: u32 = 16;

/// The most bitstrings that may be asked.
pub const MAX_BITSTRINGS: usize = 4096;

/// The most bytes of a circuit text.
pub const MAX_CIRCUIT_BYTES: usize = 1048576;

/// The most bytes of a bitstring text.
pub const MAX_BITS_BYTES: usize = 262144;

/// The most bytes of a journal.
pub const MAX_JOURNAL_BYTES: u64 = 1073741824;

/// The magnitude of each coefficient of a state is below 2 to this power.
pub const COEFFICIENT_BITS: u32 = 126;

/// The magnitude of each product of a coefficient of one half amplitude and one of the other is below 2 to this power.
pub const PRODUCT_BITS: u32 = 92;

/// The most layers of a generated grid.
pub const MAX_LAYERS: u32 = 100;

/// The most weight of a circuit whose probabilities are computed.
pub const MAX_WEIGHT: u32 = 120;

/// The most bytes of a job text that is read from a journal.
pub const MAX_JOB_BYTES: u64 = 1048576;

/// The most workers of a run.
pub const MAX_WORKERS: u32 = 16;

/// The most seconds of a lease: a day.
pub const MAX_LEASE: u32 = 86400;

/// The most journals that are merged at once.
pub const MAX_INPUTS: usize = 1024;

/// The constants are the limits that the definitions state.
pub fn limits_are_stated()
    ensures qubits { MAX_QUBITS ≡ max_qubits }
    ensures uncut_qubits { MAX_UNCUT_QUBITS ≡ max_uncut_qubits }
    ensures part_qubits { MAX_PART_QUBITS ≡ max_part_qubits }
    ensures gates { MAX_GATES ≡ max_gates }
    ensures crossing { MAX_CROSSING ≡ max_crossing }
    ensures path_bits { MAX_PATH_BITS ≡ max_path_bits }
    ensures ranges { MAX_RANGES ≡ max_ranges }
    ensures grants { MAX_GRANTS ≡ max_grants }
    ensures bitstrings { MAX_BITSTRINGS ≡ max_bitstrings }
    ensures circuit_bytes { MAX_CIRCUIT_BYTES ≡ max_circuit_bytes }
    ensures bits_bytes { MAX_BITS_BYTES ≡ max_bits_bytes }
    ensures journal_bytes { MAX_JOURNAL_BYTES ≡ max_journal_bytes }
    ensures coefficients { COEFFICIENT_BITS ≡ coefficient_bits }
    ensures products { PRODUCT_BITS ≡ product_bits }
    ensures layers { MAX_LAYERS ≡ max_layers }
    ensures weight { MAX_WEIGHT ≡ max_weight }
    ensures job_bytes { MAX_JOB_BYTES ≡ max_job_bytes }
    ensures workers { MAX_WORKERS ≡ max_workers }
    ensures lease { MAX_LEASE ≡ max_lease }
    ensures inputs { MAX_INPUTS ≡ max_inputs }
{}
