//! Laws between the definitions, each the contract of a call that does nothing.
ghost use Rattle.std.specs.Prelude.{◌≡◌, ◌^◌, ℕ, Bool};
ghost use Rattle.qh_gates.specs.Circuits.{Circuit, IsCircuit};
ghost use Rattle.qh_plan.specs.Paths.{path_count, radices};
ghost use Rattle.qh_plan.specs.Jobs.{Job as JobValue, IsJob};
ghost use Rattle.qh_plan.specs.Plans.{path_bits};
ghost use Rattle.qh_plan.specs.Texts.{job_text};

/// Two jobs have one text only where they are one job: the same circuit, part 1, split, prefix value and bitstrings.
pub fn one_text_one_job()
    ensures { (j k : JobValue) → IsJob j → IsJob k → job_text j ≡ job_text k → j ≡ k }
{}

/// The number of paths of a circuit and a cut is 2 to the power that TooManyPaths names.
pub fn path_counts_are_powers_of_two()
    ensures { (c : Circuit) (one : ℕ → Bool) → IsCircuit c → path_count (radices one c.gates) ≡ 2 ^ path_bits (radices one c.gates) }
{}
