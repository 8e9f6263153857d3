//! Laws between the definitions, each the contract of a call that does nothing.
ghost use Rattle.std.specs.Prelude.{◌≡◌, ◌≢◌, ℕ, List, Some, IsSome, codes};
ghost use Rattle.qh_gates.specs.Circuits.{Circuit as CircuitValue};
ghost use Rattle.qh_plan.specs.Items.{items_of, IsFirstBad};
ghost use Rattle.qh_words.specs.declared.options.Options.{Options as OptionsValue};
ghost use Rattle.qh_request.specs.Answer.{IsAnswer};
ghost use Rattle.qh_request.specs.Refusals.{RefusesAll};

use qh_disk::Disk;

/// Options, a circuit and strings ask for one text, and, where a journal is kept, with it the slots that its disk tells.
pub fn one_answer<D: Disk>(after: &D)
    ensures { (o : OptionsValue) (c : CircuitValue) (strings : List (List ℕ)) (s t : List ℕ) → (IsSome o.journal → IsSome (D.face after.now).content)
        → IsAnswer o (D.face after.now) c strings s → IsAnswer o (D.face after.now) c strings t → s ≡ t }
{}

/// A text of part 1 that is no list of numbers, and does not ask for the cheapest cut, is refused, whatever the circuit and
/// the bitstrings.
pub fn bad_part_is_refused()
    ensures { (o : OptionsValue) (part : List ℕ) (item : ℕ) → o.part ≡ Some part → part ≢ codes "auto" → IsFirstBad (items_of part) item → RefusesAll o }
{}
