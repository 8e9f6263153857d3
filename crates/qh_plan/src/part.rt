//! The qubits of part 1 as a text.
ghost use Rattle.std.specs.Prelude.{◌≡◌, ◌≢◌, ◌++◌, ◌∷◌, ◌<◌, [], ℕ, List, IfOk, IfErr, IfSome, IfNone, length};
ghost use Rattle.qh_plan.specs.Items.{AreNumbers, IsItemFault, items_of};

use crate::fault::PlanFault;
use qh_text::{find, number_of};
use std::alloc::Global;

/// The numbers of a list with single commas between them, as in `0,2,5`.
///
/// PartText names the first item that is empty, has a byte other than a digit or is above 4,294,967,295. The empty text
/// is one empty item. Whether the numbers are qubits is for `plan` to say.
pub fn read_part(alloc: Global, text: &str) -> Result<Vec<u32>, PlanFault>
    ensures numbers { IfOk result (λ v. AreNumbers (items_of text.now) v.items) }
    ensures refused { IfErr result (λ f. f ≢ PlanFault.Memory → IsItemFault (items_of text.now) f) }
{
    let mut numbers = Vec::new(alloc);
    let mut rest = text.as_bytes();
    loop {
        let (item, more) = first_item(rest);
        let Some(number) = number_of(item) else {
            let Ok(item) = u32::try_from(numbers.len()) else {
                return Err(PlanFault::Memory);
            };
            return Err(PlanFault::PartText { item });
        };
        let Ok(()) = numbers.push(number) else {
            return Err(PlanFault::Memory);
        };
        let Some(behind) = more else {
            return Ok(numbers);
        };
        rest = behind;
    }
}

/// The first item, and what stands behind its comma if it has one.
fn first_item(text: &[u8]) -> (&[u8], Option<&[u8]>)
    ensures head { (others : List (List ℕ)) × (items_of text.now ≡ result.0.now ∷ others) }
    ensures last { IfNone result.1 (items_of text.now ≡ result.0.now ∷ []) }
    ensures more { IfSome result.1 (λ rest. items_of text.now ≡ result.0.now ∷ items_of rest.now) }
    ensures shorter { IfSome result.1 (λ rest. length rest.now < length text.now) }
{
    let at = find(text, b',');
    if at == text.len() {
        return (text, None);
    }
    (&text[..at], Some(&text[at + 1..]))
}
