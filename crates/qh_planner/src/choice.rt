//! The row to take.
ghost use Rattle.std.specs.Prelude.{◌≡◌, ◌≤◌, ◌<◌, ◌∷◌, ◌++◌, [], ℕ, List, All, Some, IfSome, IfNone};
ghost use Rattle.qh_planner.specs.declared.row.CutRow.{CutRow as Row};
ghost use Rattle.qh_planner.specs.Choice.{IsCheapest, IsRefused, cost_of};
ghost use Rattle.qh_planner.specs.Best.{IsBest};

use crate::row::{CutAnswer, CutRow};

/// A row's size and cost.
#[derive(Clone, Copy)]
struct Choice {
    size: u32,
    cost: u64,
}

/// The size of the first row of least cost. None exactly where no row is allowed. It takes no memory.
pub fn cheapest(table: &[CutRow]) -> Option<u32>
    ensures none { IfNone result (All IsRefused table.now) }
    ensures first { IfSome result (λ m. (cost : ℕ) × IsCheapest table.now m cost) }
{
    let mut best = None;
    for row in table {
        best = cheaper(best, row);
    }
    match best {
        Some(choice) => Some(choice.size),
        None => None,
    }
}

/// The best so far, or the row where it is allowed and cheaper.
fn cheaper(best: Option<Choice>, row: &CutRow) -> Option<Choice>
    ensures { (rows : List Row) → IsBest rows best → IsBest (rows ++ row.now ∷ []) result }
{
    match row.answer {
        CutAnswer::Refused(_) => best,
        CutAnswer::Allowed { cost, .. } => {
            let found = Choice {
                size: row.size,
                cost,
            };
            Some(cheaper_of(best, found))
        }
    }
}

/// The cheaper of the two, and the first where they cost the same.
fn cheaper_of(best: Option<Choice>, found: Choice) -> Choice
    ensures { (rows : List Row) (row : Row) → IsBest rows best → row.size ≡ found.size → cost_of row.answer ≡ Some found.cost → IsBest (rows ++ row ∷ []) (Some result) }
{
    match best {
        None => found,
        Some(choice) => lesser(choice, found),
    }
}

fn lesser(choice: Choice, found: Choice) -> Choice
    ensures first { choice.cost ≤ found.cost → result ≡ choice }
    ensures second { found.cost < choice.cost → result ≡ found }
{
    if choice.cost <= found.cost {
        choice
    } else {
        found
    }
}
