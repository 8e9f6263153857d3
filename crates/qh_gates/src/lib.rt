//! Gates and circuits: a gate is one row of one table, and a circuit is valid by its type.
//!
//! Reading a table costs a few steps. `Circuit::check` goes once over the gates, and `push` takes the memory of
//! one gate. It knows nothing of texts, cuts or states; what a circuit does to a state is defined in `specs/`.
#![tactic(auto)]

mod circuit;
mod gate;
mod kind;
mod term;

pub use circuit::Circuit;
pub use gate::{Gate, GateFault};
pub use kind::{Kind, arity, kind_of, matrix1, matrix2, name_of, scaled};
pub use term::{Term, TermList, terms, terms_add_up};
