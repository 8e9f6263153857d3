//! Exact probabilities of a circuit that is not cut: they add up to 1, and each has one line.
//!
//! `all_probabilities` costs one evolution and eight products of coefficients for each basis index, and takes 64 bytes
//! an index for the evolution, twice where threads evolve, and 32 for the answer. `least` and the laws take no memory.
//! Nothing is rounded, and nothing here knows of cuts.
#![tactic(auto)]

mod form;
mod laws;
mod lines;
mod print;
mod prob;

pub use form::least;
pub use laws::{
    one_line_one_probability, one_text_of_probabilities, probabilities_add_up_to_one,
    probability_is_the_squared_magnitude,
};
pub use lines::prob_lines;
pub use print::print_prob;
pub use prob::{Prob, all_probabilities, chunk_probabilities};
