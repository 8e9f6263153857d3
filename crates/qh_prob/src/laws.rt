//! Laws of the definitions, each the contract of a call that does nothing.
ghost use Rattle.qh_prob.specs.Laws.{AddUpToOne, HasOneReading, IsSquaredMagnitude};
ghost use Rattle.qh_prob.specs.Texts.{HaveOneText};

/// P + Q√2 is the number times its complex conjugate, in the ring itself.
pub fn probability_is_the_squared_magnitude()
    ensures { IsSquaredMagnitude }
{}

/// The probabilities of all basis indices of a circuit add up to 1, of however many qubits and gates.
pub fn probabilities_add_up_to_one()
    ensures { AddUpToOne }
{}

/// A line is that of one bitstring, probability and power alone.
pub fn one_line_one_probability()
    ensures { HasOneReading }
{}

/// A circuit and basis indices have one text of probabilities.
pub fn one_text_of_probabilities()
    ensures { HaveOneText }
{}
