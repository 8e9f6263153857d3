//! The pairs of a grid.
ghost use Rattle.std.specs.Prelude.{◌≡◌, ◌≤◌, ◌<◌, ◌*◌};
ghost use Rattle.qh_limits.specs.Limits.{max_qubits};
ghost use Rattle.qh_gen.specs.Grids.{distance, is_alone, is_lower, is_upper, starts_at};

/// A grid of `rows` by `cols` qubits, of which it has 1 to 40. The qubit in row y and column x is number y·cols + x.
#[derive(Clone, Copy)]
pub(crate) struct Grid {
    pub(crate) rows: u32,
    pub(crate) cols: u32,
    ghost some_rows: { 1 ≤ rows },
    ghost some_cols: { 1 ≤ cols },
    ghost few: { rows * cols ≤ max_qubits },
}

/// Whether the pattern pairs this place with the next one, and the next one lies in the grid.
fn starts_at(pattern: u32, place: u32, places: u32) -> bool
    requires { place < places }
    ensures { result ≡ starts_at pattern place places }
{
    place % 2 == pattern / 2 && place + 1 < places
}

impl Grid {
    /// How many qubits the grid has.
    pub(crate) fn qubits(&self) -> u32
        ensures { result ≡ self.now.rows * self.now.cols }
    {
        self.rows * self.cols
    }

    /// How far the upper qubit of a pair lies above the lower one.
    pub(crate) fn distance(&self, pattern: u32) -> u32
        ensures value { result ≡ distance self.now.cols pattern }
        ensures some { 1 ≤ result }
        ensures few { result ≤ max_qubits }
    {
        if pattern % 2 == 0 { 1 } else { self.cols }
    }

    /// Whether the qubit is the lower one of a pair.
    pub(crate) fn is_lower(&self, pattern: u32, qubit: u32) -> bool
        requires { qubit < self.now.rows * self.now.cols }
        ensures { result ≡ is_lower self.now.rows self.now.cols pattern qubit }
    {
        if pattern % 2 == 0 {
            starts_at(pattern, qubit % self.cols, self.cols)
        } else {
            starts_at(pattern, qubit / self.cols, self.rows)
        }
    }

    /// Whether the qubit is the upper one of a pair.
    fn is_upper(&self, pattern: u32, qubit: u32) -> bool
        requires { qubit < self.now.rows * self.now.cols }
        ensures { result ≡ is_upper self.now.rows self.now.cols pattern qubit }
    {
        let distance = self.distance(pattern);
        distance <= qubit && self.is_lower(pattern, qubit - distance)
    }

    /// Whether the qubit is in no pair.
    pub(crate) fn is_alone(&self, pattern: u32, qubit: u32) -> bool
        requires { qubit < self.now.rows * self.now.cols }
        ensures { result ≡ is_alone self.now.rows self.now.cols pattern qubit }
    {
        !(self.is_lower(pattern, qubit) || self.is_upper(pattern, qubit))
    }
}
