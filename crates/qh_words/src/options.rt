//! The options of a request.

use crate::size::GenSize;
use crate::text::Text;

/// What the words ask for: one field for each option that has an effect.
#[derive(Drop)]
pub struct Options {
    /// `-c`: the file of the circuit.
    pub circuit: Option<Text>,
    /// `-i`: the file of the bitstrings.
    pub bits: Option<Text>,
    /// `-k`: the qubits of part 1; without it the run is uncut.
    pub part: Option<Text>,
    /// `-o`: the file of the output; without it standard output.
    pub out: Option<Text>,
    /// `-d`: the greatest time of a gate that is kept, by default 4,294,967,295.
    pub max_time: u32,
    /// `-p`: how many crossing gates are prefix gates, 0 to 32, by default 0.
    pub p: u32,
    /// `-r`: how many crossing gates after them are root gates, 0 to 32, by default 0.
    pub r: u32,
    /// `-w`: the prefix value whose paths are summed; without it all.
    pub w: Option<u32>,
    /// `-g`: the circuit that is generated in place of files.
    pub generated: Option<GenSize>,
    /// `-j`: the file of the journal; without it none is kept.
    pub journal: Option<Text>,
    /// `--new`: the journal is emptied first.
    pub fresh: bool,
    /// `-t`: how many workers run at once, 1 to 16, by default 1.
    pub workers: u32,
    /// `-l`: after how many seconds the range of a worker is due and may be granted again, 0 to 86,400; without it never.
    pub lease: Option<u64>,
    /// `--from`: the file of a journal of the first format, from which an empty journal is filled.
    pub from: Option<Text>,
    /// `--prob`: the lines have probabilities in place of amplitudes.
    pub prob: bool,
}
