//! Opens the journal of a run: what is there, what a journal of the first format gives, or a new one.
//!
//! `open_journal` reads the journal once, twice where an old one is taken over, and writes it only to empty it, to make a
//! new one or to take the old one over. Of the old disk it reads the length and the bytes, and only where an empty journal
//! is to take it over. It stores no verdict of its own. `migrate`, the way from the first format to the second, reads the
//! old file once and writes the new one once, in memory for all verdicts and for one slot. It never writes to the old file.
//! While it runs, a crash leaves of the new file an empty one, one whose header is closed, or the whole journal.
#![tactic(auto)]

mod fault;
mod migrating;
mod moving;
mod open_fault;
mod opening;

pub use fault::{MigrateFault, OldRefusal};
pub use migrating::migrate;
pub use open_fault::OpenFault;
pub use opening::open_journal;
