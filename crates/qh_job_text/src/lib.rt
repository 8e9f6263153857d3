//! Reads the text of a job: one spelling alone is a job's, and it is the text of that job and of no other.
//!
//! The reader goes a few times over the text and plans the job that it finds there. It takes memory for the job and
//! for its text. It reads no other text, and it knows nothing of journals.
#![tactic(auto)]

mod fault;
mod reading;

pub use fault::JobTextFault;
pub use reading::read_job_text;
