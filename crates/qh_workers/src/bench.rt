//! What a worker works with.
ghost use Rattle.std.specs.Prelude.{◌≡◌, IfErr};

use crate::ended::Ended;
use crate::gate::{Pass, Point, WorkerGate};
use qh_plan::Job;
use qh_prefix::PrefixCache;
use std::alloc::Global;
use std::sync::{Arc, Mutex};

/// What a worker shares with others, and its number.
#[derive(Drop)]
pub struct Bench<'a, R, K, W> {
    pub rt: &'a R,
    pub alloc: Global,
    pub job: &'a Arc<Job>,
    pub desk: &'a K,
    pub gate: &'a W,
    pub cache: &'a Mutex<PrefixCache>,
    pub worker: u32,
}

/// Passes the gate at a point: a gate that stops the worker there ends it.
pub fn pass<W: WorkerGate>(gate: &W, worker: u32, point: Point) -> Result<(), Ended>
    ensures cause { IfErr result (λ e. (e ≡ Ended.Quit) × W.may_quit gate.now) }
    ensures stopped { W.stops gate.now worker point → result ≡ Err Ended.Quit }
{
    match gate.pass(worker, point) {
        Pass::Go => Ok(()),
        Pass::Quit => Err(Ended::Quit),
    }
}
