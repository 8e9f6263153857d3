//! Runs one after the other, with a crash between two.
ghost use Rattle.std.specs.Prelude.{◌≡◌, ◌≢◌, ◌<◌, ◌⊎◌, length, None, Ok, IfOk};
ghost use Rattle.std.specs.Option.{ForSome};
ghost use Rattle.qh_limits.specs.Counts.{Rose};
ghost use Rattle.qh_disk.specs.History.{face_of, content_of};
ghost use Rattle.qh_disk.specs.Moments.{Runs};
ghost use Rattle.qh_slots.specs.Moments.{IsEmptyAt};
ghost use Rattle.qh_request.specs.Jobs.{request};
ghost use Rattle.qh_endure.specs.Outcomes.{KeepsOwnJournal, IsMadeSince, IsMadeNow, EndsWithAnswer, IsRefused, IsOver, RefusesFile, Proceeds, Ends};

use crate::round::Round;
use crate::text_source::TextSource;
use qh_disk::MemDisk;
use qh_io::MemSink;
use qh_lease::ScriptTimer;
use qh_top::qsimh_alone;
use std::alloc::{AllocError, Global};

/// No message of a run is longer.
const MESSAGE_ROOM: usize = 2048;

/// Runs the request of the words over the two texts once for each round, with the crash of each round but the last behind its run, and answers the last
/// status.
///
/// Each run has a timer that is never due and a sink of its own for its message, and appends to `out`. AllocError is want of memory for these.
pub fn endure(
    alloc: Global,
    words: &[String],
    circuit: &[u8],
    bits: &[u8],
    disk: &mut MemDisk,
    rounds: &[Round],
    out: &mut MemSink,
) -> Result<u8, AllocError>
    requires journal { ForSome (request words.now) KeepsOwnJournal }
    requires rounds { 0 < length rounds.now }
    requires empty { IsEmptyAt (face_of disk.old).clock (face_of disk.old) }

    // Each image at each moment was made by runs of the job that is asked for, also where memory lacks.
    ensures made { IsMadeSince (request words.now) circuit.now bits.now (face_of disk.old).clock (face_of disk.new) }
    ensures moments { Runs (face_of disk.old) (face_of disk.new) }

    // With status 0 the output ends with the asked text.
    ensures answer { result ≡ Ok 0 → EndsWithAnswer (request words.now) circuit.now bits.now out.new.held }

    // 1 and 2 come exactly where the words are no request or one that is refused, but for want of memory.
    ensures usage { request words.now ≡ None → IfOk result (λ status. (status ≡ 1) ⊎ (status ≡ 7)) }
    ensures usage_only { result ≡ Ok 1 → request words.now ≡ None }
    ensures refused { IsRefused (request words.now) circuit.now bits.now → IfOk result (λ status. (status ≡ 2) ⊎ (status ≡ 7)) }
    ensures refused_only { result ≡ Ok 2 → IsRefused (request words.now) circuit.now bits.now }

    // The other statuses come only for their causes.
    ensures over { result ≡ Ok 3 → IsOver (request words.now) circuit.now bits.now }
    ensures all_read { result ≢ Ok 4 }
    ensures disk_fault { result ≡ Ok 5 → Rose disk.old.faults disk.new.faults }
    ensures write_fault { result ≡ Ok 6 → Rose out.old.faults out.new.faults }
    ensures journal_refused { result ≡ Ok 8 → RefusesFile (request words.now) circuit.now bits.now (content_of disk.new) }
{
    let mut status = run(alloc, words, circuit, bits, disk, rounds[0], out)?;
    for next in 1..rounds.len() {
        disk.crash(rounds[next - 1].pick);
        status = run(alloc, words, circuit, bits, disk, rounds[next], out)?;
    }
    Ok(status)
}

/// The run of a round, over a journal that runs of the job made.
fn run(
    alloc: Global,
    words: &[String],
    circuit: &[u8],
    bits: &[u8],
    disk: &mut MemDisk,
    round: Round,
    out: &mut MemSink,
) -> Result<u8, AllocError>
    requires journal { ForSome (request words.now) KeepsOwnJournal }
    requires made { IsMadeNow (request words.now) circuit.now bits.now (face_of disk.old) }
    ensures proceeds { Proceeds (request words.now) circuit.now bits.now disk.old disk.new out.old out.new }
    ensures ends { IfOk result (Ends (request words.now) circuit.now bits.now disk.old disk.new out.old out.new) }
{
    disk.again(round.fail, round.stop);
    call(alloc, words, circuit, bits, disk, out)
}

/// One call, with what else it takes.
fn call(
    alloc: Global,
    words: &[String],
    circuit: &[u8],
    bits: &[u8],
    disk: &mut MemDisk,
    out: &mut MemSink,
) -> Result<u8, AllocError>
    requires journal { ForSome (request words.now) KeepsOwnJournal }
    requires made { IsMadeNow (request words.now) circuit.now bits.now (face_of disk.old) }
    ensures proceeds { Proceeds (request words.now) circuit.now bits.now disk.old disk.new out.old out.new }
    ensures ends { IfOk result (Ends (request words.now) circuit.now bits.now disk.old disk.new out.old out.new) }
{
    let mut message = MemSink::new(alloc, MESSAGE_ROOM, MESSAGE_ROOM, &[])?;
    let mut none = MemDisk::new(alloc, &[], 0, &[], None)?;
    let mut timer = ScriptTimer::new(alloc, &[])?;
    let mut circuit = TextSource { left: circuit };
    let mut bits = TextSource { left: bits };
    Ok(qsimh_alone(
        alloc,
        words,
        &mut circuit,
        &mut bits,
        out,
        &mut message,
        disk,
        &mut none,
        &mut timer,
    ))
}
