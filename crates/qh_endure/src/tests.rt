//! Tables of runs that stop, crash and go on, over an empty journal of Bell's circuit and of one with two ranges.
mod alone;
mod planted;
mod workers;

ghost use Rattle.std.specs.Prelude.{IfOk, IsTrue};
ghost use Rattle.std.specs.Option.{ForSome};
ghost use Rattle.qh_request.specs.Jobs.{request};
ghost use Rattle.qh_endure.specs.Outcomes.{KeepsOwnJournal};

use crate::tests::alone::{Alone, Told, answers};
use crate::{Round, endure};
use qh_disk::{MemDisk, Pick};
use qh_io::MemSink;
use qh_words::read_words;
use std::alloc::{AllocError, Global};
use std::process::Abort;
use std::test::Fail;

/// A circuit, and the words that ask for all amplitudes of it.
#[derive(Clone, Copy)]
struct Asked {
    words: &'static [&'static str],
    circuit: &'static [u8],
}

const BITS: &[u8] = b"00\n10\n01\n11\n";

const BELL_CIRCUIT: &[u8] = b"2\n0 h 0\n1 cnot 0 1\n";

const BELL: Asked = Asked {
    words: &["-c", "a", "-i", "b", "-k", "0", "-j", "j"],
    circuit: BELL_CIRCUIT,
};

const BELL_NEW: Asked = Asked {
    words: &["-c", "a", "-i", "b", "-k", "0", "-j", "j", "--new"],
    circuit: BELL_CIRCUIT,
};

/// Two crossing gates, and a range for each term of the first.
const TWO: Asked = Asked {
    words: &["-c", "a", "-i", "b", "-k", "0", "-p", "1", "-j", "j"],
    circuit: b"2\n0 h 0\n0 h 1\n1 cz 0 1\n2 h 0\n3 cz 0 1\n",
};

const BELL_TEXT: &[u8] = b"00 1 0 0 0 1\n10 0 0 0 0 0\n01 0 0 0 0 0\n11 1 0 0 0 1\n";

const BELL_TEXT_TWICE: &[u8] =
    b"00 1 0 0 0 1\n10 0 0 0 0 0\n01 0 0 0 0 0\n11 1 0 0 0 1\n00 1 0 0 0 1\n10 0 0 0 0 0\n01 0 0 0 0 0\n11 1 0 0 0 1\n";

const TWO_TEXT: &[u8] = b"00 1 0 0 0 1\n10 0 0 0 0 0\n01 0 0 0 0 0\n11 -1 0 0 0 1\n";

/// No journal of these tests is longer.
const ROOM: u64 = 800;

const UNBEGUN: Told = Told {
    status: 8,
    out: b"",
    err: b"journal: Unbegun\n",
};

const BELL_TOLD: Told = Told {
    status: 0,
    out: BELL_TEXT,
    err: b"",
};

/// A round that meets nothing.
const CALM: Round = Round {
    fail: None,
    stop: None,
    pick: Pick::New,
};

/// A round that stops after so many calls, and the crash behind it.
const fn stopped(stop: u64, pick: Pick) -> Round {
    Round {
        fail: None,
        stop: Some(stop),
        pick,
    }
}

/// What rounds leave.
#[derive(Drop)]
struct Left {
    status: u8,
    disk: MemDisk,
    out: MemSink,
}

fn strings(alloc: Global, all: &[&str]) -> Result<Vec<String>, AllocError> {
    let mut words = Vec::new(alloc);
    for word in all {
        words.push(String::from_str(alloc, word)?)?;
    }
    Ok(words)
}

/// Whether words ask for a cut run with a journal that takes over no old one.
fn keeps_own_journal(alloc: Global, words: &[String]) -> bool
    ensures { IsTrue result → ForSome (request words.now) KeepsOwnJournal }
{
    let Ok(options) = read_words(alloc, words) else {
        return false;
    };
    if options.part.is_none() {
        return false;
    }
    if options.journal.is_none() {
        return false;
    }
    options.from.is_none()
}

/// Endures these rounds over an empty journal.
fn endured(
    rt: &(impl Abort + AllocGlobal),
    words: &[String],
    circuit: &[u8],
    rounds: &[Round],
) -> Result<Left, Fail> {
    let alloc = rt.alloc();
    let mut disk = MemDisk::new(alloc, b"", ROOM, &[], None)?;
    let mut out = MemSink::new(alloc, 400, 400, &[])?;
    let own = keeps_own_journal(alloc, words);
    assert!(rt; own);
    assert!(rt; !rounds.is_empty());
    let status = endure(alloc, words, circuit, BITS, &mut disk, rounds, &mut out)?;
    Ok(Left { status, disk, out })
}

fn run_rounds(
    rt: &(impl Abort + AllocGlobal),
    asked: &Asked,
    rounds: &[Round],
) -> Result<Left, Fail> {
    let words = strings(rt.alloc(), asked.words)?;
    endured(rt, &words, asked.circuit, rounds)
}

/// Bell is stopped after so many calls and crashed, and run again. Where the second run does not print the text, it says that the journal is not begun, says
/// so again, and `--new` prints it.
fn stops_and_runs_again(
    rt: &(impl Abort + AllocGlobal),
    stop: u64,
    pick: Pick,
    second: u8,
) -> Result<(), Fail> {
    let mut left = run_rounds(rt, &BELL, &[stopped(stop, pick), CALM])?;
    assert_eq!(rt; left.status, second, "stop {stop}, {pick:?}");
    if second == 0 {
        assert_eq!(rt; left.out.bytes(), BELL_TEXT);
        return Ok(());
    }
    assert!(rt; left.out.bytes().is_empty());
    answers(rt, &Alone::of(&BELL), &mut left.disk, &UNBEGUN)?;
    answers(rt, &Alone::of(&BELL_NEW), &mut left.disk, &BELL_TOLD)
}

/// What the second run ends with, by the stop of the first and the crash: Old, New, `a5` and `37`.
const STOPPED: [(u64, [u8; 4]); 12] = [
    (0, [0, 0, 0, 0]),
    (1, [0, 0, 0, 0]),
    (2, [0, 0, 0, 0]),
    (3, [0, 8, 8, 8]),
    (4, [8, 8, 8, 8]),
    (5, [8, 8, 8, 8]),
    (6, [8, 8, 8, 8]),
    (7, [8, 0, 0, 8]),
    (8, [0, 0, 0, 0]),
    (9, [0, 0, 0, 0]),
    (10, [0, 0, 0, 0]),
    (11, [0, 0, 0, 0]),
];

fn crashes_in_each_way(
    rt: &(impl Abort + AllocGlobal),
    stop: u64,
    second: [u8; 4],
) -> Result<(), Fail> {
    let [old, new, mark, other] = second;
    stops_and_runs_again(rt, stop, Pick::Old, old)?;
    stops_and_runs_again(rt, stop, Pick::New, new)?;
    stops_and_runs_again(rt, stop, Pick::Byte(0xa5), mark)?;
    stops_and_runs_again(rt, stop, Pick::Byte(0x37), other)
}

#[test]
fn stopped_in_the_first_run(rt: HostRuntime) -> Result<(), Fail> {
    for (stop, second) in STOPPED {
        let first = run_rounds(&rt, &BELL, &[stopped(stop, Pick::New)])?;
        assert_eq!(rt; (first.status, first.out.bytes()), (5, b"".as_slice()));
        crashes_in_each_way(&rt, stop, second)?;
    }
    // Twelve calls are all that the first run makes.
    let whole = run_rounds(&rt, &BELL, &[stopped(12, Pick::Old), stopped(4, Pick::New)])?;
    assert_eq!(rt; (whole.status, whole.out.bytes()), (0, BELL_TEXT_TWICE));
    Ok(())
}

/// A finished journal is emptied by a run that stops after so many calls and crashes; the next run, without `--new`, ends so.
fn empties_and_runs_again(
    rt: &(impl Abort + AllocGlobal),
    stop: u64,
    pick: Pick,
    next: u8,
) -> Result<(), Fail> {
    let mut left = run_rounds(rt, &BELL_NEW, &[CALM, stopped(stop, pick)])?;
    assert_eq!(rt; (left.status, left.out.bytes()), (5, BELL_TEXT));
    left.disk.crash(pick);
    left.disk.again(None, None);
    let told = if next == 0 { &BELL_TOLD } else { &UNBEGUN };
    answers(rt, &Alone::of(&BELL), &mut left.disk, told)
}

/// By the stop of the run that empties: Old, New and `37`.
const EMPTIED: [(u64, [u8; 3]); 8] = [
    (0, [0, 0, 0]),
    (1, [0, 0, 0]),
    (2, [0, 0, 0]),
    (3, [0, 0, 0]),
    (4, [0, 8, 8]),
    (5, [8, 8, 8]),
    (6, [8, 0, 0]),
    (7, [0, 0, 0]),
];

#[test]
fn stopped_while_it_is_emptied(rt: HostRuntime) -> Result<(), Fail> {
    for (stop, [old, new, other]) in EMPTIED {
        empties_and_runs_again(&rt, stop, Pick::Old, old)?;
        empties_and_runs_again(&rt, stop, Pick::New, new)?;
        empties_and_runs_again(&rt, stop, Pick::Byte(0x37), other)?;
    }
    Ok(())
}

/// The barrier behind the second slot's body fails: the first range is recorded, the second is not, and the next run keeps the first.
#[test]
fn one_of_two_ranges(rt: HostRuntime) -> Result<(), Fail> {
    let fault = Round {
        fail: Some(14),
        stop: None,
        pick: Pick::Old,
    };
    let first = run_rounds(&rt, &TWO, &[fault])?;
    assert_eq!(rt; (first.status, first.out.bytes()), (5, b"".as_slice()));
    let gates = (
        first.disk.bytes().get(FIRST_GATE).copied(),
        first.disk.bytes().get(SECOND_GATE).copied(),
    );
    assert_eq!(rt; gates, (Some(0xa5), Some(0)));
    let both = run_rounds(&rt, &TWO, &[fault, CALM])?;
    assert_eq!(rt; (both.status, both.out.bytes()), (0, TWO_TEXT));
    Ok(())
}

/// Where the gates of the two ranges stand: behind a head of 32 bytes and a job text of 99, and a slot of 266 bytes further.
const FIRST_GATE: usize = 131;

const SECOND_GATE: usize = 397;
