//! One call by itself, over a journal that stands.
use crate::tests::{Asked, BELL, BELL_CIRCUIT, BITS, strings};
use qh_disk::MemDisk;
use qh_io::{MemSink, MemSource};
use qh_lease::ScriptTimer;
use qh_top::qsimh_alone;
use std::process::Abort;
use std::test::Fail;

/// What a call answers: its status, its output and its message.
#[derive(Clone, Copy)]
pub(super) struct Told {
    pub(super) status: u8,
    pub(super) out: &'static [u8],
    pub(super) err: &'static [u8],
}

/// What a call is asked, and which of the reads of its two sources and of the writes of its output fail. An old journal reads as these bytes.
#[derive(Clone, Copy)]
pub(super) struct Alone<'a> {
    asked: Asked,
    fails: [&'a [u64]; 3],
    old: &'a [u8],
}

impl<'a> Alone<'a> {
    pub(super) fn of(asked: &Asked) -> Alone<'a> {
        Alone::over(asked, b"")
    }

    pub(super) fn over(asked: &Asked, old: &'a [u8]) -> Alone<'a> {
        Alone {
            asked: *asked,
            fails: [&[], &[], &[]],
            old,
        }
    }
}

/// Makes the call, and compares what it answers. The old journal stays as it is.
pub(super) fn answers(
    rt: &(impl Abort + AllocGlobal),
    call: &Alone<'_>,
    disk: &mut MemDisk,
    told: &Told,
) -> Result<(), Fail> {
    let alloc = rt.alloc();
    let words = strings(alloc, call.asked.words)?;
    let mut circuit = MemSource::new(alloc, call.asked.circuit, 3, call.fails[0])?;
    let mut bits = MemSource::new(alloc, BITS, 2, call.fails[1])?;
    let mut out = MemSink::new(alloc, 400, 10, call.fails[2])?;
    let mut err = MemSink::new(alloc, 100, 100, &[])?;
    assert!(rt; call.old.len() <= 800);
    let mut old = MemDisk::new(alloc, call.old, 800, &[], None)?;
    let mut timer = ScriptTimer::new(alloc, &[])?;
    let status = qsimh_alone(
        alloc,
        &words,
        &mut circuit,
        &mut bits,
        &mut out,
        &mut err,
        disk,
        &mut old,
        &mut timer,
    );
    assert_eq!(rt; (status, err.bytes()), (told.status, told.err));
    assert_eq!(rt; out.bytes(), told.out);
    assert_eq!(rt; old.bytes(), call.old);
    Ok(())
}

/// Bell with a journal of its own, where one read or write fails.
fn fails(rt: &(impl Abort + AllocGlobal), which: [&[u64]; 3], told: &Told) -> Result<(), Fail> {
    let call = Alone {
        fails: which,
        ..Alone::of(&BELL)
    };
    let mut disk = MemDisk::new(rt.alloc(), b"", 400, &[], None)?;
    answers(rt, &call, &mut disk, told)
}

/// The circuit has 19 bytes and is read by threes, the bitstrings 12 by twos.
#[test]
fn each_read_fails(rt: HostRuntime) -> Result<(), Fail> {
    assert_eq!(rt; (BELL_CIRCUIT.len(), BITS.len()), (19, 12));
    for number in 1..=8 {
        let told = Told {
            status: 4,
            out: b"",
            err: b"read fault: circuit\n",
        };
        fails(&rt, [&[number], &[], &[]], &told)?;
    }
    for number in 1..=7 {
        let told = Told {
            status: 4,
            out: b"",
            err: b"read fault: bitstrings\n",
        };
        fails(&rt, [&[], &[number], &[]], &told)?;
    }
    Ok(())
}

/// The text goes out in tens: the write that fails, what went out before it, and the message.
const WRITES: [(u64, &[u8], &[u8]); 6] = [
    (1, b"", b"write fault after 0 bytes\n"),
    (2, b"00 1 0 0 0", b"write fault after 10 bytes\n"),
    (3, b"00 1 0 0 0 1\n10 0 0 ", b"write fault after 20 bytes\n"),
    (
        4,
        b"00 1 0 0 0 1\n10 0 0 0 0 0\n01 0",
        b"write fault after 30 bytes\n",
    ),
    (
        5,
        b"00 1 0 0 0 1\n10 0 0 0 0 0\n01 0 0 0 0 0\n1",
        b"write fault after 40 bytes\n",
    ),
    (
        6,
        b"00 1 0 0 0 1\n10 0 0 0 0 0\n01 0 0 0 0 0\n11 1 0 0 0 ",
        b"write fault after 50 bytes\n",
    ),
];

#[test]
fn each_write_fails(rt: HostRuntime) -> Result<(), Fail> {
    for (number, out, err) in WRITES {
        let told = Told {
            status: 6,
            out,
            err,
        };
        fails(&rt, [&[], &[], &[number]], &told)?;
    }
    Ok(())
}
