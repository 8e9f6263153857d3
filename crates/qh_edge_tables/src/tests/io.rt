//! What no clause can say: that the calls succeed with memory at hand, and what becomes of real files.
use qh_io::{
    ErrSink, Failed, FileSink, FileSource, MemSink, MemSource, ReadAllFault, Sink, Source,
    WriteFault, read_all, write_all_of,
};
use std::os::fd::AsRawFd;
use std::process::Abort;
use std::test::Fail;
use std::{fs, io};

// Reads `text` in pieces, where these calls fail, and compares the bytes or the refusal.
fn expect_read(
    rt: &(impl Abort + AllocGlobal),
    text: &str,
    piece: usize,
    limit: usize,
    fails: &[u64],
    want: Result<&str, ReadAllFault>,
) -> Result<(), Fail> {
    assert!(rt; 1 <= piece && limit <= 1 << 20);
    let mut source = MemSource::new(rt.alloc(), text.as_bytes(), piece, fails)?;
    let read = read_all(rt.alloc(), &mut source, limit);
    match (&read, want) {
        (Ok(bytes), Ok(text)) => {
            assert_eq!(rt;
                bytes.as_slice(),
                text.as_bytes(),
                "{text} at {piece}, {limit}"
            );
        }
        (Err(fault), Err(why)) => assert_eq!(rt; *fault, why, "{text} at {piece}, {limit}"),
        _ => assert!(rt; false, "{text} at {piece}, {limit}"),
    }
    Ok(())
}

#[test]
fn reads_up_to_the_end(rt: HostRuntime) -> Result<(), Fail> {
    let fault = Err(ReadAllFault::Fault);
    let too_long = Err(ReadAllFault::TooLong);
    for (text, piece, limit, fails, want) in [
        ("", 1, 0, [].as_slice(), Ok("")),
        ("abcdefg", 3, 7, [].as_slice(), Ok("abcdefg")),
        ("abcdefg", 9000, 100, [].as_slice(), Ok("abcdefg")),
        ("abcdefg", 3, 6, [].as_slice(), too_long),
        ("a", 1, 0, [].as_slice(), too_long),
        ("abcdefg", 3, 7, [1].as_slice(), fault),
        ("abcdefg", 3, 7, [9, 4].as_slice(), fault),
        ("abcdefg", 3, 7, [5].as_slice(), Ok("abcdefg")),
    ] {
        expect_read(&rt, text, piece, limit, fails, want)?;
    }
    Ok(())
}

#[test]
fn writes_up_to_a_fault(rt: HostRuntime) -> Result<(), Fail> {
    for (room, piece, fails, want, held) in [
        (7, 3, [].as_slice(), Ok(()), "abcdefg"),
        (9000, 9000, [].as_slice(), Ok(()), "abcdefg"),
        (
            6,
            4,
            [].as_slice(),
            Err(WriteFault { written: 6 }),
            "abcdef",
        ),
        (7, 2, [2].as_slice(), Err(WriteFault { written: 2 }), "ab"),
        (7, 2, [1].as_slice(), Err(WriteFault { written: 0 }), ""),
        (7, 2, [5].as_slice(), Ok(()), "abcdefg"),
    ] {
        assert!(rt; 1 <= piece);
        let mut sink = MemSink::new(rt.alloc(), room, piece, fails)?;
        assert_eq!(rt;
            write_all_of(&mut sink, "abcdefg".as_bytes()),
            want,
            "{held}"
        );
        assert_eq!(rt; sink.bytes(), held.as_bytes());
    }
    Ok(())
}

#[test]
fn a_file_is_replaced_at_the_first_write(rt: HostRuntime) -> Result<(), Fail> {
    let path = "qh_io_tests.txt";
    fs::write(&rt, path, "what stood there")?;
    let mut sink = FileSink::new(&rt, Some(String::from_str(rt.alloc(), path)?));
    assert_eq!(rt; fs::read_to_string(&rt, path)?.as_str(), "what stood there");
    assert_eq!(rt; write_all_of(&mut sink, "one ".as_bytes()), Ok(()));
    assert_eq!(rt; write_all_of(&mut sink, "two".as_bytes()), Ok(()));
    let mut source = FileSource::new(&rt, Some(String::from_str(rt.alloc(), path)?));
    let read = read_all(rt.alloc(), &mut source, 100);
    fs::remove_file(&rt, path)?;
    let Ok(bytes) = read else {
        panic!(rt; "the file was not read");
    };
    assert_eq!(rt; bytes.as_slice(), b"one two".as_slice());
    Ok(())
}

#[derive(Clone, Copy, Debug)]
enum Edge {
    Source,
    Sink,
}

// Makes two calls on the file of this path: reads of four bytes, or writes of one.
fn call_twice(
    rt: &HostRuntime,
    edge: Edge,
    path: &str,
) -> Result<[Result<usize, Failed>; 2], Fail> {
    let path = Some(String::from_str(rt.alloc(), path)?);
    let mut buf = [0u8; 4];
    match edge {
        Edge::Source => {
            let mut source = FileSource::new(rt, path);
            Ok([source.read(&mut buf), source.read(&mut buf)])
        }
        Edge::Sink => {
            let mut sink = FileSink::new(rt, path);
            Ok([sink.write(b"x"), sink.write(b"x")])
        }
    }
}

// What the system refuses, it refuses whoever asks, the user root too.
#[test]
fn what_the_system_refuses_fails(rt: HostRuntime) -> Result<(), Fail> {
    let rows = [
        (Edge::Source, "qh_io_no_such_file", Err(Failed)),
        (Edge::Source, "qh_io_no_such_folder/file", Err(Failed)),
        (Edge::Source, "", Err(Failed)),
        (Edge::Source, "a\0b", Err(Failed)),
        // A directory can be opened, and this process's memory has nothing at 0: no read succeeds.
        (Edge::Source, ".", Err(Failed)),
        (Edge::Source, "/proc/self/mem", Err(Failed)),
        // This file may be written alone.
        (Edge::Source, "/proc/self/clear_refs", Err(Failed)),
        (Edge::Source, "/dev/null", Ok(0)),
        (Edge::Sink, "qh_io_no_such_folder/file", Err(Failed)),
        (Edge::Sink, "", Err(Failed)),
        (Edge::Sink, "a\0b", Err(Failed)),
        (Edge::Sink, ".", Err(Failed)),
        // This device can be opened, and is full.
        (Edge::Sink, "/dev/full", Err(Failed)),
        // This file may be read alone.
        (Edge::Sink, "/proc/version", Err(Failed)),
        (Edge::Sink, "/dev/null", Ok(1)),
    ];
    for (edge, path, want) in rows {
        assert_eq!(rt;
            call_twice(&rt, edge, path)?,
            [want, want],
            "{edge:?} {path}"
        );
    }
    let mut nameless = FileSource::new(&rt, None);
    assert_eq!(rt; nameless.read(&mut [0u8; 4]), Err(Failed));
    Ok(())
}

#[test]
fn a_closed_pipe_fails(rt: HostRuntime) -> Result<(), Fail> {
    let (reader, writer) = io::pipe(&rt)?;
    let path = format!(in rt.alloc(); "/proc/self/fd/{}", writer.as_raw_fd())?;
    let mut sink = FileSink::new(&rt, Some(path));
    assert_eq!(rt; sink.write(b"x"), Ok(1));
    drop(reader);
    assert_eq!(rt; sink.write(b"x"), Err(Failed));
    Ok(())
}

#[test]
fn standard_streams_take_text(rt: HostRuntime) {
    let mut out = FileSink::new(&rt, None);
    assert_eq!(rt;
        write_all_of(&mut out, "to standard output\n".as_bytes()),
        Ok(())
    );
    let mut err = ErrSink::new(&rt);
    assert_eq!(rt;
        write_all_of(&mut err, "to standard error\n".as_bytes()),
        Ok(())
    );
    assert_eq!(rt;
        write_all_of(&mut err, b"ab\xff\n"),
        Err(WriteFault { written: 2 })
    );
}
