//! Lines, and a sink that fails within them.
use qh_io::{MemSink, say, say_number, say_numbers};
use std::test::Fail;

#[test]
fn lines(rt: HostRuntime) -> Result<(), Fail> {
    let mut sink = MemSink::new(rt.alloc(), 60, 3, &[])?;
    assert!(rt; say(&mut sink, "no input\n".as_bytes()));
    assert!(rt; say_number(&mut sink, "path ", 4294967296, "\n"));
    assert!(rt; say_numbers(&mut sink, "unequal ", 0, 16383));
    assert_eq!(rt;
        sink.bytes(),
        b"no input\npath 4294967296\nunequal 0 16383\n".as_slice()
    );
    Ok(())
}

#[test]
fn fronts(rt: HostRuntime) -> Result<(), Fail> {
    let mut sink = MemSink::new(rt.alloc(), 60, 60, &[2])?;
    assert!(rt; !say_numbers(&mut sink, "unequal ", 7, 9));
    assert_eq!(rt; sink.bytes(), b"unequal ".as_slice());
    Ok(())
}
