//! What the clauses mean, on texts written by hand.
use qh_job_text::{JobTextFault, read_job_text};
use std::process::Abort;
use std::test::Fail;

#[test]
fn texts_of_jobs(rt: HostRuntime) -> Result<(), Fail> {
    for text in [
        b"job 1\npart 0\nsplit 0 0\nprefix all\nbits 4\n00\n10\n01\n11\ngates 2\n2\n0 h 0\n1 cnot 0 1\n".as_slice(),
        b"job 1\npart 0\nsplit 1 1\nprefix 1\nbits 1\n00\ngates 3\n2\n0 cz 0 1\n1 cz 0 1\n2 cz 0 1\n".as_slice(),
        b"job 1\npart 1 2\nsplit 0 0\nprefix all\nbits 1\n001\ngates 1\n3\n4294967295 is 1 0\n".as_slice(),
    ] {
        let job = read_job_text(rt.alloc(), text)?;
        assert_eq!(rt; job.text(), text);
    }
    Ok(())
}

#[test]
fn a_text_read(rt: HostRuntime) -> Result<(), Fail> {
    let text =
        b"job 1\npart 0 2\nsplit 1 0\nprefix 1\nbits 2\n010\n110\ngates 2\n3\n0 cz 0 1\n5 h 2\n";
    let job = read_job_text(rt.alloc(), text.as_slice())?;
    assert_eq!(rt; job.circuit().qubits(), 3);
    assert_eq!(rt; job.circuit().gates().len(), 2);
    assert_eq!(rt;
        (job.in_one(0), job.in_one(1), job.in_one(2)),
        (true, false, true)
    );
    assert_eq!(rt; job.split(), (1, 0));
    assert_eq!(rt; job.prefix_value(), Some(1));
    assert_eq!(rt; job.bits(), [2, 3].as_slice());
    Ok(())
}

#[test]
fn texts_of_no_job(rt: HostRuntime) -> Result<(), Fail> {
    for text in [
        // Nothing, and no prefix line.
        b"".as_slice(),
        b"job 1\npart 0\nsplit 0 0\nbits 1\n00\ngates 0\n2\n".as_slice(),
        // A leading zero, a space at an end of line, and a plus sign.
        b"job 1\npart 0\nsplit 0 00\nprefix all\nbits 1\n00\ngates 0\n2\n".as_slice(),
        b"job 1\npart 0 \nsplit 0 0\nprefix all\nbits 1\n00\ngates 0\n2\n".as_slice(),
        b"job 1\npart 0\nsplit +0 0\nprefix all\nbits 1\n00\ngates 0\n2\n".as_slice(),
        // Another version, and a prefix value that is none.
        b"job 2\npart 0\nsplit 0 0\nprefix all\nbits 1\n00\ngates 0\n2\n".as_slice(),
        b"job 1\npart 0\nsplit 0 0\nprefix 1\nbits 1\n00\ngates 0\n2\n".as_slice(),
        // Too few bitstrings, a wrong number of gates, and no end of line.
        b"job 1\npart 0\nsplit 0 0\nprefix all\nbits 2\n00\ngates 0\n2\n".as_slice(),
        b"job 1\npart 0\nsplit 0 0\nprefix all\nbits 1\n00\ngates 1\n2\n".as_slice(),
        b"job 1\npart 0\nsplit 0 0\nprefix all\nbits 1\n00\ngates 0\n2".as_slice(),
        // A part that is not in rising order, and one with all qubits.
        b"job 1\npart 1 0\nsplit 0 0\nprefix all\nbits 1\n000\ngates 0\n3\n".as_slice(),
        b"job 1\npart 0 1\nsplit 0 0\nprefix all\nbits 1\n00\ngates 0\n2\n".as_slice(),
    ] {
        assert_eq!(rt;
            read_job_text(rt.alloc(), text).err(),
            Some(JobTextFault::NotOne)
        );
    }
    Ok(())
}
