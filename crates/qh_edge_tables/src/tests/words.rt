//! Rows of words as people type them, a space between two words.

use qh_words::{GenSize, Options, Text, WordsFault, read_words};
use std::alloc::{AllocError, Global};
use std::test::Fail;

fn words_of(alloc: Global, line: &str) -> Result<Vec<String>, AllocError> {
    let mut words = Vec::new(alloc);
    for word in line.split(' ') {
        words.push(String::from_str(alloc, word)?)?;
    }
    Ok(words)
}

fn read(alloc: Global, line: &str) -> Result<Options, WordsFault> {
    match words_of(alloc, line) {
        Ok(words) => read_words(alloc, words.as_slice()),
        Err(_) => Err(WordsFault::Memory),
    }
}

fn text(value: &Option<Text>) -> &str {
    match value {
        Some(text) => text.as_str(),
        None => "-",
    }
}

#[test]
fn refuses_what_is_no_request(rt: HostRuntime) {
    for line in [
        "",
        "--help",
        "-h",
        "-c a",
        "-i b",
        "-c a -i",
        "-c a -c a -i b",
        "-c a -i b stray",
        "-c a -i b -x 1",
        "-c a -i b -t 0",
        "-c a -i b -t 17",
        "-c a -i b -t 4294967297",
        "-c a -i b -t",
        "-c a -i b -t 1 -t 1",
        "-c a -i b -k 0 -t x",
        "-c a -i b -l 1",
        "-c a -i b -k 0 -l 86401",
        "-c a -i b -k 0 -l ",
        "-c a -i b -k 0 -l 1s",
        "-c a -i b --new",
        "-c a -i b -d -1",
        "-c a -i b -d +1",
        "-c a -i b -d 4294967296",
        "-c a -i b -d ",
        "-c a -i b -v x",
        "-c a -i b -v 4294967296",
        "-c a -i b -p 1",
        "-c a -i b -r 0",
        "-c a -i b -w 0",
        "-c a -i b -k 0 -p 33",
        "-c a -i b -k 0 -r 4294967296",
        "-c a -i b -k 0 -w 4294967296",
        "-c a -i b -j f",
        "-c a -i b -j ",
        "-c a -i b -j f --new",
        "-c a -i b -k 0 --new",
        "-c a -i b -k 0 --from g",
        "-c a -i b -k 0 --new --from g",
        "-c a -i b -k 0 -j f -j f",
        "-c a -i b -k 0 -j f --new --new",
        "-c a -i b -k 0 -j f --from g --from g",
        "-c a -i b -k 0 -j",
        "-c a -i b -k 0 -j f --from",
        "-c a -i b -k 0 -j f --new=true",
        "-c a -i b -k 0 -j f --new true",
        "-c a -i b -k 0 -j f -n",
        "-c a -i b -k 0 -j f -f g",
        "-c a -i b -k 0 -j f --ne",
        "-c a -i b -k 0 --j f",
        "-c a -i b -k 0 --prob",
        "--prob -g 1,2,2,3 -k auto",
        "-c a -i b --prob --prob",
        "-c a -i b --prob=true",
        "-c a --prob",
    ] {
        assert!(rt;
            read(rt.alloc(), line).err() == Some(WordsFault::Usage),
            "at {line}"
        );
    }
    assert!(rt; read_words(rt.alloc(), &[]).err() == Some(WordsFault::Usage));
}

#[test]
fn refuses_what_is_no_size(rt: HostRuntime) {
    for line in [
        "-g 1,4,4,10 -c a",
        "-g 1,4,4,10 -i b",
        "-g 1,4,4,10 -d 3",
        "-g 1,4,4,10 -p 1",
        "-g 1,4,4",
        "-g 1,4,4,10,",
        "-g 1,4,,10",
        "-g 1,4,4,+10",
        "-g 1,0,4,10",
        "-g 1,4,0,10",
        "-g 1,5,9,10",
        "-g 1,4,4,101",
        "-g 1,4294967297,1,1",
        "-g 18446744073709551616,4,4,10",
    ] {
        assert!(rt;
            read(rt.alloc(), line).err() == Some(WordsFault::Usage),
            "at {line}"
        );
    }
}

#[test]
fn reads_defaults(rt: HostRuntime) -> Result<(), Fail> {
    for (line, prob) in [
        ("-c a -i b", false),
        ("-i b -c a", false),
        ("-ca -i=b", false),
        ("-v 7 -c a -i b", false),
        ("-c a --prob -i b", true),
    ] {
        let options = read(rt.alloc(), line).ok().ok_or("a request")?;
        assert_eq!(rt; text(&options.circuit), "a");
        assert_eq!(rt; text(&options.bits), "b");
        assert!(rt; options.part.is_none() && options.out.is_none());
        assert_eq!(rt; options.max_time, 4294967295);
        assert_eq!(rt; options.p, 0);
        assert_eq!(rt; options.r, 0);
        assert_eq!(rt; options.w, None);
        assert_eq!(rt; options.workers, 1);
        assert_eq!(rt; options.lease, None);
        assert_eq!(rt; options.generated, None);
        assert_eq!(rt; options.prob, prob, "at {line}");
        assert!(rt; options.journal.is_none() && options.from.is_none() && !options.fresh);
    }
    Ok(())
}

#[test]
fn reads_each_option(rt: HostRuntime) -> Result<(), Fail> {
    let line = "-o out -w 4294967295 -r 32 -p 01 -k 0,1 -d 9 -i b -c a";
    let options = read(rt.alloc(), line).ok().ok_or("a request")?;
    assert_eq!(rt; text(&options.part), "0,1");
    assert_eq!(rt; options.max_time, 9);
    assert_eq!(rt; options.p, 1);
    assert_eq!(rt; options.r, 32);
    assert_eq!(rt; options.w, Some(4294967295));
    let out = options.out.ok_or("an output")?.into_string();
    assert_eq!(rt; out.as_str(), "out");
    Ok(())
}

#[test]
fn reads_a_journal(rt: HostRuntime) -> Result<(), Fail> {
    for (line, journal, fresh, from) in [
        ("-k 0 -c a -i b", "-", false, "-"),
        ("-k 0 -j f -c a -i b", "f", false, "-"),
        ("-jf -c a -i b -k 0", "f", false, "-"),
        ("-c a -i b -k 0 -j ", "", false, "-"),
        ("--new -c a -i b -k 0 -j f", "f", true, "-"),
        ("-c a -i b -k 0 --from g -j f", "f", false, "g"),
        ("--from=g --new -j f -k 0 -g 1,2,2,3", "f", true, "g"),
        ("-c a -i b -k 0 -j f --from ", "f", false, ""),
    ] {
        let options = read(rt.alloc(), line).ok().ok_or("a request")?;
        assert_eq!(rt; text(&options.journal), journal, "at {line}");
        assert_eq!(rt; options.fresh, fresh, "at {line}");
        assert_eq!(rt; text(&options.from), from, "at {line}");
    }
    Ok(())
}

#[test]
fn reads_workers_and_a_lease(rt: HostRuntime) -> Result<(), Fail> {
    for (line, workers, lease) in [
        ("-c a -i b -t 16", 16, None),
        ("-c a -i b -t 01", 1, None),
        ("-c a -i b -k 0 -t8 -l 0", 8, Some(0)),
        ("-l 86400 -k 0 -g 1,2,2,3", 1, Some(86400)),
    ] {
        let options = read(rt.alloc(), line).ok().ok_or("a request")?;
        assert_eq!(rt; options.workers, workers, "at {line}");
        assert_eq!(rt; options.lease, lease, "at {line}");
    }
    Ok(())
}

#[test]
fn reads_a_size(rt: HostRuntime) -> Result<(), Fail> {
    let options = read(rt.alloc(), "-k 0 -w 0 -g 18446744073709551615,5,8,100").ok();
    let size = options.ok_or("a request")?.generated;
    let wanted = GenSize {
        start: 18446744073709551615,
        rows: 5,
        cols: 8,
        depth: 100,
    };
    assert_eq!(rt; size, Some(wanted));
    Ok(())
}
