use ct_faults::{Failed, MemSink, MemSource, NoDisk, Sink, Source};
use ct_run::{NoGate, run_top};
use ct_types::{Bin, Memory};
use std::alloc::{AllocError, Global};
use std::sync::Wait;
use std::test::Fail;
use std::thread::Threads;

/// A script.
const START: &[u8] =
    b"1: ALTER DATABASE d SET CHANGE_TRACKING = ON\n1: CREATE TABLE t (id INT PRIMARY KEY, a INT NULL, b NVARCHAR(20) NULL)\n1: ALTER TABLE t ENABLE CHANGE_TRACKING WITH (TRACK_COLUMNS_UPDATED = ON)\n";

/// A source that gives so many bytes, of which it tells nothing.
#[derive(Drop)]
struct Flood {
    left: usize,
}

impl Source for Flood {
    ghost use Rattle.std.specs.Prelude.{None};

    ghost left = { λ s. None };

    ghost faults = { λ s. 0 };

    fn read(&mut self, buf: &mut [u8]) -> Result<usize, Failed> {
        let count = buf.len().min(self.left);
        self.left -= count;
        Ok(count)
    }

    fn faults(&self) -> u64 {
        0
    }
}

fn words_of(alloc: Global, texts: &[&str]) -> Result<Vec<String>, AllocError> {
    let mut words = Vec::new(alloc);
    for text in texts {
        words.push(String::from_str(alloc, text)?)?;
    }
    Ok(words)
}

fn status_of<R: Threads + Wait, S: Source, K: Sink>(
    rt: &R,
    alloc: Global,
    texts: &[&str],
    source: &mut S,
    sink: &mut K,
) -> Result<u8, AllocError> {
    let words = words_of(alloc, texts)?;
    let done = run_top(
        rt,
        alloc,
        words.as_slice(),
        source,
        sink,
        NoDisk::new(),
        &NoGate,
    );
    Ok(done.status)
}

/// The status of a run of these bytes, and what it adds to the sink.
fn run_of<R: Threads + Wait>(
    rt: &R,
    alloc: Global,
    texts: &[&str],
    bytes: &[u8],
) -> Result<(u8, Bin), Memory> {
    let mut source = MemSource::new(alloc, bytes, &[])?;
    let mut sink = MemSink::new(alloc, 100_000, &[])?;
    let status = status_of(rt, alloc, texts, &mut source, &mut sink)?;
    Ok((status, Bin::of(alloc, sink.bytes())?))
}

/// Whether a run of these bytes ends with this status and adds this text.
fn gives<R: Threads + Wait>(
    rt: &R,
    alloc: Global,
    bytes: &[u8],
    status: u8,
    text: &[u8],
) -> Result<bool, Memory> {
    let (ended, added) = run_of(rt, alloc, &["run"], bytes)?;
    Ok(ended == status && added.as_bytes() == text)
}

/// Bytes that are no UTF-8, and so no cases of `ct_cases`.
#[test]
fn the_first_fault_is_told(rt: HostRuntime) -> Result<(), Fail> {
    let cases: [(&[u8], &[u8]); 2] = [
        (b"\xff", b"BadScript line 1 rule 1\n"),
        (b"1: a\n\n2: \xff\nx", b"BadScript line 3 rule 1\n"),
    ];
    for (bytes, text) in cases {
        assert!(rt; gives(&rt, rt.alloc(), bytes, 2, text)?);
    }
    Ok(())
}

/// A script that begins so, goes on with so many of a letter, and has one letter more.
fn letters(alloc: Global, begin: &[u8], letter: u8, count: usize) -> Result<Vec<u8>, AllocError> {
    let mut bytes = Vec::from_slice(alloc, begin)?;
    for _ in 0..count {
        bytes.push(letter)?;
    }
    bytes.push(b'a')?;
    Ok(bytes)
}

/// Whether a run of that script ends with this status and adds this text.
fn letters_give<R: Threads + Wait>(
    rt: &R,
    alloc: Global,
    script: (&[u8], u8, usize),
    status: u8,
    text: &[u8],
) -> Result<bool, Memory> {
    let bytes = letters(alloc, script.0, script.1, script.2)?;
    gives(rt, alloc, bytes.as_slice(), status, text)
}

/// A text of one line, and one that goes on with a line of blanks and a letter.
#[test]
fn a_text_has_at_most_65536_bytes(rt: HostRuntime) -> Result<(), Fail> {
    let cases: [((&[u8], u8, usize), u8, &[u8]); 4] = [
        ((b"1: ", b'a', 65_535), 0, b"[1] 1.1\nMsg 102 at 0\n"),
        ((b"1: ", b'a', 65_536), 2, b"BadScript line 1 rule 9\n"),
        ((b"1: a\n", b' ', 65_533), 0, b"[1] 1.1\nMsg 102 at 0\n"),
        ((b"1: a\n", b' ', 65_534), 2, b"BadScript line 2 rule 9\n"),
    ];
    for (script, status, text) in cases {
        assert!(rt; letters_give(&rt, rt.alloc(), script, status, text)?);
    }
    Ok(())
}

/// Whether these words are refused.
fn is_usage<R: Threads + Wait>(rt: &R, alloc: Global, texts: &[&str]) -> Result<bool, Memory> {
    let (status, added) = run_of(rt, alloc, texts, START)?;
    Ok(status == 1 && added.as_bytes() == b"Usage\n".as_slice())
}

#[test]
fn other_words_are_refused(rt: HostRuntime) -> Result<(), Fail> {
    let cases: [&[&str]; 3] = [&["run", "--disk"], &["gen"], &[]];
    for texts in cases {
        assert!(rt; is_usage(&rt, rt.alloc(), texts)?);
    }
    Ok(())
}

#[test]
fn a_failing_source_is_told(rt: HostRuntime) -> Result<(), Fail> {
    let alloc = rt.alloc();
    let mut source = MemSource::new(alloc, START, &[2])?;
    let mut sink = MemSink::new(alloc, 100, &[])?;
    let status = status_of(&rt, alloc, &["run"], &mut source, &mut sink)?;
    assert_eq!(rt; status, 3);
    assert_eq!(rt; sink.bytes(), b"ReadFault\n".as_slice());
    Ok(())
}

#[test]
fn a_failing_sink_gets_a_front_part(rt: HostRuntime) -> Result<(), Fail> {
    let alloc = rt.alloc();
    let cases: [(u64, &[u64]); 2] = [(1000, &[1]), (10, &[])];
    for (room, failing) in cases {
        let mut source = MemSource::new(alloc, START, &[])?;
        let mut sink = MemSink::new(alloc, room, failing)?;
        let status = status_of(&rt, alloc, &["run"], &mut source, &mut sink)?;
        assert_eq!(rt; status, 4);
        assert_eq!(rt; sink.bytes().len(), 0);
    }
    Ok(())
}

#[test]
fn a_source_is_too_large(rt: HostRuntime) -> Result<(), Fail> {
    let alloc = rt.alloc();
    let mut source = Flood { left: 16_777_217 };
    let mut sink = MemSink::new(alloc, 100, &[])?;
    let status = status_of(&rt, alloc, &["run"], &mut source, &mut sink)?;
    assert_eq!(rt; status, 8);
    assert_eq!(rt; sink.bytes(), b"TooLarge\n".as_slice());
    Ok(())
}
