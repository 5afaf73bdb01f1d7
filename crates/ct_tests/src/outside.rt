ghost use Rattle.std.specs.Prelude.{Some};

use ct_faults::{
    Disk, Failed, MemSink, MemSource, NoDisk, ReadError, Sink, Source, StdSink, StdSource,
    WriteFault, read_all, write_all,
};
use ct_types::{Bin, Memory};

/// A source that gives one byte at a time.
#[derive(Drop)]
struct OneByte {
    inner: MemSource,
}

impl Source for OneByte {
    ghost left = { λ s. Some s.inner.left };

    ghost faults = { λ s. s.inner.faults };

    fn read(&mut self, buf: &mut [u8]) -> Result<usize, Failed> {
        let most = buf.len().min(1);
        self.inner.read(&mut buf[..most])
    }

    fn faults(&self) -> u64 {
        self.inner.faults()
    }
}

#[test]
fn reads_to_the_end_or_the_listed_read(rt: HostRuntime) -> Result<(), Memory> {
    let listed: [(&[u8], u64, Option<&[u8]>); 6] = [
        (b"", 2, Some(b"")),
        (b"", 1, None),
        (b"abc", 3, Some(b"abc")),
        (b"abc", 2, None),
        (b"abc", 1, None),
        (b"abc", 0, Some(b"abc")),
    ];
    for (bytes, failing, want) in listed {
        let mut source = MemSource::new(rt.alloc(), bytes, &[failing])?;
        let got = read_all(rt.alloc(), &mut source);
        match want {
            Some(want) => assert_eq!(rt; got, Ok(Bin::of(rt.alloc(), want)?), "{failing}"),
            None => assert_eq!(rt; got, Err(ReadError::ReadFault), "{failing}"),
        }
        assert_eq!(rt; source.faults(), u64::from(want.is_none()), "{failing}");
    }
    Ok(())
}

#[test]
fn reads_one_byte_at_a_time(rt: HostRuntime) -> Result<(), Memory> {
    for (failing, want) in [(0, true), (5, true), (4, false), (3, false)] {
        let mut source = OneByte {
            inner: MemSource::new(rt.alloc(), b"abc", &[failing])?,
        };
        let got = read_all(rt.alloc(), &mut source);
        if want {
            assert_eq!(rt; got, Ok(Bin::of(rt.alloc(), b"abc")?), "{failing}");
        } else {
            assert_eq!(rt; got, Err(ReadError::ReadFault), "{failing}");
        }
    }
    Ok(())
}

#[test]
fn reads_at_most_16_mib(rt: HostRuntime) -> Result<(), Memory> {
    let bytes = vec![in rt.alloc(); 7u8; 16_777_217]?;
    let mut source = MemSource::new(rt.alloc(), &bytes, &[])?;
    assert_eq!(rt; read_all(rt.alloc(), &mut source), Err(ReadError::TooLarge));
    let mut source = MemSource::new(rt.alloc(), &bytes[1..], &[])?;
    assert_eq!(rt;
        read_all(rt.alloc(), &mut source),
        Ok(Bin::of(rt.alloc(), &bytes[1..])?)
    );
    Ok(())
}

#[test]
fn writes_within_the_room(rt: HostRuntime) -> Result<(), Memory> {
    let mut sink = MemSink::new(rt.alloc(), 5, &[3])?;
    let pieces: [(&[u8], Result<(), WriteFault>, &[u8], u64); 6] = [
        (b"ab", Ok(()), b"ab", 0),
        (b"cdef", Err(WriteFault), b"ab", 1),
        (b"c", Err(WriteFault), b"ab", 2),
        (b"", Ok(()), b"ab", 2),
        (b"cde", Ok(()), b"abcde", 2),
        (b"f", Err(WriteFault), b"abcde", 3),
    ];
    for (piece, want, held, faults) in pieces {
        assert_eq!(rt; write_all(&mut sink, piece), want);
        assert_eq!(rt; sink.bytes(), held);
        assert_eq!(rt; sink.faults(), faults);
    }
    Ok(())
}

#[test]
fn begins_without_faults(rt: HostRuntime) {
    assert_eq!(rt; StdSource::new(&rt).faults(), 0);
    let mut output = StdSink::new(&rt);
    assert_eq!(rt; write_all(&mut output, b"a line\n"), Ok(()));
    assert_eq!(rt; output.faults(), 0);
    let mut disk = NoDisk::default();
    assert_eq!(rt; disk.len(0), Ok(0));
    assert_eq!(rt; disk.faults(), 0);
    if let Ok(()) = disk.ready(1, 0) {
        assert_eq!(rt; disk.sync(), Err(Failed));
    }
    assert_eq!(rt; disk.faults(), 1);
}
