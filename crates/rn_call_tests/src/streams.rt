//! Sources and sinks over readers and writers of the standard library that fail, and some in memory.
use rn_outside::{
    MemSink, MemSource, ReadAllFault, Sink, SinkFailed, Source, StdSink, StdSource, WriteFault,
    read_all, write_all,
};
use std::io;
use std::io::{ErrorKind, Read, Write};
use std::test::Fail;

// A reader whose first call fails, as one that a signal interrupts. The next one gives a byte, and
// then comes the end.
#[derive(Drop)]
struct Interrupted(u8);

impl Read for Interrupted {
    fn read(&mut self, buf: &mut [u8]) -> io::Result<usize> {
        if self.0 == 0 {
            self.0 = 1;
            return Err(io::Error::from(ErrorKind::Interrupted));
        }
        if self.0 == 2 || buf.is_empty() {
            return Ok(0);
        }
        self.0 = 2;
        buf[0] = b'a';
        Ok(1)
    }
}

#[test]
fn tries_no_read_again(rt: HostRuntime) -> Result<(), Fail> {
    let mut source = StdSource::new(Interrupted(0));
    let answer = read_all(rt.alloc(), &mut source, 100);
    assert_eq!(rt; answer.err(), Some(ReadAllFault::ReadFault));
    let bytes = read_all(rt.alloc(), &mut source, 100)?;
    assert_eq!(rt; bytes.as_slice(), b"a".as_slice());
    Ok(())
}

// A writer that takes up to so many bytes a call. Its first write may fail, or its first flush.
#[derive(Drop)]
struct Slow {
    most: usize,
    write_fails: bool,
    flush_fails: bool,
}

// Fails once.
fn fail_once(fails: &mut bool) -> io::Result<()> {
    if *fails {
        *fails = false;
        Err(io::Error::from(ErrorKind::Interrupted))
    } else {
        Ok(())
    }
}

impl Write for Slow {
    fn write(&mut self, buf: &[u8]) -> io::Result<usize> {
        fail_once(&mut self.write_fails)?;
        Ok(buf.len().min(self.most))
    }

    fn flush(&mut self) -> io::Result<()> {
        fail_once(&mut self.flush_fails)
    }
}

// A failed write or flush isn't tried again, and none is left out.
#[test]
fn tries_no_write_again(rt: HostRuntime) {
    let table = [
        (4, false, false, Ok(())),
        (0, false, false, Err(WriteFault)),
        (4, true, false, Err(WriteFault)),
        (4, false, true, Err(WriteFault)),
    ];
    for (most, write_fails, flush_fails, wanted) in table {
        let mut sink = StdSink::new(Slow {
            most,
            write_fails,
            flush_fails,
        });
        assert_eq!(rt; write_all(&mut sink, b"end dead\n"), wanted);
    }
}

// After a fault nothing is read, so what is left is still there; a full sink fails.
#[test]
fn what_is_left_after_faults(rt: HostRuntime) -> Result<(), Fail> {
    let alloc = rt.alloc();
    let bytes = vec![in alloc; b'a'; 20_000]?;
    let mut source = MemSource::new(bytes, [2].to_vec(alloc)?);
    let answer = read_all(rt.alloc(), &mut source, 20_000);
    assert_eq!(rt; answer.err(), Some(ReadAllFault::ReadFault));
    let mut buf = [0; 3];
    assert_eq!(rt; source.read(&mut buf), Ok(3));
    let mut sink = MemSink::new(rt.alloc(), 6, 4, Vec::new(rt.alloc()))?;
    assert_eq!(rt; write_all(&mut sink, b"abcdefghi"), Err(WriteFault));
    assert_eq!(rt; sink.held(), b"abcdef".as_slice());
    assert_eq!(rt; sink.write(b""), Err(SinkFailed));
    Ok(())
}
