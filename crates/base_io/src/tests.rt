//! Tests of what no clause says: what the system is given, and short reads and writes.
use crate::streams::{read_within, write_whole};
use crate::{FileStore, GetFault, PutFault, Sink, StdSink, Store};
use std::io::{ErrorKind, Read, Write};
use std::test::Fail;
use std::{fs, io, process};

#[test]
fn files_and_standard_output(rt: HostRuntime) -> Result<(), Fail> {
    let alloc = rt.alloc();
    let name = format!(in alloc; "base_io_{}", process::id(rt.process()))?;
    let below = format!(in alloc; "{name}/below")?;
    let mut store = FileStore::new(rt);
    store.put(name.as_str(), b"longer than the next")?;
    store.put(name.as_str(), b"two\nlines")?;
    assert_eq!(rt; store.put(below.as_str(), b""), Err(PutFault::Failed));
    assert_eq!(rt;
        store.get(name.as_str(), 9)?.as_slice(),
        b"two\nlines".as_slice()
    );
    assert_eq!(rt;
        store.get(name.as_str(), 8).err(),
        Some(GetFault::TooLong { seen: 9 })
    );
    assert_eq!(rt; store.get(below.as_str(), 8).err(), Some(GetFault::Failed));
    fs::remove_file(&rt, name.as_str())?;
    StdSink::new(rt).put(b"a line\n")?;
    Ok(())
}

// Gives or takes one byte a call, after one interruption, and fails at the end.
#[derive(Drop)]
struct Slow {
    calls: usize,
    bytes: usize,
    end: usize,
}

impl Slow {
    fn step(&mut self) -> io::Result<()> {
        self.calls = self.calls.saturating_add(1);
        if self.calls == 1 {
            return Err(io::Error::from(ErrorKind::Interrupted));
        }
        if self.bytes >= self.end {
            return Err(io::Error::from(ErrorKind::Other));
        }
        self.bytes = self.bytes.saturating_add(1);
        Ok(())
    }
}

impl Read for Slow {
    fn read(&mut self, buf: &mut [u8]) -> io::Result<usize> {
        self.step()?;
        if buf.is_empty() {
            return Ok(0);
        }
        buf[0] = b'x';
        Ok(1)
    }
}

impl Write for Slow {
    fn write(&mut self, buf: &[u8]) -> io::Result<usize> {
        self.step()?;
        Ok(buf.len().min(1))
    }

    fn flush(&mut self) -> io::Result<()> {
        Ok(())
    }
}

#[test]
fn short_reads_and_writes(rt: HostRuntime) -> Result<(), Fail> {
    let alloc = rt.alloc();
    let mut slow = Slow {
        calls: 0,
        bytes: 0,
        end: 100,
    };
    assert_eq!(rt;
        read_within(alloc, &mut slow, 3).err(),
        Some(GetFault::TooLong { seen: 4 })
    );
    assert_eq!(rt; slow.bytes, 4);
    let mut slow = Slow {
        calls: 0,
        bytes: 0,
        end: 2,
    };
    assert_eq!(rt;
        read_within(alloc, &mut slow, 3).err(),
        Some(GetFault::Failed)
    );
    let mut rest = b"abc".as_slice();
    assert_eq!(rt;
        read_within(alloc, &mut rest, 3)?.as_slice(),
        b"abc".as_slice()
    );
    let mut slow = Slow {
        calls: 0,
        bytes: 0,
        end: 3,
    };
    assert!(rt; write_whole(&mut slow, b"abc"));
    assert!(rt; !write_whole(&mut slow, b"d"));
    let mut full = [0u8; 2];
    assert!(rt; !write_whole(&mut full.as_mut_slice(), b"abc"));
    assert_eq!(rt; full, *b"ab");
    Ok(())
}
