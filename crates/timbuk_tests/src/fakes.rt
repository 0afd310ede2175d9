//! A system that fails where a test wants it.
use std::alloc::Allocator;
use std::cell::Cell;
use std::fmt::Display;
use std::fs::{Metadata, OpenFile, OpenOptions};
use std::io;
use std::io::{ErrorKind, Read, Seek, SeekFrom, Write};
use std::rt::Files;

/// The most bytes that a call moves.
const PIECE: usize = 2;

fn failure() -> io::Error {
    io::Error::from(ErrorKind::Other)
}

/// Whether the next call is the one that is to fail. Calls are counted from 1.
fn next_fails(calls: &Cell<u64>, failing: u64) -> bool {
    let call = calls.get().saturating_add(1);
    calls.set(call);
    call == failing
}

/// Files that all hold `hello`. One call that opens a file fails, and so does one read of each file; 0 names no call.
#[derive(Drop)]
pub struct FakeFiles {
    opens: Cell<u64>,
    failing_open: u64,
    failing_read: u64,
}

impl FakeFiles {
    pub fn new(failing_open: u64, failing_read: u64) -> FakeFiles {
        FakeFiles {
            opens: Cell::new(0),
            failing_open,
            failing_read,
        }
    }
}

/// An open file.
#[derive(Drop)]
pub struct FakeFile {
    rest: &'static [u8],
    reads: Cell<u64>,
    failing_read: u64,
}

impl Read for FakeFile {
    fn read(&mut self, buf: &mut [u8]) -> io::Result<usize> {
        if next_fails(&self.reads, self.failing_read) {
            return Err(failure());
        }
        let rest = self.rest;
        let count = rest.len().min(buf.len()).min(PIECE);
        buf[..count].copy_from_slice(&rest[..count]);
        self.rest = &rest[count..];
        Ok(count)
    }
}

impl Write for FakeFile {
    fn write(&mut self, _buf: &[u8]) -> io::Result<usize> {
        Err(failure())
    }

    fn flush(&mut self) -> io::Result<()> {
        Err(failure())
    }
}

impl Seek for FakeFile {
    fn seek(&mut self, _to: SeekFrom) -> io::Result<u64> {
        Err(failure())
    }
}

impl OpenFile for FakeFile {
    fn metadata(&self) -> io::Result<Metadata> {
        Err(failure())
    }

    fn set_len(&self, _size: u64) -> io::Result<()> {
        Err(failure())
    }

    fn sync_all(&self) -> io::Result<()> {
        Err(failure())
    }

    fn sync_data(&self) -> io::Result<()> {
        Err(failure())
    }
}

impl Files for FakeFiles {
    type File = FakeFile;

    type Dir = FakeFile;

    fn open_file(&self, _how: &OpenOptions, _path: &str) -> io::Result<FakeFile> {
        if next_fails(&self.opens, self.failing_open) {
            return Err(failure());
        }
        Ok(FakeFile {
            rest: b"hello",
            reads: Cell::new(0),
            failing_read: self.failing_read,
        })
    }

    fn open_dir(&self, _path: &str) -> io::Result<FakeFile> {
        Err(failure())
    }

    fn metadata(&self, _path: &str) -> io::Result<Metadata> {
        Err(failure())
    }

    fn symlink_metadata(&self, _path: &str) -> io::Result<Metadata> {
        Err(failure())
    }

    fn copy(&self, _from: &str, _to: &str) -> io::Result<u64> {
        Err(failure())
    }

    fn rename(&self, _from: &str, _to: &str) -> io::Result<()> {
        Err(failure())
    }

    fn remove_file(&self, _path: &str) -> io::Result<()> {
        Err(failure())
    }

    fn create_dir(&self, _path: &str) -> io::Result<()> {
        Err(failure())
    }

    fn remove_dir(&self, _path: &str) -> io::Result<()> {
        Err(failure())
    }

    fn remove_dir_all<B: Allocator>(&self, _alloc: B, _path: &str) -> io::Result<()> {
        Err(failure())
    }
}

/// A standard output. One write fails, and one writes 0 bytes; 0 names no call.
#[derive(Drop)]
pub struct FakeOutput {
    writes: Cell<u64>,
    failing: u64,
    empty: u64,
}

impl FakeOutput {
    pub fn new(failing: u64, empty: u64) -> FakeOutput {
        FakeOutput {
            writes: Cell::new(0),
            failing,
            empty,
        }
    }
}

impl Print for FakeOutput {
    fn print<D: Display + Drop>(&self, _value: D) -> io::Result<()> {
        Err(failure())
    }

    fn println<D: Display + Drop>(&self, _value: D) -> io::Result<()> {
        Err(failure())
    }

    fn write_all(&self, _bytes: &[u8]) -> io::Result<()> {
        Err(failure())
    }

    fn write_some(&self, bytes: &[u8]) -> io::Result<usize> {
        if next_fails(&self.writes, self.failing) {
            return Err(failure());
        }
        if self.writes.get() == self.empty {
            return Ok(0);
        }
        Ok(bytes.len().min(PIECE))
    }
}
