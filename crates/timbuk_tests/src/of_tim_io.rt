//! Files and outputs that fail, worked examples, and the real files.
use crate::fakes::{FakeFiles, FakeOutput};
use ranked_terms::Seq;
use std::alloc::Global;
use std::fs;
use std::rt::Files;
use std::test::Fail;
use tim_io::{
    FileShelf, HonestShelf, HonestSink, MemShelf, MemSink, ReadError, Shelf, Sink, StdSink,
    read_all, write_all,
};

/// What reading the file whole answers: its bytes, or the error.
fn read<F: Shelf>(alloc: Global, shelf: &mut F, name: &str, limit: u8) -> Result<String, Fail> {
    match read_all(alloc, shelf, name, limit as usize) {
        Ok(bytes) => Ok(String::from_str(alloc, str::from_utf8(bytes.as_slice())?)?),
        Err(error) => Ok(format!(in alloc; "{error:?}")?),
    }
}

/// A file `a` with the bytes `hello` and an empty file `e` in memory, read once: the answer, and what is left.
struct InMemory {
    name: &'static str,
    piece: usize,
    fails: &'static [u64],
    limit: u8,
    answer: &'static str,
    rest: Option<&'static [u8]>,
}

const READS: &[InMemory] = &[
    // In pieces, the limit just met.
    InMemory {
        name: "a",
        piece: 2,
        fails: &[],
        limit: 5,
        answer: "hello",
        rest: Some(b""),
    },
    // In large pieces: the file and its end are two calls.
    InMemory {
        name: "a",
        piece: 9,
        fails: &[3],
        limit: 9,
        answer: "hello",
        rest: Some(b""),
    },
    // Just one byte more than the limit is taken.
    InMemory {
        name: "a",
        piece: 9,
        fails: &[],
        limit: 3,
        answer: "TooLong",
        rest: Some(b"o"),
    },
    // Call 2 fails in mid stream.
    InMemory {
        name: "a",
        piece: 2,
        fails: &[2],
        limit: 5,
        answer: "Fault",
        rest: Some(b"llo"),
    },
    // The end fails.
    InMemory {
        name: "a",
        piece: 9,
        fails: &[2],
        limit: 5,
        answer: "Fault",
        rest: Some(b""),
    },
    // An empty file, and a limit of nothing.
    InMemory {
        name: "e",
        piece: 1,
        fails: &[],
        limit: 0,
        answer: "",
        rest: Some(b""),
    },
    // A name that is not there.
    InMemory {
        name: "b",
        piece: 1,
        fails: &[],
        limit: 5,
        answer: "Fault",
        rest: None,
    },
];

#[test]
fn reads_a_file_in_memory(rt: HostRuntime) -> Result<(), Fail> {
    for row in READS {
        assert!(rt; row.piece > 0);
        let fails = Seq::from_slice(rt.alloc(), row.fails)?;
        let mut shelf = MemShelf::new(rt.alloc(), row.piece, fails);
        shelf.add("a", b"hello")?;
        shelf.add("e", b"")?;
        let answer = read(rt.alloc(), &mut shelf, row.name, row.limit)?;
        assert_eq!(rt; answer.as_str(), row.answer);
        assert_eq!(rt; shelf.rest(row.name), row.rest);
    }
    Ok(())
}

/// The bytes `hello`, written once: room, piece, failing calls, whether all is written, and what is.
const WRITES: &[(usize, usize, &[u64], bool, &[u8])] = &[
    // In pieces, the room just met.
    (5, 2, &[], true, b"hello"),
    // All that is left is offered at once.
    (9, 9, &[2], true, b"hello"),
    // Call 2 fails in mid stream.
    (9, 3, &[2], false, b"hel"),
    // One byte of room too few.
    (4, 9, &[], false, b"hell"),
];

#[test]
fn writes_into_memory(rt: HostRuntime) -> Result<(), Fail> {
    for (room, piece, fails, is_written, bytes) in WRITES {
        assert!(rt; *piece > 0);
        let fails = Seq::from_slice(rt.alloc(), fails)?;
        let mut sink = MemSink::new(rt.alloc(), *room, *piece, fails)?;
        assert_eq!(rt; write_all(&mut sink, b"hello").is_ok(), *is_written);
        assert_eq!(rt; sink.bytes(), *bytes);
    }
    Ok(())
}

#[test]
fn honest_objects_never_fail(rt: HostRuntime) -> Result<(), Fail> {
    let mut shelf = HonestShelf::new(rt.alloc(), 3);
    shelf.add("a", b"hello")?;
    assert_eq!(rt; read(rt.alloc(), &mut shelf, "a", 5)?.as_str(), "hello");
    assert_eq!(rt; read(rt.alloc(), &mut shelf, "b", 5)?.as_str(), "");
    assert!(rt; write_all(&mut HonestSink::new(), b"hello").is_ok());
    Ok(())
}

/// What six calls of a shelf of real files answer for a file.
fn takes<R: Files>(alloc: Global, files: &R) -> Result<String, Fail> {
    let mut shelf = FileShelf::new(files, alloc);
    let mut answers = String::new(alloc);
    let mut buf = [0u8; 9];
    for _ in 0..6 {
        let one = match shelf.take("a", &mut buf) {
            Ok(count) => format!(in alloc; "{} ", str::from_utf8(&buf[..count])?)?,
            Err(error) => format!(in alloc; "{error:?} ")?,
        };
        answers.push_str(&one)?;
    }
    Ok(answers)
}

/// What reading a real file whole answers.
fn read_real<R: Files>(alloc: Global, files: &R) -> Result<String, Fail> {
    read(alloc, &mut FileShelf::new(files, alloc), "a", 9)
}

/// The number of the call that fails to open the file, that of the one that fails to read it, the answers, and the
/// answer where the file is read whole.
const TAKES: &[(u64, u64, &str, &str)] = &[
    (0, 0, "he ll o    ", "hello"),
    (0, 1, "Failed he ll o   ", "Fault"),
    (0, 2, "he Failed ll o   ", "Fault"),
    (0, 4, "he ll o Failed   ", "Fault"),
    (1, 0, "Failed he ll o   ", "Fault"),
    // It is opened once.
    (2, 0, "he ll o    ", "hello"),
];

#[test]
fn a_failed_call_of_a_real_file_is_not_its_end(rt: HostRuntime) -> Result<(), Fail> {
    for (failing_open, failing_read, answers, whole) in TAKES {
        let files = FakeFiles::new(*failing_open, *failing_read);
        assert_eq!(rt; takes(rt.alloc(), &files)?.as_str(), *answers);
        let files = FakeFiles::new(*failing_open, *failing_read);
        assert_eq!(rt; read_real(rt.alloc(), &files)?.as_str(), *whole);
    }
    Ok(())
}

/// What the first calls of a sink answer for a piece of five bytes.
fn puts<K: Sink>(alloc: Global, sink: &mut K) -> Result<String, Fail> {
    let mut answers = String::new(alloc);
    for _ in 0..4 {
        let one = match sink.put(b"hello") {
            Ok(count) => format!(in alloc; "{count} ")?,
            Err(_) => format!(in alloc; "Failed ")?,
        };
        answers.push_str(&one)?;
    }
    Ok(answers)
}

/// The number of the write that fails, that of the one of 0 bytes, the answers, and whether all of a text is written.
const PUTS: &[(u64, u64, &str, bool)] = &[
    (0, 0, "2 2 2 2 ", true),
    (2, 0, "2 Failed 2 2 ", false),
    (0, 3, "2 2 Failed 2 ", false),
    (1, 2, "Failed Failed 2 2 ", false),
];

#[test]
fn a_failed_call_of_standard_output_writes_nothing(rt: HostRuntime) -> Result<(), Fail> {
    for (failing, empty, answers, is_written) in PUTS {
        let output = FakeOutput::new(*failing, *empty);
        assert_eq!(rt;
            puts(rt.alloc(), &mut StdSink::new(&output))?.as_str(),
            *answers
        );
        let output = FakeOutput::new(*failing, *empty);
        let written = write_all(&mut StdSink::new(&output), b"hello");
        assert_eq!(rt; written.is_ok(), *is_written);
    }
    Ok(())
}

/// Each name keeps its own position: four bytes of the first file are gone after the first row.
const REAL: &[(&str, u8, &str)] = &[
    ("first", 3, "TooLong"),
    ("second", 4, "more"),
    ("none", 9, "Fault"),
    ("folder", 9, "Fault"),
    ("first", 5, " text"),
    ("first", 5, ""),
];

#[test]
fn reads_real_files_and_writes_standard_output(rt: HostRuntime) -> Result<(), Fail> {
    fs::write(&rt, "first", "some text")?;
    fs::write(&rt, "second", "more")?;
    fs::create_dir(&rt, "folder")?;
    let mut shelf = FileShelf::new(&rt, rt.alloc());
    for (name, limit, answer) in REAL {
        let read = read(rt.alloc(), &mut shelf, name, *limit)?;
        assert_eq!(rt; read.as_str(), *answer, "{name}");
    }
    assert!(rt; write_all(&mut StdSink::new(&rt), b"written\n").is_ok());
    Ok(())
}
