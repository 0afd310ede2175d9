//! What a case answers and writes.
use crate::devices::{shelf_of, sink_of};
use crate::table::Case;
use anyhow::Error;
use calls::status::Status;
use std::alloc::{AllocError, Global};
use std::str;
use tim_io::{MemShelf, MemSink};
use top_call::run::run;

/// The words of the case: `complete F` where it names none.
fn words_of(alloc: Global, case: &Case) -> Result<Vec<String>, AllocError> {
    if let Some(words) = &case.words {
        return words.clone();
    }
    let mut words = Vec::new(alloc);
    for word in ["complete", "F"] {
        words.push(String::from_str(alloc, word)?)?;
    }
    Ok(words)
}

/// Runs the words over the files and the output.
fn answer_of(alloc: Global, words: &[String], shelf: &mut MemShelf, sink: &mut MemSink) -> Status {
    run(alloc, words, shelf, sink)
}

/// Prints how many bytes are left of each file of which the case says so.
fn print_left(rt: &HostRuntime, case: &Case, shelf: &MemShelf) -> Result<(), Error> {
    for (name, _) in case.leaves.iter() {
        let left = shelf.rest(name.as_str()).map_or(0, |rest| rest.len());
        println!(rt; "{left} bytes are left of {name}")?;
    }
    Ok(())
}

/// Prints what was written: each line behind a bar, and whether the last one has an end.
fn print_written(rt: &HostRuntime, written: &[u8]) -> Result<(), Error> {
    let text = str::from_utf8(written)?;
    for line in text.lines() {
        println!(rt; "| {line}")?;
    }
    if !text.is_empty() && !text.ends_with('\n') {
        println!(rt; "(the last line has no end)")?;
    }
    Ok(())
}

/// Runs the case, and prints what it shows, the status with its exit status, how many bytes are left of the files of which
/// it says so, and what was written.
pub fn print_outcome(rt: &HostRuntime, case: &Case) -> Result<(), Error> {
    let words = words_of(rt.alloc(), case)?;
    let mut shelf = shelf_of(rt, case)?;
    let mut sink = sink_of(rt.alloc(), case)?;
    let status = answer_of(rt.alloc(), words.as_slice(), &mut shelf, &mut sink);
    println!(rt; "\n{}\n{status:?} {}", case.shows, status.code())?;
    print_left(rt, case, &shelf)?;
    print_written(rt, sink.bytes())
}
