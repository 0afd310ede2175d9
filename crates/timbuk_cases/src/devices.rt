//! The files and the output of a case, in memory.
use crate::files::bytes_of;
use crate::table::{Case, Device};
use anyhow::Error;
use ranked_terms::Seq;
use std::alloc::{AllocError, Global};
use std::fs;
use tim_io::{MemShelf, MemSink};

/// The most bytes that a call moves, and how many bytes an output has room for, where a case names no number.
const AMPLE: usize = 65536;

/// A shelf without files that behaves so.
fn shelf_like(alloc: Global, device: Option<&Device>) -> Result<MemShelf, AllocError> {
    let Some(Device { piece, fails, .. }) = device else {
        return Ok(MemShelf::new(alloc, AMPLE, Seq::new(alloc)));
    };
    let fails = Seq::from_slice(alloc, fails.as_slice())?;
    Ok(MemShelf::new(alloc, piece.unwrap_or(AMPLE).max(1), fails))
}

/// Puts a file of the folder of the tables on the shelf, under its own name.
fn copy_file(rt: &HostRuntime, shelf: &mut MemShelf, name: &str) -> Result<(), Error> {
    let bytes = fs::read(rt, name)?;
    shelf.add(name, bytes.as_slice())?;
    Ok(())
}

/// The shelf of the case, with its files.
pub fn shelf_of(rt: &HostRuntime, case: &Case) -> Result<MemShelf, Error> {
    let mut shelf = shelf_like(rt.alloc(), case.shelf.as_ref())?;
    for name in case.copies.as_slice() {
        copy_file(rt, &mut shelf, name.as_str())?;
    }
    for (name, file) in case.files.iter() {
        let bytes = bytes_of(rt, file)?;
        shelf.add(name.as_str(), bytes.as_slice())?;
    }
    Ok(shelf)
}

/// The output of the case.
pub fn sink_of(alloc: Global, case: &Case) -> Result<MemSink, AllocError> {
    let Some(Device { piece, room, fails }) = &case.sink else {
        return MemSink::new(alloc, AMPLE, AMPLE, Seq::new(alloc));
    };
    let fails = Seq::from_slice(alloc, fails.as_slice())?;
    let (room, piece) = (room.unwrap_or(AMPLE), piece.unwrap_or(AMPLE).max(1));
    MemSink::new(alloc, room, piece, fails)
}
