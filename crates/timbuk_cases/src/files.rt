//! The bytes of the files on a shelf.
use crate::table::{File, Part};
use anyhow::Error;
use std::alloc::{AllocError, Global};
use std::fs;

/// Adds the text so many times, each time with how many came before in the place of `{}`.
fn add_times(alloc: Global, bytes: &mut Vec<u8>, text: &str, times: u32) -> Result<(), AllocError> {
    for number in 0..times {
        match text.split_once("{}") {
            Some((before, after)) => {
                let piece = format!(in alloc; "{before}{number}{after}")?;
                bytes.extend_from_slice(piece.as_bytes())?;
            }
            None => bytes.extend_from_slice(text.as_bytes())?,
        }
    }
    Ok(())
}

/// Adds the bytes of the part.
fn add_part(rt: &HostRuntime, bytes: &mut Vec<u8>, part: &Part) -> Result<(), Error> {
    match part {
        Part::Text { text, times } => {
            add_times(rt.alloc(), bytes, text.as_str(), times.unwrap_or(1))?
        }
        Part::Copy { copy } => {
            bytes.extend_from_slice(fs::read(rt, copy.as_str())?.as_slice())?;
        }
        Part::Bytes { bytes: part } => bytes.extend_from_slice(part.as_slice())?,
    }
    Ok(())
}

/// The bytes of the file.
pub fn bytes_of(rt: &HostRuntime, file: &File) -> Result<Vec<u8>, Error> {
    let mut bytes = Vec::new(rt.alloc());
    match file {
        File::Text(text) => bytes.extend_from_slice(text.as_bytes())?,
        File::Parts(parts) => {
            for part in parts.as_slice() {
                add_part(rt, &mut bytes, part)?;
            }
        }
    }
    Ok(bytes)
}
