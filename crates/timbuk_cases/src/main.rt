//! Cases of the program `timbuk`, as data: each case of the tables that the words name is run by the top call over files
//! and an output in memory, and what it answers and writes is printed. The stored output has the expected answers.
#![tactic(auto)]

mod devices;
mod files;
mod outcome;
mod table;

use anyhow::Error;
use outcome::print_outcome;
use std::{env, fs};
use table::{Case, Table};

/// The table in a file.
fn read_table(rt: &HostRuntime, name: &str) -> Result<Table, Error> {
    let text = fs::read_to_string(rt, name)?;
    Ok(toml::from_str(rt.alloc(), text.as_str())?)
}

fn main(rt: HostRuntime) -> Result<(), Error> {
    for name in env::args(&rt)?.skip(1) {
        println!(rt; "== {name}")?;
        let table = read_table(&rt, name.as_str())?;
        for case in table.case.as_slice() {
            print_outcome(&rt, case)?;
        }
    }
    Ok(())
}
