//! Cases of the libraries' public calls, as data: each case of the tables that the words name is a call on a text or over a
//! specification, and what the call answers is printed, in whole lines. The stored output has the expected answers.
#![tactic(auto)]

ghost use Rattle.std.specs.Prelude.{◌≤◌, length};

mod automata;
mod certificates;
mod checks;
mod matching;
mod members;
mod merging;
mod outcomes;
mod pairs;
mod sizes;
mod specifications;
mod stages;
mod steps;
mod store_steps;
mod table;
mod texts;

use anyhow::Error;
use std::alloc::{AllocError, Global};
use std::{env, fs};
use ta_core::Spec;
use table::{Call, Table};
use timbuk_reader::read_spec;

/// The most bytes of a specification.
const MAX_SPEC: usize = 1_048_576;

/// The most rules of a specification: calls ask that 32 bits number them.
const MAX_RULES: usize = 1000;

/// The most bytes of a text that isn't read beside a specification.
const MAX_TEXT: usize = 1000;

/// The table in a file.
fn read_table(rt: &HostRuntime, name: &str) -> Result<Table, Error> {
    let text = fs::read_to_string(rt, name)?;
    Ok(toml::from_str(rt.alloc(), text.as_str())?)
}

/// The specification in a file, where it has one.
fn spec_of(rt: &HostRuntime, name: &str) -> Result<Option<Spec>, Error> {
    let bytes = fs::read(rt, name)?;
    if bytes.len() > MAX_SPEC {
        return Ok(None);
    }
    Ok(read_spec(rt.alloc(), bytes.as_slice()).ok())
}

/// What a call on a text answers.
fn answer_on_text(alloc: Global, call: &Call) -> Result<String, AllocError> {
    let text = call.text(0).as_bytes();
    if text.len() > MAX_TEXT {
        return format!(in alloc; "a long text\n");
    }
    match call.call.as_str() {
        "tokens" => texts::token_lines(alloc, text),
        "terminals" => texts::terminal_lines(alloc, text),
        "word" => texts::word_line(alloc, text),
        "tokens of their own" => texts::own_token_lines(alloc, text),
        _ => format!(in alloc; "no such call on a text\n"),
    }
}

/// What a call over a specification answers.
fn answer_over(alloc: Global, spec: &Spec, call: &Call) -> Result<String, AllocError>
    requires { length spec.now.rules ≤ 1000 }
{
    match call.call.as_str() {
        "automata" => specifications::both_automata(alloc, spec),
        "rules and equations" => specifications::rules_and_equations(alloc, spec),
        "entries" => specifications::entries(alloc, spec),
        "term" => steps::spelled_term(alloc, spec, call),
        "steps" => steps::steps_from(alloc, spec, call),
        "derivation" => steps::replay_along(alloc, spec, call),
        "steps over a store" => store_steps::steps_compared(alloc, spec, call),
        "check" => checks::check_with(alloc, spec, call),
        "open pairs" => pairs::open_pair_lines(alloc, spec, call),
        "matches of the sides" => matching::side_matches(alloc, spec),
        "matches" => matching::left_side_matches(alloc, spec, call),
        "least sizes" => sizes::least_sizes(alloc, spec),
        "productive states" => sizes::productive_states(alloc, spec),
        "stages" => stages::last_stage(alloc, spec, call),
        "first stage" => stages::first_stage(alloc, spec),
        "forced pairs" => merging::forced_pairs(alloc, spec, call),
        "merged" => merging::merged_with_images(alloc, spec),
        "joined" => merging::joined(alloc, spec, call),
        "certificate" => certificates::read_again(alloc, spec, call),
        "undecided" => outcomes::undecided_text(alloc, spec, call),
        _ => format!(in alloc; "no such call over a specification\n"),
    }
}

/// What a call answers over the specification in a file.
fn answer_over_file(rt: &HostRuntime, name: &str, call: &Call) -> Result<String, Error> {
    let alloc = rt.alloc();
    let Some(spec) = spec_of(rt, name)? else {
        return Ok(format!(in alloc; "no specification\n")?);
    };
    if spec.rules.len() > MAX_RULES {
        return Ok(format!(in alloc; "many rules\n")?);
    }
    Ok(answer_over(alloc, &spec, call)?)
}

/// What a call answers.
fn answer_to(rt: &HostRuntime, call: &Call) -> Result<String, Error> {
    match &call.spec {
        Some(name) => answer_over_file(rt, name.as_str(), call),
        None => Ok(answer_on_text(rt.alloc(), call)?),
    }
}

/// Prints what a case shows, and what its call answers.
fn print_call(rt: &HostRuntime, call: &Call) -> Result<(), Error> {
    println!(rt; "\n{}", call.shows)?;
    let answer = answer_to(rt, call)?;
    print!(rt; "{answer}")?;
    Ok(())
}

fn main(rt: HostRuntime) -> Result<(), Error> {
    for name in env::args(&rt)?.skip(1) {
        println!(rt; "== {name}")?;
        let table = read_table(&rt, name.as_str())?;
        for call in table.call.as_slice() {
            print_call(&rt, call)?;
        }
    }
    Ok(())
}
