//! The text of an outcome.
ghost use Rattle.std.specs.Prelude.{◌≡◌, [], ◌++◌, ◌∷◌, IfOk, OnOk, IsTrue, map};
ghost use Rattle.std.specs.List.{flat_map, list_all};
ghost use Rattle.ranked_terms.specs.Terms.{is_over};
ghost use Rattle.ranked_terms.specs.Texts.{number_word, with_args, symbol_text};
ghost use Rattle.cert_text.specs.Words.{position_word, line_text, text_of};
ghost use Rattle.cert_text.specs.Lines.{words_of, eps as eps_line};
ghost use Rattle.cert_text.specs.Certificates.{outcome_is_over, certificate_text, trans_line, step_line, derivation_is_over};
ghost use Rattle.cert_text.specs.Certificates.{least_is_over, reason_is_over, least_word, note_lines, reason_words};
ghost use Rattle.cert_text.specs.Certificates.{mark_words, claim_lines, path_lines, middle_words};

use crate::outcome::{Mark, Outcome, Reason};
use crate::words::{push_joined, push_number, push_numbers};
use ranked_terms::{Seq, Signature};
use std::alloc::{AllocError, Global};
use ta_clean::Least;
use ta_core::{Automaton, Map, Spec, Trans};
use trs_rules::{DStep, Derivation};

/// Appends the line of this head with the numbers behind it.
fn push_number_line(out: &mut Vec<u8>, head: &[u8], numbers: &[u32]) -> Result<(), AllocError>
    ensures { OnOk result (out.new.items ≡ out.old.items ++ line_text (head.now ∷ map number_word numbers.now)) }
{
    out.extend_from_slice(head)?;
    push_numbers(out, b' ', numbers)?;
    out.push(b'\n')?;
    Ok(())
}

/// Appends the name of a symbol, and nothing where there is none of this number.
fn push_name(out: &mut Vec<u8>, sig: &Signature, sym: u32) -> Result<(), AllocError>
    ensures { OnOk result (out.new.items ≡ out.old.items ++ symbol_text sig.now sym) }
{
    match sig.name(sym) {
        Some(name) => out.extend_from_slice(name.as_bytes()),
        None => Ok(()),
    }
}

/// Appends the numbers in brackets, and nothing where there are none.
fn push_args(out: &mut Vec<u8>, args: &[u32]) -> Result<(), AllocError>
    ensures { OnOk result (out.new.items ≡ out.old.items ++ with_args [] (map number_word args.now)) }
{
    if args.is_empty() {
        return Ok(());
    }
    out.push(b'(')?;
    push_joined(out, b',', args)?;
    out.push(b')')?;
    Ok(())
}

/// Appends the line of a transition.
fn push_trans(out: &mut Vec<u8>, sig: &Signature, trans: &Trans) -> Result<(), AllocError>
    ensures { OnOk result (out.new.items ≡ out.old.items ++ line_text (words_of (trans_line sig.now trans.now))) }
{
    out.extend_from_slice(b"T ")?;
    push_name(out, sig, trans.sym)?;
    push_args(out, trans.args.as_slice())?;
    out.extend_from_slice(b" -> ")?;
    push_number(out, trans.to)?;
    out.push(b'\n')?;
    Ok(())
}

/// Appends the lines of transitions.
fn push_all_trans(out: &mut Vec<u8>, sig: &Signature, trans: &[Trans]) -> Result<(), AllocError>
    ensures { OnOk result (out.new.items ≡ out.old.items ++ flat_map
        (λ t. line_text (words_of (trans_line sig.now t))) trans.now) }
{
    for each in trans {
        push_trans(out, sig, each)?;
    }
    Ok(())
}

/// Appends the line of an epsilon transition.
fn push_eps(out: &mut Vec<u8>, from: u32, to: u32) -> Result<(), AllocError>
    ensures { OnOk result (out.new.items ≡ out.old.items ++ line_text (words_of (eps_line from to))) }
{
    out.extend_from_slice(b"E ")?;
    push_number(out, from)?;
    out.extend_from_slice(b" -> ")?;
    push_number(out, to)?;
    out.push(b'\n')?;
    Ok(())
}

/// Appends the lines of epsilon transitions.
fn push_all_eps(out: &mut Vec<u8>, eps: &[(u32, u32)]) -> Result<(), AllocError>
    ensures { OnOk result (out.new.items ≡ out.old.items ++ flat_map (λ e. line_text (words_of (eps_line e.0 e.1))) eps.now) }
{
    for (from, to) in eps {
        push_eps(out, *from, *to)?;
    }
    Ok(())
}

/// Appends the line that notes precision, where there is one.
fn push_note(out: &mut Vec<u8>, precise: bool) -> Result<(), AllocError>
    ensures { OnOk result (out.new.items ≡ out.old.items ++ text_of (map words_of (note_lines precise))) }
{
    if precise {
        out.extend_from_slice(b"Note precise modulo equations\n")?;
    }
    Ok(())
}

/// Appends the lines between the head and the end that claim that no forbidden term is reachable.
fn push_claim(
    out: &mut Vec<u8>,
    sig: &Signature,
    rounds: u32,
    precise: bool,
    automaton: &Automaton,
    images: &Map,
) -> Result<(), AllocError>
    ensures { OnOk result (out.new.items ≡ out.old.items ++ text_of (map words_of
        (claim_lines sig.now rounds precise automaton.now images.now))) }
{
    out.extend_from_slice(b"Verdict unreachable\n")?;
    push_number_line(out, b"Note rounds", &[rounds])?;
    push_note(out, precise)?;
    push_number_line(out, b"Next", &[automaton.next()])?;
    push_number_line(out, b"States", automaton.states())?;
    push_number_line(out, b"Finals", automaton.finals())?;
    push_number_line(out, b"Map", images.as_slice())?;
    push_all_trans(out, sig, automaton.trans())?;
    push_all_eps(out, automaton.eps())?;
    Ok(())
}

/// Appends a position's word.
fn push_position(out: &mut Vec<u8>, at: &[u32]) -> Result<(), AllocError>
    ensures { OnOk result (out.new.items ≡ out.old.items ++ position_word at.now) }
{
    if at.is_empty() {
        out.push(b'e')?;
        return Ok(());
    }
    push_joined(out, b'.', at)
}

/// Appends the line of a step.
fn push_step(out: &mut Vec<u8>, sig: &Signature, step: &DStep) -> Result<(), AllocError>
    requires { IsTrue (is_over sig.now step.now.term) }
    ensures { OnOk result (out.new.items ≡ out.old.items ++ line_text (words_of (step_line sig.now step.now))) }
{
    out.extend_from_slice(b"Step ")?;
    push_number(out, step.rule)?;
    out.push(b' ')?;
    push_position(out, step.at.as_slice())?;
    out.push(b' ')?;
    step.term.print_into(sig, out)?;
    out.push(b'\n')?;
    Ok(())
}

/// Appends the lines of steps.
fn push_all_steps(out: &mut Vec<u8>, sig: &Signature, steps: &[DStep]) -> Result<(), AllocError>
    requires { IsTrue (list_all (λ step. is_over sig.now step.term) steps.now) }
    ensures { OnOk result (out.new.items ≡ out.old.items ++ flat_map
        (λ d. line_text (words_of (step_line sig.now d))) steps.now) }
{
    for step in steps {
        push_step(out, sig, step)?;
    }
    Ok(())
}

/// Appends the lines between the head and the end that tell a derivation.
fn push_path(out: &mut Vec<u8>, sig: &Signature, d: &Derivation) -> Result<(), AllocError>
    requires { IsTrue (derivation_is_over sig.now d.now) }
    ensures { OnOk result (out.new.items ≡ out.old.items ++ text_of (map words_of (path_lines sig.now d.now))) }
{
    out.extend_from_slice(b"Verdict reachable\nStart ")?;
    d.start.print_into(sig, out)?;
    out.push(b'\n')?;
    push_all_steps(out, sig, d.steps.as_slice())?;
    Ok(())
}

/// Appends the word of a least term.
fn push_least(out: &mut Vec<u8>, sig: &Signature, least: &Least) -> Result<(), AllocError>
    requires { IsTrue (least_is_over sig.now least.now) }
    ensures { OnOk result (out.new.items ≡ out.old.items ++ least_word sig.now least.now) }
{
    match least {
        Least::Term(term) => term.print_into(sig, out),
        Least::Large => out.extend_from_slice(b"large"),
    }
}

/// Appends the line that says why nothing is settled.
fn push_reason(out: &mut Vec<u8>, sig: &Signature, reason: &Reason) -> Result<(), AllocError>
    requires { IsTrue (reason_is_over sig.now reason.now) }
    ensures { OnOk result (out.new.items ≡ out.old.items ++ line_text (reason_words sig.now reason.now)) }
{
    match reason {
        Reason::Meets(stage, least) => {
            out.extend_from_slice(b"Reason meets ")?;
            push_number(out, *stage)?;
            out.push(b' ')?;
            push_least(out, sig, least)?;
            out.push(b'\n')?;
            Ok(())
        }
        Reason::Rounds(stage) => push_number_line(out, b"Reason rounds", &[*stage]),
        Reason::Pairs(stage) => push_number_line(out, b"Reason pairs", &[*stage]),
        Reason::States(stage) => push_number_line(out, b"Reason states", &[*stage]),
    }
}

/// Appends the line that says how the search ended.
fn push_mark(out: &mut Vec<u8>, mark: &Mark) -> Result<(), AllocError>
    ensures { OnOk result (out.new.items ≡ out.old.items ++ line_text (mark_words mark.now)) }
{
    match mark {
        Mark::Exhausted(depth) => push_number_line(out, b"Search exhausted", &[*depth]),
        Mark::Over(depth) => push_number_line(out, b"Search over", &[*depth]),
    }
}

/// Appends what stands between the head and the end.
fn push_middle(out: &mut Vec<u8>, sig: &Signature, o: &Outcome) -> Result<(), AllocError>
    requires { IsTrue (outcome_is_over sig.now o.now) }
    ensures { OnOk result (out.new.items ≡ out.old.items ++ text_of (middle_words sig.now o.now)) }
{
    match o {
        Outcome::Unreachable {
            rounds,
            precise,
            automaton,
            map,
        } => push_claim(out, sig, *rounds, *precise, automaton, map),
        Outcome::Reachable(d) => push_path(out, sig, d),
        Outcome::Undecided { reason, search } => {
            out.extend_from_slice(b"Verdict undecided\n")?;
            push_reason(out, sig, reason)?;
            push_mark(out, search)
        }
    }
}

/// The text of the outcome. Its symbols are those of the specification's signature, with their arities. The only error is want
/// of memory.
pub fn cert_bytes(alloc: Global, spec: &Spec, o: &Outcome) -> Result<Seq<u8>, AllocError>
    requires { IsTrue (outcome_is_over spec.now.signature o.now) }
    ensures { IfOk result (λ bytes. bytes ≡ certificate_text spec.now o.now) }
{
    let mut out = Vec::new(alloc);
    out.extend_from_slice(b"Timbuk certificate 1\n")?;
    push_middle(&mut out, &spec.signature, o)?;
    out.extend_from_slice(b"End\n")?;
    Ok(Seq::from_vec(out))
}
