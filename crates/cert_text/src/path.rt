//! The lines of a derivation.
ghost use Rattle.std.specs.Prelude.{◌≡◌, ◌↔◌, ℕ, List, ◌+◌, ◌≤◌, ◌<◌, ◌++◌, ◌∷◌, [], Some, None, Ok, Err, true, false};
ghost use Rattle.std.specs.Prelude.{IsTrue, IfOk, OnOk, IfSome, IsNone, All, length};
ghost use Rattle.ta_core.specs.declared.spec.Spec.{Spec as ASpec};
ghost use Rattle.ranked_terms.specs.Texts.{IsTextOf, term_text};
ghost use Rattle.cert_text.specs.declared.certificate.CertError.TheVariants.{Fault};
ghost use Rattle.cert_text.specs.declared.certificate.CertFault.{CertFault as AFault};
ghost use Rattle.cert_text.specs.Words.{position_word};
ghost use Rattle.cert_text.specs.TermForms.{IsTermText};
ghost use Rattle.cert_text.specs.Cuts.{Lacks};
ghost use Rattle.cert_text.specs.Lines as line;
ghost use Rattle.cert_text.specs.Lines.{IsPlace};
ghost use Rattle.cert_text.specs.Certificates.{IsCertTerm, IsCertStep};
ghost use Rattle.cert_text.specs.Faults.{Known};
ghost use Rattle.cert_text.specs.Taking.{IsCounted, Taken, Refused};
ghost use Rattle.cert_text.specs.Whole.{IsTakenBehind, IsFaultBehind};
ghost use Rattle.cert_text.specs.Paths.{ArePlaces, IsPosition, AreFields, fields_text, IsStepText, IsWrongTerm, IsAtStep};
ghost use Rattle.cert_text.specs.Paths.{path_line, AreStepsToEnd, IsBadStep};

use crate::certificate::{CertError, CertKind, Certificate};
use crate::cuts::{behind_head, is_text, parts, read_numbers};
use crate::taking::Reader;
use crate::terms::is_term_text;
use crate::words::number_of;
use ranked_terms::{MAX_ARITY, Position, Seq, Signature, Term, term_from};
use std::alloc::{AllocError, Global};
use ta_core::Spec;
use trs_rules::{DStep, Derivation};

/// The largest number of a rule.
const MAX_RULE: u32 = 4095;

/// The most numbers of a position.
const MAX_POSITION: usize = 1024;

/// The largest number of steps.
const MAX_STEPS: usize = 100;

// Whether each number is one of an argument.
fn are_arguments(at: &[u32]) -> bool
    ensures { IsTrue result ↔ All IsPlace at.now }
{
    at.iter().all(|k| 1 <= *k && *k <= MAX_ARITY)
}

// Whether the numbers are a position within its bounds.
fn are_places(at: &[u32]) -> bool
    ensures { IsTrue result ↔ ArePlaces at.now }
{
    at.len() <= MAX_POSITION && are_arguments(at)
}

// Puts the position whose word this is into `at`. `false` exactly where the word is no position's within its bounds. The only
// error is running out of memory.
fn position_of(word: &[u8], at: &mut Vec<u32>) -> Result<bool, AllocError>
    ensures yes { result ≡ Ok true → IsPosition word.now at.new.items }
    ensures no { result ≡ Ok false → (ks : List ℕ) → ArePlaces ks → word.now ≡ position_word ks → ⊥ }
{
    at.clear();
    let root = is_text(word, b"e");
    if root {
        return Ok(true);
    }
    if !read_numbers(Some(word), b'.', at)? {
        return Ok(false);
    }
    let places = are_places(at.as_slice());
    Ok(places)
}

// The rule's number, the greatest `u32` in the place of a greater one, the position's word and the term's of a step's line.
fn fields_of(text: &[u8]) -> Option<(u32, &[u8], &[u8])>
    ensures some { IfSome result (λ r. AreFields text.now r.0 r.1.now r.2.now) }
    ensures none { IsNone result → (r : ℕ) (position : List ℕ) (t : List ℕ) → Lacks 32 position
        → text.now ≡ fields_text r position t → ⊥ }
{
    let (rule, rest) = parts(behind_head(text, b"Step ")?, b' ')?;
    let rule = number_of(rule)?;
    let (position, term) = parts(rest, b' ')?;
    Some((rule, position, term))
}

// The rule's number and the term's word of a step's line, whose position is put into `at`. `None` exactly where the fields are
// not these within their bounds. The only error is running out of memory.
fn step_fields<'a>(text: &'a [u8], at: &mut Vec<u32>) -> Result<Option<(u32, &'a [u8])>, AllocError>
    ensures some { IfOk result (λ o. IfSome o (λ r. IsStepText text.now r.0 at.new.items r.1.now)) }
    ensures none { result ≡ Ok None → (r : ℕ) (ks : List ℕ) (t : List ℕ) → r ≤ 4095 → ArePlaces ks
        → text.now ≡ fields_text r (position_word ks) t → ⊥ }
{
    let Some((rule, position, term)) = fields_of(text) else {
        return Ok(None);
    };
    if rule > MAX_RULE {
        return Ok(None);
    }
    if !position_of(position, at)? {
        return Ok(None);
    }
    Ok(Some((rule, term)))
}

impl<'a> Reader<'a> {
    // The term of this text, or the fault of the line that was begun last.
    fn term(&self, alloc: Global, sig: &Signature, text: &[u8]) -> Result<Term, CertError>
        ensures right { IfOk result (λ t. IsTextOf sig.now text.now t × IsTermText text.now) }
        ensures wrong { (f : AFault) → result ≡ Err (Fault f) → (f.line ≡ self.now.line) × IsWrongTerm sig.now text.now f.kind }
    {
        // For the proof: the symbols' names are words.
        let _symbols = sig.len();
        match term_from(alloc, sig, text)? {
            Some(term) => Ok(term),
            None => {
                let formed = is_term_text(text);
                if formed {
                    Err(self.fault(CertKind::Symbol))
                } else {
                    Err(self.fault(CertKind::Line))
                }
            }
        }
    }

    /// The start.
    pub(crate) fn start(&mut self, alloc: Global, sig: &Signature) -> Result<Term, CertError>
        requires counted { IsCounted self.old.line self.old.rest.now }
        ensures taken { IfOk result (λ t. (spec : ASpec) (k : Known) → spec.signature ≡ sig.now
            → k.before ≡ Some line.reachable
            → Taken spec k self.old.rest.now (line.start (term_text sig.now t)) self.new.rest.now) }
        ensures refused { (f : AFault) → result ≡ Err (Fault f) → (spec : ASpec) (k : Known) → spec.signature ≡ sig.now
            → k.before ≡ Some line.reachable → Refused spec k self.old.rest.now self.new.line f }
        ensures term { IfOk result (IsCertTerm sig.now) }
        ensures number { self.new.line ≡ self.old.line + 1 }
        ensures counted { OnOk result (IsCounted self.new.line self.new.rest.now) }
    {
        let text = match self.whole_line() {
            Ok(text) => text,
            Err(error) => return Err(error),
        };
        let word = match behind_head(text, b"Start ") {
            Some(word) => word,
            None => return Err(self.fault(CertKind::Line)),
        };
        match self.term(alloc, sig, word) {
            Ok(term) => Ok(term),
            Err(wrong) => Err(wrong),
        }
    }

    // A line behind the start or behind a step, where so many steps came before: the next one, or `None` at the end. `at` is
    // room for its position.
    fn step(
        &mut self,
        alloc: Global,
        sig: &Signature,
        count: usize,
        at: &mut Vec<u32>,
    ) -> Result<Option<DStep>, CertError>
        requires counted { IsCounted self.old.line self.old.rest.now }
        ensures taken { IfOk result (λ d. (spec : ASpec) (k : Known) → IsAtStep sig.now count spec k
            → Taken spec k self.old.rest.now (path_line sig.now d) self.new.rest.now) }
        ensures refused { (f : AFault) → result ≡ Err (Fault f) → (spec : ASpec) (k : Known)
            → IsAtStep sig.now count spec k → Refused spec k self.old.rest.now self.new.line f }
        ensures right { IfOk result (λ d. IfSome d (λ step. IsCertStep sig.now step × (count < 100))) }
        ensures number { self.new.line ≡ self.old.line + 1 }
        ensures counted { OnOk result (IsCounted self.new.line self.new.rest.now) }
    {
        let text = match self.whole_line() {
            Ok(text) => text,
            Err(error) => return Err(error),
        };
        let over = is_text(text, b"End");
        if over {
            return Ok(None);
        }
        let (rule, word) = match step_fields(text, at)? {
            Some(fields) => fields,
            None => return Err(self.fault(CertKind::Line)),
        };
        let term = match self.term(alloc, sig, word) {
            Ok(term) => term,
            Err(wrong) => return Err(wrong),
        };
        if count >= MAX_STEPS {
            return Err(self.fault(CertKind::Count));
        }
        let at = Position::from_slice(alloc, at.as_slice())?;
        Ok(Some(DStep { rule, at, term }))
    }

    /// The steps behind the start, and the end.
    pub(crate) fn steps(&mut self, alloc: Global, sig: &Signature) -> Result<Vec<DStep>, CertError>
        requires counted { IsCounted self.old.line self.old.rest.now }
        ensures taken { IfOk result (λ ds. AreStepsToEnd sig.now self.old.rest.now self.new.rest.now ds.items) }
        ensures refused { (f : AFault) → result ≡ Err (Fault f) → IsBadStep sig.now self.old.rest.now self.old.line f }
        ensures number { IfOk result (λ ds. self.new.line ≡ self.old.line + length ds.items + 1) }
        ensures counted { OnOk result (IsCounted self.new.line self.new.rest.now) }
    {
        let mut steps = Vec::new(alloc);
        let mut at = Vec::new(alloc);
        loop {
            match self.step(alloc, sig, steps.len(), &mut at) {
                Ok(None) => return Ok(steps),
                Ok(Some(step)) => match steps.push(step) {
                    Ok(_) => {}
                    Err(_) => return Err(CertError::Memory),
                },
                Err(error) => return Err(error),
            }
        }
    }

    /// The lines behind the verdict that a forbidden term is reachable.
    pub(crate) fn path(&mut self, alloc: Global, spec: &Spec) -> Result<Certificate, CertError>
        requires counted { IsCounted self.old.line self.old.rest.now }
        ensures taken { IfOk result
            (λ c. IsTakenBehind spec.now line.reachable self.old.rest.now self.old.line self.new.rest.now self.new.line c) }
        ensures refused { (f : AFault) → result ≡ Err (Fault f)
            → IsFaultBehind spec.now line.reachable self.old.rest.now self.old.line f }
        ensures counted { OnOk result (IsCounted self.new.line self.new.rest.now) }
    {
        let start = match self.start(alloc, &spec.signature) {
            Ok(start) => start,
            Err(error) => return Err(error),
        };
        let steps = match self.steps(alloc, &spec.signature) {
            Ok(steps) => steps,
            Err(wrong) => return Err(wrong),
        };
        Ok(Certificate::Reachable(Derivation {
            start,
            steps: Seq::from_vec(steps),
        }))
    }
}
