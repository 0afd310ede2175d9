//! The lines of a certificate, each taken exactly or refused.
ghost use Rattle.std.specs.Prelude.{◌≡◌, ◌↔◌, ℕ, List, ◌+◌, ◌≤◌, ◌<◌, ◌++◌, ◌∷◌, [], true, false, Some, None, Ok, Err};
ghost use Rattle.std.specs.Prelude.{IsTrue, IfOk, IfErr, OnOk, IfSome, IsNone, All, Contains, length};
ghost use Rattle.std.specs.Ordering.{nat_cmp};
ghost use Rattle.std.specs.List.Sorted.{IsStrictlySortedBy, IsStrictlyIncreasing};
ghost use Rattle.ta_core.specs.declared.spec.Spec.{Spec as ASpec};
ghost use Rattle.cert_text.specs.declared.certificate.CertError.TheVariants.{Fault};
ghost use Rattle.cert_text.specs.declared.certificate.CertFault.{CertFault as AFault};
ghost use Rattle.ranked_terms.specs.Texts.{number_word};
ghost use Rattle.cert_text.specs.Cuts.{Lacks};
ghost use Rattle.cert_text.specs.Lines as line;
ghost use Rattle.cert_text.specs.Certificates.{note_lines};
ghost use Rattle.cert_text.specs.Faults.{Known, nothing, learn, Takes};
ghost use Rattle.cert_text.specs.Taking.{IsCounted, IsFirstLine, Taken, Refused, FaultFrom, verdict, noted, listed_lines};
ghost use Rattle.cert_text.specs.Taking.{listed_known, IsNumberLine, LacksNumberLine};

use crate::certificate::{CertError, CertFault, CertKind};
use crate::cuts::{is_text, number_behind, numbers_behind, parts};
use crate::states::{States, are_listed};
use std::alloc::Global;
use ta_core::MAX_STATES;

/// The largest number of rounds that is noted.
const MAX_ROUNDS: u32 = 1000;

/// The number behind the head, where it is at most this. `None` exactly where there is none.
fn bounded_behind(text: &[u8], head: &[u8], most: u32) -> Option<u32>
    requires { most ≤ 16384 }
    ensures some { IfSome result (λ n. (n ≤ most) × (text.now ≡ head.now ++ number_word n)) }
    ensures none { IsNone result → (n : ℕ) → n ≤ most → text.now ≡ head.now ++ number_word n → ⊥ }
{
    let number = number_behind(text, head)?;
    if number <= most { Some(number) } else { None }
}

/// Whether each number is below this one.
fn are_below(numbers: &[u32], bound: u32) -> bool
    ensures { IsTrue result ↔ All (λ n. n < bound) numbers.now }
{
    numbers.iter().all(|n| *n < bound)
}

/// Whether each number is above the one before.
fn increase(numbers: &[u32]) -> bool
    ensures { IsTrue result ↔ IsStrictlyIncreasing numbers.now }
{
    for at in 1..numbers.len() {
        if numbers[at - 1] >= numbers[at] {
            return false;
        }
    }
    true
}

/// Whether the numbers ascend.
fn ascend(numbers: &[u32]) -> bool
    ensures { IsTrue result ↔ IsStrictlySortedBy nat_cmp numbers.now }
{
    increase(numbers)
}

/// What the lines between the verdict and the map tell.
#[derive(Drop)]
pub(crate) struct Listed {
    pub(crate) rounds: u32,
    pub(crate) precise: bool,
    pub(crate) next: u32,
    pub(crate) states: States,
    pub(crate) finals: Vec<u32>,
}

/// The bytes that are not read yet, and the number of the line that was begun last.
#[derive(Drop)]
pub(crate) struct Reader<'a> {
    pub(crate) rest: &'a [u8],
    pub(crate) line: u32,
}

impl<'a> Reader<'a> {
    /// At the first line.
    pub(crate) fn new(bytes: &'a [u8]) -> Reader<'a>
        ensures rest { result.rest.now ≡ bytes.now }
        ensures line { result.line ≡ 0 }
    {
        Reader {
            rest: bytes,
            line: 0,
        }
    }

    /// This fault of the line that was begun last.
    pub(crate) fn fault(&self, kind: CertKind) -> CertError
        ensures { result ≡ Fault (record { kind = kind; line = self.now.line }) }
    {
        CertError::Fault(CertFault {
            kind,
            line: self.line,
        })
    }

    /// The next line, and whether a newline ends it.
    pub(crate) fn take_line(&mut self) -> (&'a [u8], bool)
        requires { IsCounted self.old.line self.old.rest.now }
        ensures first { IsFirstLine self.old.rest.now result.0.now self.new.rest.now result.1 }
        ensures number { self.new.line ≡ self.old.line + 1 }
        ensures counted { result.1 ≡ true → IsCounted self.new.line self.new.rest.now }
    {
        self.line += 1;
        match parts(self.rest, b'\n') {
            Some((text, rest)) => {
                self.rest = rest;
                (text, true)
            }
            None => {
                let text = self.rest;
                self.rest = &text[text.len()..];
                (text, false)
            }
        }
    }

    /// The next line, where a newline ends it.
    pub(crate) fn whole_line(&mut self) -> Result<&'a [u8], CertError>
        requires { IsCounted self.old.line self.old.rest.now }
        ensures line { IfOk result (λ text. (self.old.rest.now ≡ text.now ++ 10 ∷ self.new.rest.now) × Lacks 10 text.now) }
        ensures fault { IfErr result (λ e. (e ≡ Fault (record { kind = CertKind.Line; line = self.new.line }))
            × Lacks 10 self.old.rest.now) }
        ensures number { self.new.line ≡ self.old.line + 1 }
        ensures counted { OnOk result (IsCounted self.new.line self.new.rest.now) }
    {
        let (text, ended) = self.take_line();
        if !ended {
            return Err(self.fault(CertKind::Line));
        }
        Ok(text)
    }

    /// The head.
    pub(crate) fn head(&mut self) -> Result<(), CertError>
        requires { IsCounted self.old.line self.old.rest.now }
        ensures taken { OnOk result ((spec : ASpec) (k : Known) → k.before ≡ None
            → Taken spec k self.old.rest.now line.head self.new.rest.now) }
        ensures refused { (f : AFault) → result ≡ Err (Fault f) → (spec : ASpec) (k : Known) → k.before ≡ None
            → Refused spec k self.old.rest.now self.new.line f }
        ensures number { self.new.line ≡ self.old.line + 1 }
        ensures counted { OnOk result (IsCounted self.new.line self.new.rest.now) }
    {
        let (text, ended) = self.take_line();
        if !is_text(text, b"Timbuk certificate 1") {
            return Err(self.fault(CertKind::Head));
        }
        if !ended {
            return Err(self.fault(CertKind::Line));
        }
        Ok(())
    }

    /// The verdict: whether a forbidden term is reachable.
    pub(crate) fn verdict(&mut self) -> Result<bool, CertError>
        requires { IsCounted self.old.line self.old.rest.now }
        ensures taken { IfOk result (λ reaches. (spec : ASpec) (k : Known) → k.before ≡ Some line.head
            → Taken spec k self.old.rest.now (verdict reaches) self.new.rest.now) }
        ensures refused { (f : AFault) → result ≡ Err (Fault f) → (spec : ASpec) (k : Known) → k.before ≡ Some line.head
            → Refused spec k self.old.rest.now self.new.line f }
        ensures number { self.new.line ≡ self.old.line + 1 }
        ensures counted { OnOk result (IsCounted self.new.line self.new.rest.now) }
    {
        let (text, ended) = self.take_line();
        let undecided = is_text(text, b"Verdict undecided");
        if undecided {
            return Err(self.fault(CertKind::NoClaim));
        }
        if !ended {
            return Err(self.fault(CertKind::Line));
        }
        let reaches = is_text(text, b"Verdict reachable");
        if reaches {
            return Ok(true);
        }
        let safe = is_text(text, b"Verdict unreachable");
        if safe {
            return Ok(false);
        }
        Err(self.fault(CertKind::Line))
    }

    /// The note of the rounds.
    pub(crate) fn rounds(&mut self) -> Result<u32, CertError>
        requires { IsCounted self.old.line self.old.rest.now }
        ensures taken { IfOk result (λ i. (spec : ASpec) (k : Known) → k.before ≡ Some line.unreachable
            → Taken spec k self.old.rest.now (line.rounds i) self.new.rest.now) }
        ensures refused { (f : AFault) → result ≡ Err (Fault f) → (spec : ASpec) (k : Known)
            → k.before ≡ Some line.unreachable → Refused spec k self.old.rest.now self.new.line f }
        ensures number { self.new.line ≡ self.old.line + 1 }
        ensures counted { OnOk result (IsCounted self.new.line self.new.rest.now) }
    {
        let text = match self.whole_line() {
            Ok(text) => text,
            Err(error) => return Err(error),
        };
        match bounded_behind(text, b"Note rounds ", MAX_ROUNDS) {
            Some(rounds) => Ok(rounds),
            None => Err(self.fault(CertKind::Line)),
        }
    }

    // The numbers behind the head of the next line, the greatest `u32` in the place of greater ones.
    fn numbers(&mut self, alloc: Global, head: &[u8]) -> Result<Vec<u32>, CertError>
        requires { IsCounted self.old.line self.old.rest.now }
        ensures taken { IfOk result (λ numbers. IsNumberLine head.now self.old.rest.now self.new.rest.now numbers.items) }
        ensures refused { (f : AFault) → result ≡ Err (Fault f)
            → (record { kind = CertKind.Line; line = self.new.line } ≡ f) × LacksNumberLine head.now self.old.rest.now }
        ensures number { self.new.line ≡ self.old.line + 1 }
        ensures counted { OnOk result (IsCounted self.new.line self.new.rest.now) }
    {
        let text = match self.whole_line() {
            Ok(text) => text,
            Err(error) => return Err(error),
        };
        let mut numbers = Vec::new(alloc);
        let told = numbers_behind(text, head, &mut numbers)?;
        if !told {
            return Err(self.fault(CertKind::Line));
        }
        Ok(numbers)
    }

    /// The states.
    pub(crate) fn states(&mut self, alloc: Global, next: u32) -> Result<Vec<u32>, CertError>
        requires few { next ≤ 16384 }
        requires counted { IsCounted self.old.line self.old.rest.now }
        ensures below { IfOk result (λ qs. All (λ q. q < next) qs.items) }
        ensures taken { IfOk result (λ qs. (spec : ASpec) (k : Known) → k.before ≡ Some (line.next next) → k.next ≡ next
            → Taken spec k self.old.rest.now (line.states qs.items) self.new.rest.now) }
        ensures refused { (f : AFault) → result ≡ Err (Fault f) → (spec : ASpec) (k : Known)
            → k.before ≡ Some (line.next next) → k.next ≡ next → Refused spec k self.old.rest.now self.new.line f }
        ensures number { self.new.line ≡ self.old.line + 1 }
        ensures counted { OnOk result (IsCounted self.new.line self.new.rest.now) }
    {
        let states = match self.numbers(alloc, b"States") {
            Ok(states) => states,
            Err(error) => return Err(error),
        };
        let listed = states.as_slice();
        let below = are_below(listed, next);
        if !below {
            return Err(self.fault(CertKind::State));
        }
        let sorted = ascend(listed);
        if !sorted {
            return Err(self.fault(CertKind::Order));
        }
        Ok(states)
    }

    /// The line behind the rounds: `None` where precision is noted, and else the number of the next state.
    pub(crate) fn after_rounds(&mut self) -> Result<Option<u32>, CertError>
        requires { IsCounted self.old.line self.old.rest.now }
        ensures taken { IfOk result (λ n. (spec : ASpec) (k : Known) (i : ℕ) → k.before ≡ Some (line.rounds i)
            → Taken spec k self.old.rest.now (noted n) self.new.rest.now) }
        ensures small { IfOk result (λ n. IfSome n (λ m. m ≤ 16384)) }
        ensures refused { (f : AFault) → result ≡ Err (Fault f) → (spec : ASpec) (k : Known) (i : ℕ)
            → k.before ≡ Some (line.rounds i) → Refused spec k self.old.rest.now self.new.line f }
        ensures number { self.new.line ≡ self.old.line + 1 }
        ensures counted { OnOk result (IsCounted self.new.line self.new.rest.now) }
    {
        let text = match self.whole_line() {
            Ok(text) => text,
            Err(error) => return Err(error),
        };
        let precise = is_text(text, b"Note precise modulo equations");
        if precise {
            return Ok(None);
        }
        match bounded_behind(text, b"Next ", MAX_STATES) {
            Some(next) => Ok(Some(next)),
            None => Err(self.fault(CertKind::Line)),
        }
    }

    /// The final states.
    pub(crate) fn finals(&mut self, alloc: Global, states: &States) -> Result<Vec<u32>, CertError>
        requires below { All (λ q. q < 16384) states.now }
        requires counted { IsCounted self.old.line self.old.rest.now }
        ensures taken { IfOk result (λ qs. (spec : ASpec) (k : Known) → k.before ≡ Some (line.states states.now)
            → k.states ≡ states.now → Taken spec k self.old.rest.now (line.finals qs.items) self.new.rest.now) }
        ensures refused { (f : AFault) → result ≡ Err (Fault f) → (spec : ASpec) (k : Known)
            → k.before ≡ Some (line.states states.now) → k.states ≡ states.now
            → Refused spec k self.old.rest.now self.new.line f }
        ensures number { self.new.line ≡ self.old.line + 1 }
        ensures counted { OnOk result (IsCounted self.new.line self.new.rest.now) }
    {
        let finals = match self.numbers(alloc, b"Finals") {
            Ok(finals) => finals,
            Err(error) => return Err(error),
        };
        let listed = finals.as_slice();
        let known = are_listed(listed, states);
        if !known {
            return Err(self.fault(CertKind::State));
        }
        let sorted = ascend(listed);
        if !sorted {
            return Err(self.fault(CertKind::Order));
        }
        Ok(finals)
    }

    /// The number of the next state, behind the note of precision.
    pub(crate) fn next(&mut self) -> Result<u32, CertError>
        requires { IsCounted self.old.line self.old.rest.now }
        ensures taken { IfOk result (λ n. (spec : ASpec) (k : Known) → k.before ≡ Some line.precise
            → Taken spec k self.old.rest.now (line.next n) self.new.rest.now) }
        ensures small { IfOk result (λ n. n ≤ 16384) }
        ensures refused { (f : AFault) → result ≡ Err (Fault f) → (spec : ASpec) (k : Known) → k.before ≡ Some line.precise
            → Refused spec k self.old.rest.now self.new.line f }
        ensures number { self.new.line ≡ self.old.line + 1 }
        ensures counted { OnOk result (IsCounted self.new.line self.new.rest.now) }
    {
        let text = match self.whole_line() {
            Ok(text) => text,
            Err(error) => return Err(error),
        };
        match bounded_behind(text, b"Next ", MAX_STATES) {
            Some(next) => Ok(next),
            None => Err(self.fault(CertKind::Line)),
        }
    }

    /// The head and the verdict.
    pub(crate) fn front(&mut self) -> Result<bool, CertError>
        requires { IsCounted self.old.line self.old.rest.now }
        ensures taken { IfOk result (λ reaches. (spec : ASpec)
            → Takes spec nothing self.old.rest.now (line.head ∷ verdict reaches ∷ []) (learn (verdict reaches)
            (learn line.head nothing)) self.new.rest.now) }
        ensures refused { (f : AFault) → result ≡ Err (Fault f) → (spec : ASpec)
            → FaultFrom spec nothing self.old.rest.now self.old.line f }
        ensures number { OnOk result (self.new.line ≡ self.old.line + 2) }
        ensures counted { OnOk result (IsCounted self.new.line self.new.rest.now) }
    {
        match self.head() {
            Ok(()) => {}
            Err(error) => return Err(error),
        }
        match self.verdict() {
            Ok(reaches) => Ok(reaches),
            Err(wrong) => Err(wrong),
        }
    }

    /// The note of precision, where there is one, and the number of the next state.
    pub(crate) fn notes(&mut self) -> Result<(bool, u32), CertError>
        requires { IsCounted self.old.line self.old.rest.now }
        ensures taken { IfOk result (λ x. (spec : ASpec) (k : Known) (i : ℕ) → k.before ≡ Some (line.rounds i)
            → Takes spec k self.old.rest.now (note_lines x.0 ++ line.next x.1 ∷ [])
            (record k { before = Some (line.next x.1); next = x.1 }) self.new.rest.now) }
        ensures small { IfOk result (λ x. x.1 ≤ 16384) }
        ensures refused { (f : AFault) → result ≡ Err (Fault f) → (spec : ASpec) (k : Known) (i : ℕ)
            → k.before ≡ Some (line.rounds i) → FaultFrom spec k self.old.rest.now self.old.line f }
        ensures number { IfOk result (λ x. self.new.line ≡ self.old.line + length (note_lines x.0) + 1) }
        ensures counted { OnOk result (IsCounted self.new.line self.new.rest.now) }
    {
        let behind = match self.after_rounds() {
            Ok(behind) => behind,
            Err(error) => return Err(error),
        };
        match behind {
            Some(next) => return Ok((false, next)),
            None => {}
        }
        match self.next() {
            Ok(next) => Ok((true, next)),
            Err(wrong) => Err(wrong),
        }
    }

    /// What stands behind the verdict, as far as the final states.
    pub(crate) fn listed(&mut self, alloc: Global) -> Result<Listed, CertError>
        requires { IsCounted self.old.line self.old.rest.now }
        ensures taken { IfOk result (λ x. (spec : ASpec) (k : Known) → k.before ≡ Some line.unreachable
            → Takes spec k self.old.rest.now (listed_lines x.rounds x.precise x.next x.states x.finals.items)
            (listed_known k x.next x.states x.finals.items) self.new.rest.now) }
        ensures refused { (f : AFault) → result ≡ Err (Fault f) → (spec : ASpec) (k : Known)
            → k.before ≡ Some line.unreachable → FaultFrom spec k self.old.rest.now self.old.line f }
        ensures below { IfOk result (λ x. All (λ q. q < 16384) x.states) }
        ensures number { IfOk result (λ x. self.new.line ≡ self.old.line + length
            (listed_lines x.rounds x.precise x.next x.states x.finals.items)) }
        ensures counted { OnOk result (IsCounted self.new.line self.new.rest.now) }
    {
        let rounds = match self.rounds() {
            Ok(rounds) => rounds,
            Err(error) => return Err(error),
        };
        let (precise, next) = match self.notes() {
            Ok(notes) => notes,
            Err(error2) => return Err(error2),
        };
        let states = match self.states(alloc, next) {
            Ok(states) => states,
            Err(error3) => return Err(error3),
        };
        let states = States::new(alloc, next, states)?;
        let finals = match self.finals(alloc, &states) {
            Ok(finals) => finals,
            Err(error4) => return Err(error4),
        };
        Ok(Listed {
            rounds,
            precise,
            next,
            states,
            finals,
        })
    }

    /// The map, from as many states as this.
    pub(crate) fn maps(
        &mut self,
        alloc: Global,
        count: usize,
        states: &States,
    ) -> Result<Vec<u32>, CertError>
        requires below { All (λ q. q < 16384) states.now }
        requires counted { IsCounted self.old.line self.old.rest.now }
        ensures taken { IfOk result (λ qs. (spec : ASpec) (k : Known) (fs : List ℕ) → count ≡ length spec.initial.states
            → k.before ≡ Some (line.finals fs) → k.states ≡ states.now
            → Taken spec k self.old.rest.now (line.maps qs.items) self.new.rest.now) }
        ensures refused { (f : AFault) → result ≡ Err (Fault f) → (spec : ASpec) (k : Known) (fs : List ℕ)
            → count ≡ length spec.initial.states → k.before ≡ Some (line.finals fs) → k.states ≡ states.now
            → Refused spec k self.old.rest.now self.new.line f }
        ensures number { self.new.line ≡ self.old.line + 1 }
        ensures counted { OnOk result (IsCounted self.new.line self.new.rest.now) }
    {
        let images = match self.numbers(alloc, b"Map") {
            Ok(images) => images,
            Err(error) => return Err(error),
        };
        let listed = images.as_slice();
        if listed.len() != count {
            return Err(self.fault(CertKind::Count));
        }
        let known = are_listed(listed, states);
        if !known {
            return Err(self.fault(CertKind::State));
        }
        Ok(images)
    }

    /// Whether nothing stands behind the end.
    pub(crate) fn over(&self) -> Result<(), CertError>
        requires { IsCounted self.now.line self.now.rest.now }
        ensures over { OnOk result (self.now.rest.now ≡ []) }
        ensures refused { (f : AFault) → result ≡ Err (Fault f) → (spec : ASpec) (k : Known) → k.before ≡ Some line.end
            → Refused spec k self.now.rest.now (self.now.line + 1) f }
    {
        if self.rest.is_empty() {
            return Ok(());
        }
        Err(CertError::Fault(CertFault {
            kind: CertKind::Line,
            line: self.line + 1,
        }))
    }
}
