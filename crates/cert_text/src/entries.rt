//! The lines of transitions and of epsilon transitions.
ghost use Rattle.std.specs.Prelude.{◌≡◌, ◌↔◌, ℕ, List, ◌+◌, ◌≤◌, ◌<◌, ◌++◌, ◌∷◌, [], Some, None, Ok, Err, IsTrue, IfOk};
ghost use Rattle.std.specs.Prelude.{IfErr, OnOk, IfSome, IsNone, MatchOption, All, Contains, length, map, option_map};
ghost use Rattle.std.specs.declared.cmp.Ordering.TheVariants.{Less};
ghost use Rattle.ranked_terms.specs.Names.{number_of, arity_of};
ghost use Rattle.ranked_terms.specs.Words.{IsWord};
ghost use Rattle.ranked_terms.specs.Texts.{number_word, with_args};
ghost use Rattle.ta_core.specs.TreeAutomaton.{pair_cmp, trans_cmp, IsEpsOf};
ghost use Rattle.cert_text.specs.declared.certificate.CertError.TheVariants.{Fault};
ghost use Rattle.cert_text.specs.declared.certificate.CertFault.{CertFault as AFault};
ghost use Rattle.cert_text.specs.Cuts.{arrow_text};
ghost use Rattle.cert_text.specs.Faults.{TellsSymbol, Known, Takes};
ghost use Rattle.cert_text.specs.Lines as line;
ghost use Rattle.ta_core.specs.declared.spec.Spec.{Spec as ASpec};
ghost use Rattle.cert_text.specs.Taking.{IsCounted, Taken, Refused, FaultFrom, closing, IsRightEps, IsWrongEps, IsRightTrans};
ghost use Rattle.cert_text.specs.Taking.{IsWrongTrans, IsTransText};
ghost use Rattle.cert_text.specs.Entries.{IsAtTrans, entry_line, IsRightEntry, IsCutOff, IsBadBody, AreEpsToEnd, IsBody};
ghost use Rattle.ta_core.specs.declared.trans.Trans.{Trans as Transition};

use crate::certificate::{CertError, CertKind};
use crate::cuts::{applied_of, around_arrow, eps_of, is_text};
use crate::states::{States, are_listed};
use crate::taking::Reader;
use ranked_terms::Signature;
use std::alloc::{AllocError, Global};
use std::cmp::Ordering;
use ta_core::{Args, Trans};

/// What a line behind the map or behind a transition tells.
#[derive(Drop)]
enum Entry {
    /// A transition.
    Trans(Trans),
    /// An epsilon transition.
    Eps(u32, u32),
    /// The end.
    End,
}

// Whether the pair is above the last one, if there is one.
fn pair_follows(last: Option<(u32, u32)>, pair: (u32, u32)) -> bool
    ensures { IsTrue result ↔ IfSome last (λ e. pair_cmp e pair ≡ Less) }
{
    match last {
        Some(last) => last.cmp(&pair) == Ordering::Less,
        None => true,
    }
}

/// The first row that fits an epsilon transition behind the last one, if there is one.
fn wrong_eps(states: &States, last: Option<(u32, u32)>, pair: (u32, u32)) -> Option<CertKind>
    ensures right { IsNone result → IsRightEps states.now last pair }
    ensures wrong { IfSome result (λ kind. IsWrongEps states.now last pair kind) }
{
    let known = states.has(pair.0);
    if !known {
        return Some(CertKind::State);
    }
    let there = states.has(pair.1);
    if !there {
        return Some(CertKind::State);
    }
    if pair.0 == pair.1 {
        return Some(CertKind::Order);
    }
    let follows = pair_follows(last, pair);
    if !follows {
        return Some(CertKind::Order);
    }
    None
}

// The symbol of this name, where it has so many arguments.
fn symbol_of(sig: &Signature, name: &[u8], count: usize) -> Option<u32>
    requires { IsWord name.now }
    ensures { MatchOption result (TellsSymbol sig.now name.now count → ⊥)
        (λ sym. (number_of sig.now name.now ≡ Some sym) × (arity_of sig.now sym ≡ Some count)) }
{
    let Ok(name) = str::from_utf8(name) else {
        return None;
    };
    let sym = sig.find(name)?;
    let arity = sig.arity(sym)?;
    if arity as usize == count {
        Some(sym)
    } else {
        None
    }
}

// Whether the transition is above the last one, if there is one.
fn trans_follows(last: Option<&Trans>, trans: &Trans) -> bool
    ensures { IsTrue result ↔ IfSome (option_map (λ u. u.now) last.entry) (λ u. trans_cmp u trans.now ≡ Less) }
{
    match last {
        Some(last) => last.cmp(trans) == Ordering::Less,
        None => true,
    }
}

// The name and the target of a transition's line, the greatest `u32` in the place of a greater number; the arguments are
// appended in the same way. The only error is running out of memory.
fn trans_fields<'a>(
    text: &'a [u8],
    args: &mut Vec<u32>,
) -> Result<Option<(&'a [u8], u32)>, AllocError>
    ensures some { IfOk result (λ o. IfSome o (λ r. IsTransText text.now r.0.now args.old.items args.new.items r.1)) }
    ensures none { result ≡ Ok None → (f : List ℕ) (qs : List ℕ) (q : ℕ) → IsWord f
        → text.now ≡ arrow_text (with_args f (map number_word qs)) q → ⊥ }
{
    let Some((word, to)) = around_arrow(text) else {
        return Ok(None);
    };
    let Some(name) = applied_of(word, args)? else {
        return Ok(None);
    };
    Ok(Some((name, to)))
}

// The last transition, if there is one.
fn last_trans(trans: &[Trans]) -> Option<&Trans>
    ensures { MatchOption result (trans.now ≡ []) (λ t. (front : List Transition) × (trans.now ≡ front ++ t.now ∷ [])) }
{
    match trans {
        [] => None,
        [.., last] => Some(last),
    }
}

impl<'a> Reader<'a> {
    // The transition of these fields behind the last one, if there is one; or the fault of the line that was begun last.
    fn checked_trans(
        &self,
        alloc: Global,
        sig: &Signature,
        states: &States,
        last: Option<&Trans>,
        name: &[u8],
        args: &[u32],
        to: u32,
    ) -> Result<Trans, CertError>
        requires { IsWord name.now }
        ensures right { IfOk result (λ t. IsRightTrans sig.now states.now (option_map
            (λ u. u.now) last.entry) name.now args.now to t) }
        ensures wrong { (f : AFault) → result ≡ Err (Fault f)
            → (f.line ≡ self.now.line)
            × IsWrongTrans sig.now states.now (option_map (λ u. u.now) last.entry) name.now args.now to f.kind }
    {
        let Some(sym) = symbol_of(sig, name, args.len()) else {
            return Err(self.fault(CertKind::Symbol));
        };
        let known = are_listed(args, states);
        if !known {
            return Err(self.fault(CertKind::State));
        }
        let there = states.has(to);
        if !there {
            return Err(self.fault(CertKind::State));
        }
        let args = Args::from_slice(alloc, args)?;
        let trans = Trans { sym, args, to };
        let follows = trans_follows(last, &trans);
        if !follows {
            return Err(self.fault(CertKind::Order));
        }
        Ok(trans)
    }

    /// The line behind the map or behind a transition, the last one if there is one. `args` is room for its arguments.
    fn entry(
        &mut self,
        alloc: Global,
        sig: &Signature,
        states: &States,
        last: Option<&Trans>,
        args: &mut Vec<u32>,
    ) -> Result<Entry, CertError>
        requires below { All (λ q. q < 16384) states.now }
        requires counted { IsCounted self.old.line self.old.rest.now }
        ensures taken { IfOk result (λ entry. (spec : ASpec) (k : Known)
            → IsAtTrans sig.now (option_map (λ u. u.now) last.entry) states.now spec k
            → Taken spec k self.old.rest.now (entry_line sig.now entry) self.new.rest.now) }
        ensures refused { (f : AFault) → result ≡ Err (Fault f) → (spec : ASpec) (k : Known)
            → IsAtTrans sig.now (option_map (λ u. u.now) last.entry) states.now spec k
            → Refused spec k self.old.rest.now self.new.line f }
        ensures right { IfOk result (λ entry. IsRightEntry sig.now states.now (option_map (λ u. u.now) last.entry) entry) }
        ensures number { self.new.line ≡ self.old.line + 1 }
        ensures counted { OnOk result (IsCounted self.new.line self.new.rest.now) }
    {
        let text = match self.whole_line() {
            Ok(text) => text,
            Err(error) => return Err(error),
        };
        let over = is_text(text, b"End");
        if over {
            return Ok(Entry::End);
        }
        if let Some(pair) = eps_of(text) {
            return match wrong_eps(states, None, pair) {
                Some(kind) => Err(self.fault(kind)),
                None => Ok(Entry::Eps(pair.0, pair.1)),
            };
        }
        args.clear();
        let (name, to) = match trans_fields(text, args)? {
            Some(fields) => fields,
            None => return Err(self.fault(CertKind::Line)),
        };
        match self.checked_trans(alloc, sig, states, last, name, args.as_slice(), to) {
            Ok(trans) => Ok(Entry::Trans(trans)),
            Err(wrong) => Err(wrong),
        }
    }

    /// A line behind an epsilon transition: the next one, or `None` at the end.
    fn after_eps(
        &mut self,
        states: &States,
        last: (u32, u32),
    ) -> Result<Option<(u32, u32)>, CertError>
        requires below { All (λ q. q < 16384) states.now }
        requires counted { IsCounted self.old.line self.old.rest.now }
        ensures taken { IfOk result (λ e. (spec : ASpec) (k : Known) → k.before ≡ Some (line.eps last.0 last.1)
            → k.states ≡ states.now → Taken spec k self.old.rest.now (closing e) self.new.rest.now) }
        ensures refused { (f : AFault) → result ≡ Err (Fault f) → (spec : ASpec) (k : Known)
            → k.before ≡ Some (line.eps last.0 last.1) → k.states ≡ states.now
            → Refused spec k self.old.rest.now self.new.line f }
        ensures right { IfOk result (λ e. IfSome e (IsRightEps states.now (Some last))) }
        ensures number { self.new.line ≡ self.old.line + 1 }
        ensures counted { OnOk result (IsCounted self.new.line self.new.rest.now) }
    {
        let text = match self.whole_line() {
            Ok(text) => text,
            Err(error) => return Err(error),
        };
        let over = is_text(text, b"End");
        if over {
            return Ok(None);
        }
        let pair = match eps_of(text) {
            Some(pair) => pair,
            None => return Err(self.fault(CertKind::Line)),
        };
        match wrong_eps(states, Some(last), pair) {
            Some(kind) => Err(self.fault(kind)),
            None => Ok(Some(pair)),
        }
    }

    /// The transitions behind the map, and what stands behind the last of them: the first epsilon transition, or the end.
    fn all_trans(
        &mut self,
        alloc: Global,
        sig: &Signature,
        states: &States,
    ) -> Result<(Vec<Trans>, Option<(u32, u32)>), CertError>
        requires below { All (λ q. q < 16384) states.now }
        requires counted { IsCounted self.old.line self.old.rest.now }
        ensures taken { IfOk result (λ x. IsCutOff sig.now states.now self.old.rest.now self.new.rest.now x.0.items x.1) }
        ensures refused { (f : AFault) → result ≡ Err (Fault f) → IsBadBody sig.now states.now self.old.rest.now self.old.line f }
        ensures number { IfOk result (λ x. self.new.line ≡ self.old.line + length x.0.items + 1) }
        ensures counted { OnOk result (IsCounted self.new.line self.new.rest.now) }
    {
        let mut trans = Vec::new(alloc);
        let mut args = Vec::new(alloc);
        loop {
            let last = last_trans(trans.as_slice());
            match self.entry(alloc, sig, states, last, &mut args) {
                Ok(Entry::Trans(next)) => match trans.push(next) {
                    Ok(_) => {}
                    Err(_) => return Err(CertError::Memory),
                },
                Ok(Entry::Eps(from, to)) => return Ok((trans, Some((from, to)))),
                Ok(Entry::End) => return Ok((trans, None)),
                Err(error) => return Err(error),
            }
        }
    }

    /// The epsilon transitions from the first on, which is taken already, and the end.
    fn all_eps(
        &mut self,
        alloc: Global,
        states: &States,
        first: (u32, u32),
    ) -> Result<Vec<(u32, u32)>, CertError>
        requires below { All (λ q. q < 16384) states.now }
        requires of { IsEpsOf states.now first }
        requires counted { IsCounted self.old.line self.old.rest.now }
        ensures taken { IfOk result (λ es. AreEpsToEnd first states.now self.old.rest.now self.new.rest.now es.items) }
        ensures refused { (f : AFault) → result ≡ Err (Fault f) → (spec : ASpec) (k : Known)
            → k.before ≡ Some (line.eps first.0 first.1) → k.states ≡ states.now
            → FaultFrom spec k self.old.rest.now self.old.line f }
        ensures number { IfOk result (λ es. self.new.line ≡ self.old.line + length es.items) }
        ensures counted { OnOk result (IsCounted self.new.line self.new.rest.now) }
    {
        let mut eps = Vec::new(alloc);
        match eps.push(first) {
            Ok(_) => {}
            Err(_) => return Err(CertError::Memory),
        }
        let mut last = first;
        loop {
            match self.after_eps(states, last) {
                Ok(None) => return Ok(eps),
                Ok(Some(pair)) => {
                    match eps.push(pair) {
                        Ok(_) => {}
                        Err(_) => return Err(CertError::Memory),
                    }
                    last = pair;
                }
                Err(error) => return Err(error),
            }
        }
    }

    /// What stands behind the map: the transitions and the epsilon transitions, and the end.
    pub(crate) fn body(
        &mut self,
        alloc: Global,
        sig: &Signature,
        states: &States,
    ) -> Result<(Vec<Trans>, Vec<(u32, u32)>), CertError>
        requires below { All (λ q. q < 16384) states.now }
        requires counted { IsCounted self.old.line self.old.rest.now }
        ensures taken { IfOk result (λ x. IsBody sig.now states.now self.old.rest.now self.new.rest.now x.0.items x.1.items) }
        ensures refused { (f : AFault) → result ≡ Err (Fault f) → IsBadBody sig.now states.now self.old.rest.now self.old.line f }
        ensures number { IfOk result (λ x. self.new.line ≡ self.old.line + (length x.0.items + length x.1.items) + 1) }
        ensures counted { OnOk result (IsCounted self.new.line self.new.rest.now) }
    {
        let (trans, behind) = match self.all_trans(alloc, sig, states) {
            Ok(both) => both,
            Err(error) => return Err(error),
        };
        let first = match behind {
            Some(first) => first,
            None => return Ok((trans, Vec::new(alloc))),
        };
        match self.all_eps(alloc, states, first) {
            Ok(eps) => Ok((trans, eps)),
            Err(wrong) => Err(wrong),
        }
    }
}
