//! The lines that claim that no forbidden term is reachable.
ghost use Rattle.std.specs.Prelude.{◌≡◌, ◌≤◌, ℕ, Err, IfOk, OnOk};
ghost use Rattle.std.specs.Ordering.{nat_cmp};
ghost use Rattle.std.specs.List.Sorted.{IsStrictlySortedBy};
ghost use Rattle.ta_core.specs.TreeAutomaton.{IsSound, trans_cmp, pair_cmp};
ghost use Rattle.cert_text.specs.declared.certificate.CertError.TheVariants.{Fault};
ghost use Rattle.cert_text.specs.declared.certificate.CertFault.{CertFault as AFault};
ghost use Rattle.cert_text.specs.declared.certificate.Certificate.TheVariants as certificate;
ghost use Rattle.cert_text.specs.Lines as line;
ghost use Rattle.cert_text.specs.Taking.{IsCounted};
ghost use Rattle.cert_text.specs.Whole.{IsTakenBehind, IsFaultBehind};

use crate::certificate::{CertError, Certificate};
use crate::taking::{Listed, Reader};
use ranked_terms::Seq;
use std::alloc::{AllocError, Global};
use ta_core::{Automaton, Map, Spec, Trans};

// The certificate of these lists.
fn made(
    alloc: Global,
    listed: Listed,
    images: &[u32],
    trans: Vec<Trans>,
    eps: Vec<(u32, u32)>,
) -> Result<Certificate, AllocError>
    requires few { listed.next ≤ 16384 }
    requires sound { IsSound
        (record {
          states = listed.states;
          next = listed.next;
          finals = listed.finals.items;
          trans = trans.items;
          eps = eps.items;
        }) }
    requires states { IsStrictlySortedBy nat_cmp listed.states }
    requires finals { IsStrictlySortedBy nat_cmp listed.finals.items }
    requires trans { IsStrictlySortedBy trans_cmp trans.items }
    requires eps { IsStrictlySortedBy pair_cmp eps.items }
    ensures { IfOk result (λ c. c ≡ certificate.Unreachable listed.rounds listed.precise
        (record {
          states = listed.states;
          next = listed.next;
          finals = listed.finals.items;
          trans = trans.items;
          eps = eps.items;
        }) images.now) }
{
    let map = Map::from_slice(alloc, images)?;
    let automaton = Automaton::from_lists(
        alloc,
        listed.next,
        Seq::from_vec(listed.states.into_vec()),
        Seq::from_vec(listed.finals),
        Seq::from_vec(trans),
        Seq::from_vec(eps),
    );
    Ok(Certificate::Unreachable {
        rounds: listed.rounds,
        precise: listed.precise,
        automaton,
        map,
    })
}

impl<'a> Reader<'a> {
    /// The lines behind the verdict that no forbidden term is reachable.
    pub(crate) fn claim(&mut self, alloc: Global, spec: &Spec) -> Result<Certificate, CertError>
        requires counted { IsCounted self.old.line self.old.rest.now }
        ensures taken { IfOk result
            (λ c. IsTakenBehind spec.now line.unreachable self.old.rest.now self.old.line self.new.rest.now self.new.line c) }
        ensures refused { (f : AFault) → result ≡ Err (Fault f)
            → IsFaultBehind spec.now line.unreachable self.old.rest.now self.old.line f }
        ensures counted { OnOk result (IsCounted self.new.line self.new.rest.now) }
    {
        let listed = match self.listed(alloc) {
            Ok(listed) => listed,
            Err(error) => return Err(error),
        };
        let count = spec.initial.states().len();
        let images = match self.maps(alloc, count, &listed.states) {
            Ok(images) => images,
            Err(error2) => return Err(error2),
        };
        let (trans, eps) = match self.body(alloc, &spec.signature, &listed.states) {
            Ok(both) => both,
            Err(error3) => return Err(error3),
        };
        match made(alloc, listed, images.as_slice(), trans, eps) {
            Ok(certificate) => Ok(certificate),
            Err(_) => Err(CertError::Memory),
        }
    }
}
