//! Where completion stands.
ghost use Rattle.std.specs.Prelude.{◌≡◌, ◌<◌, ◌≤◌, ◌^◌, List, take, length, IfOk, IsErrOf, IfSome, IfNone};
ghost use Rattle.trs_rules.specs.declared.sigma.Pair.{Pair as OpenPair};
ghost use Rattle.ta_core.specs.Closure.{AreOpenPairs};
ghost use Rattle.ta_core.specs.Acceptance.{IsContained, Misses};
ghost use Rattle.eq_merge.specs.Quotients.{apart};
ghost use Rattle.completion.specs.Stages.{started, IsLeastMet};
ghost use Rattle.completion.specs.Standing.{HasPlaces, told};

use critical_pairs::{PairError, open_pairs};
use ranked_terms::Seq;
use std::alloc::{AllocError, Global};
use std::marker::Model;
use ta_clean::{Least, Witness, common_witness};
use ta_core::laws::accepted_terms_are_over;
use ta_core::{Automaton, Map, Options, Spec};
use trs_rules::Pair;

/// Where the completion of a specification stands: an automaton, and which state each state of the first stage has become.
#[derive(Drop)]
pub struct Core<'a> {
    pub(crate) alloc: Global,
    pub(crate) spec: &'a Spec,
    pub(crate) options: Options,
    pub(crate) automaton: Automaton,
    pub(crate) map: Map,
}

impl<'a> Model for Core<'a> {
    ghost use Rattle.std.specs.Coded.{codes};
    ghost use Rattle.ranked_terms.specs.contracts.term.Pattern as pattern;
    ghost use Rattle.ranked_terms.specs.contracts.term.Shape as shape;
    ghost use Rattle.completion.specs.Standing.{Standing, IsStanding};

    ghost Value = { Standing };

    ghost coded = { Prim.hlevel (codes, pattern.the_row.coded, shape.the_row.coded) };

    ghost view = { λ core. record {
      spec = core.spec.now;
      options = core.options;
      automaton = core.automaton;
      places = core.map;
    } };

    ghost invariant = { λ core. IsStanding (record {
      spec = core.spec.now;
      options = core.options;
      automaton = core.automaton;
      places = core.map;
    }) };
}

impl<'a> Core<'a> {
    /// The first stage: the initial automaton with the approximation's states after its own, and the map that moves no state.
    /// The only error is running out of memory.
    pub fn start(alloc: Global, spec: &'a Spec, options: Options) -> Result<Core<'a>, AllocError>
        requires { length spec.now.rules < 2 ^ 32 }
        ensures { IfOk result (λ core. core ≡ record {
          spec = spec.now;
          options = options;
          automaton = started spec.now;
          places = apart (started spec.now).next;
        }) }
    {
        let automaton = first_stage(spec)?;
        let map = Map::from_slice(alloc, automaton.states())?;
        Ok(Core {
            alloc,
            spec,
            options,
            automaton,
            map,
        })
    }

    /// The automaton. The initial one is contained in it, by the map of the states of the initial one.
    pub fn automaton(&self) -> &Automaton
        ensures value { result.now ≡ self.now.automaton }
        ensures contained { IsContained self.now.spec.initial self.now.automaton
            (take self.now.spec.initial.next self.now.places) }
    {
        // For the proof: what the initial automaton names are states below its `next`.
        let _ = self.spec.initial.states();
        &self.automaton
    }

    /// Which state each state of the first stage has become.
    pub fn map(&self) -> &Map
        ensures value { result.now ≡ self.now.places }
        ensures places { HasPlaces self.now.spec self.now.automaton self.now.places }
    {
        &self.map
    }

    /// The list of open pairs. `More` exactly where it is longer than the option `pairs`; `Memory` where memory runs out.
    pub fn open_list(&self) -> Result<Seq<Pair>, PairError>
        ensures all { IfOk result (λ pairs. AreOpenPairs self.now.automaton self.now.spec.rules pairs) }
        ensures few { IfOk result (λ pairs. length pairs ≤ self.now.options.pairs) }
        ensures more { IsErrOf result PairError.More → (pairs : List OpenPair)
            × AreOpenPairs self.now.automaton self.now.spec.rules pairs × (self.now.options.pairs < length pairs) }
    {
        self.open_up_to(self.options.pairs)
    }

    /// The list of open pairs. `More` exactly where it is longer than the limit; `Memory` where memory runs out.
    pub(crate) fn open_up_to(&self, limit: u32) -> Result<Seq<Pair>, PairError>
        ensures all { IfOk result (λ pairs. AreOpenPairs self.now.automaton self.now.spec.rules pairs) }
        ensures few { IfOk result (λ pairs. length pairs ≤ limit) }
        ensures more { IsErrOf result PairError.More → (pairs : List OpenPair)
            × AreOpenPairs self.now.automaton self.now.spec.rules pairs × (limit < length pairs) }
    {
        open_pairs(
            self.alloc,
            &self.automaton,
            self.spec.rules.as_slice(),
            limit,
        )
    }

    /// A forbidden term of least size that the automaton accepts, if it accepts any. The only error is running out of memory.
    pub(crate) fn common_term(&self) -> Result<Option<Least>, AllocError>
        ensures some { IfOk result (λ found. IfSome found (IsLeastMet self.now.spec self.now.automaton)) }
        ensures none { IfOk result (λ found.
            IfNone found (Misses self.now.spec.signature self.now.automaton self.now.spec.forbidden)) }
    {
        // For the proof: what the forbidden automaton accepts is over the signature.
        accepted_terms_are_over();
        let found = common_witness(self.alloc, &self.automaton, &self.spec.forbidden)?;
        Ok(shown(found))
    }
}

/// What a witness shows, if it shows a term.
fn shown(witness: Witness) -> Option<Least>
    ensures { result ≡ told witness }
{
    match witness {
        Witness::None => None,
        Witness::Term(term) => Some(Least::Term(term)),
        Witness::Large => Some(Least::Large),
    }
}

/// The initial automaton with the approximation's states after its own. The only error is running out of memory.
fn first_stage(spec: &Spec) -> Result<Automaton, AllocError>
    ensures { IfOk result (λ automaton. automaton ≡ started spec.now) }
{
    let mut automaton = spec.initial.copy()?;
    for _ in 0..spec.extra {
        let Ok(_) = automaton.add_state() else {
            return Err(AllocError);
        };
    }
    Ok(automaton)
}
