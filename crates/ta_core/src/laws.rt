//! Laws of runs. Each function does nothing: its contract is the law.
ghost use Rattle.ta_core.specs.AcceptanceLaws.{ContainedKeepsRuns, ContainedKeepsAccepted, ContainsItself};
ghost use Rattle.ta_core.specs.AcceptanceLaws.{AcceptedTermsAreOver, AcceptedIsSafe};
ghost use Rattle.ta_core.specs.ClosureLaws.{InstancesFactor, InstancesCompose, ClosedKeepsRuns, ClosedAcceptsReached};
ghost use Rattle.ta_core.specs.ClosureLaws.{ClosedByLists, ClosedHasNoOpenPair, OpenPairsAreOne, TriplesAreAll};
ghost use Rattle.ta_core.specs.ClosureLaws.{TriplesAscend, TriplesAreDecided, OpenPairsAreListed, OpenPairsAreOpenTriples};
ghost use Rattle.ta_core.specs.ClosureLaws.{OpenPairsAreListing, FirstOpenIsHead, ClosedOrFirstOpen, FrontsBeginOpenPairs};
ghost use Rattle.ta_core.specs.ClosureLaws.{MoreOpenAreLonger};
ghost use Rattle.ta_core.specs.Laws.{RunsAreClosed, HasEachRun, PlainRunsAreRuns, PlainRunsUseNoEpsilon, RunsAreMonotone};
ghost use Rattle.ta_core.specs.Laws.{RunsEndInStates, RunsAreListed, PlainRunsAreListed, RunsAreDecided};
ghost use Rattle.ta_core.specs.Laws.{PlainRunsAreDecided, LanguagesAreDecided};

use std::marker::Brand;

/// A relation between configurations and states, which only contracts see.
pub trait Relation {
    ghost use Rattle.std.specs.Prelude.{ℕ};
    ghost use Rattle.ranked_terms.specs.declared.term.Config.{Config};

    /// Which configurations are related to which states.
    ghost relates: { Config → ℕ → Type 0 };
}

// A caller that passes `Brand` picks the relation.
impl Relation for Brand {
    ghost use Rattle.std.specs.Prelude.{⊤};

    ghost relates = { λ c q. ⊤ };
}

/// Runs are closed under their three cases: a state runs to itself, an application by a transition, and on by an
/// epsilon transition.
pub fn runs_are_closed()
    ensures { RunsAreClosed }
{}

/// Runs are the least relation that is closed under these cases: each such relation has every run.
pub fn runs_are_least<R: Relation>()
    ensures { HasEachRun R.relates }
{}

/// A run without epsilon transitions is a run.
pub fn plain_runs_are_runs()
    ensures { PlainRunsAreRuns }
{}

/// A run without epsilon transitions is a run of the automaton that has lost them all.
pub fn plain_runs_use_no_epsilon()
    ensures { PlainRunsUseNoEpsilon }
{}

/// What runs to a state still does where states, transitions or epsilon transitions are added.
pub fn runs_are_monotone()
    ensures { RunsAreMonotone }
{}

/// What runs to `q` shows that `q` is a state of the automaton.
pub fn runs_end_in_states()
    ensures { RunsEndInStates }
{}

/// The states to which a configuration runs are an ascending list, by all runs and by those without epsilon transitions;
/// so a configuration runs to a state or doesn't, and a ground term is in a language or isn't. This holds of every automaton.
pub fn runs_are_decided()
    ensures listed { RunsAreListed }
    ensures plain_listed { PlainRunsAreListed }
    ensures decided { RunsAreDecided }
    ensures plain_decided { PlainRunsAreDecided }
    ensures languages { LanguagesAreDecided }
{}

/// A run of an instance of a linear pattern goes by way of states for its variables, to which their terms run; and such
/// states make a run of the instance of any pattern (Feuillade, Genet and Viet Triem Tong, JAR 2004).
pub fn runs_of_instances_factor()
    ensures factor { InstancesFactor }
    ensures compose { InstancesCompose }
{}

/// In an automaton that is closed under left-linear rules, what runs to a state still does after any number of steps, so
/// whatever an accepted term rewrites to is accepted (Feuillade, Genet and Viet Triem Tong, JAR 2004).
pub fn closed_automata_accept_what_is_reached()
    ensures runs { ClosedKeepsRuns }
    ensures accepts { ClosedAcceptsReached }
{}

/// An automaton is closed exactly where its list of open pairs is empty, and it has one such list at most. The triples
/// that the list is chosen from are all triples, and the assignments of a rule are all lists of so many states.
/// Where the states ascend, the triples ascend by rule, then by assignment, and then by state.
pub fn closed_automata_have_no_open_pair()
    ensures none { ClosedHasNoOpenPair }
    ensures lists { ClosedByLists }
    ensures one { OpenPairsAreOne }
    ensures all { TriplesAreAll }
    ensures order { TriplesAscend }
{}

/// Each triple is open or settled, so there is a list of open pairs. It has exactly the open triples; where the states
/// ascend it ascends, and whatever has exactly the open triples and ascends is this list. The first open triple is the
/// head of the list; where there is none, an automaton is closed under left-linear rules. What comes first of the open
/// triples begins the list, and where more than a number are open, the list is longer than that.
pub fn open_pairs_are_listed()
    ensures decided { TriplesAreDecided }
    ensures listed { OpenPairsAreListed }
    ensures exact { OpenPairsAreOpenTriples }
    ensures listing { OpenPairsAreListing }
    ensures first { FirstOpenIsHead }
    ensures or_closed { ClosedOrFirstOpen }
    ensures fronts { FrontsBeginOpenPairs }
    ensures longer { MoreOpenAreLonger }
{}

/// What runs to a state of an automaton runs, in one that contains it, to the state that it goes to; so its language is
/// contained. Each automaton contains itself.
pub fn contained_automata_keep_runs()
    ensures runs { ContainedKeepsRuns }
    ensures accepted { ContainedKeepsAccepted }
    ensures itself { ContainsItself }
{}

/// What an automaton over a signature accepts is over the signature.
pub fn accepted_terms_are_over()
    ensures { AcceptedTermsAreOver }
{}

/// Where an automaton contains the initial one, is closed under the rules and misses the forbidden language, no term that
/// is reachable from the initial language, in whatever number of steps, is forbidden (Feuillade, Genet and Viet Triem
/// Tong, JAR 2004).
pub fn accepted_automata_are_safe()
    ensures { AcceptedIsSafe }
{}
