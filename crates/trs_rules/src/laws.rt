//! Laws of steps and chains, each as the contract of a function that does nothing.
ghost use Rattle.trs_rules.specs.Counted.{NoStepStays, StepsComeFirst, StepsComeLast, CountsAddUp, WithinIsInSome, LeadsIsInSome};
ghost use Rattle.trs_rules.specs.DerivationLaws.{DerivationsAreChains};
ghost use Rattle.trs_rules.specs.Laws.{PlacedStepsAreSteps, StepsArePlaced, ChainsAreTheirSteps, ChainsAppend};
ghost use Rattle.trs_rules.specs.Laws.{LeadsToItself, StepsLead, LeadsAreTransitive, MoreRulesKeepSteps, StepsStayOver};
ghost use Rattle.trs_rules.specs.Laws.{ChainsStayOver};
ghost use Rattle.trs_rules.specs.Modulo.{ArgumentsLead, SidesAreEqual, EqualIsSymmetric, EqualIsModulo, LeadsIsModulo};

/// A step at a position is a step.
pub fn placed_steps_are_steps()
    ensures { PlacedStepsAreSteps }
{}

/// Each step is a step by some rule at some position.
pub fn steps_are_placed()
    ensures { StepsArePlaced }
{}

/// A list is a chain exactly where it is not empty and each of its terms steps to the next.
pub fn chains_are_their_steps()
    ensures { ChainsAreTheirSteps }
{}

/// A chain up to a term and a chain from it are one chain.
pub fn chains_append()
    ensures { ChainsAppend }
{}

/// A chain leads from each term to itself, from a term to what it steps to, and on from where another has led.
pub fn leads_is_a_preorder()
    ensures itself { LeadsToItself }
    ensures step { StepsLead }
    ensures transitive { LeadsAreTransitive }
{}

/// Chains by their number of steps. None leads from a term to itself alone; one more leads by a first step and then by the
/// others, and by the others and then by a last step; the numbers of two chains add up. Within so many steps is in some
/// number of them, and whatever a chain leads to it leads to in some number.
pub fn chains_are_counted()
    ensures none { NoStepStays }
    ensures first { StepsComeFirst }
    ensures last { StepsComeLast }
    ensures sum { CountsAddUp }
    ensures within { WithinIsInSome }
    ensures some { LeadsIsInSome }
{}

/// A derivation leads from its start to a term exactly where a chain of as many steps does.
pub fn derivations_are_chains()
    ensures { DerivationsAreChains }
{}

/// Steps are kept where more rules follow.
pub fn more_rules_keep_steps()
    ensures { MoreRulesKeepSteps }
{}

/// Rules over a signature rewrite terms over it to terms over it, in one step and along a chain.
pub fn steps_stay_over()
    ensures steps { StepsStayOver }
    ensures chains { ChainsStayOver }
{}

/// Where each argument leads to the one at its place, so does the term.
pub fn arguments_lead()
    ensures { ArgumentsLead }
{}

/// Rewriting modulo equations. Both sides of an equation are equal, whatever terms its variables stand for; what is equal to
/// a term, the term is equal to; equal terms, and what the rules alone lead to, are led to modulo the equations.
pub fn equations_are_both_ways()
    ensures sides { SidesAreEqual }
    ensures symmetric { EqualIsSymmetric }
    ensures equal { EqualIsModulo }
    ensures rules { LeadsIsModulo }
{}
