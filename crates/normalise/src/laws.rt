//! Laws of normalising. Each function does nothing: its contract is the law.
ghost use Rattle.normalise.specs.NormalisingLaws.{PutsAreOne, NormalisedIsOne, NormalisedAllIsOne};
ghost use Rattle.normalise.specs.NormalisingLaws.{EachIsPut, EachIsNormalised, AllAreNormalised};
ghost use Rattle.normalise.specs.NormalisingLaws.{PutsGrow, NormalisedGrows, NormalisedAllGrows};

/// A configuration is put, and a pair, and pairs one after the other, are normalised in one way at most.
pub fn normalising_has_one_result()
    ensures puts { PutsAreOne }
    ensures one { NormalisedIsOne }
    ensures all { NormalisedAllIsOne }
{}

/// Each configuration is put, and each pair that names a rule is normalised, in one way at least.
pub fn normalising_has_a_result()
    ensures put { EachIsPut }
    ensures one { EachIsNormalised }
    ensures all { AllAreNormalised }
{}

/// What was there stays, final states are the same, `next` doesn't fall, and fresh states are numbers from the old `next` on.
pub fn normalising_grows()
    ensures put { PutsGrow }
    ensures one { NormalisedGrows }
    ensures all { NormalisedAllGrows }
{}
