//! Laws of input texts. Each function does nothing: its contract is the law.
ghost use Rattle.spec_text.specs.Laws.{WhatIsReadIsSpelled, WhatIsSpelledIsRead, WhatHasNoFaultIsSpelled, OneSpec};
ghost use Rattle.spec_text.specs.Laws.{FaultsAreFirst, SpelledHasNoFault, OneFirstFault, SpelledNamesDiffer};

use timbuk_lex::token_words_law;

/// No row of the table of faults fits a text anywhere exactly where the text spells a specification, and this is what is
/// read in it.
pub fn texts_are_read()
    ensures read { WhatIsReadIsSpelled }
    ensures spelled { WhatIsSpelledIsRead }
    ensures faultless { WhatHasNoFaultIsSpelled }
{}

/// No text spells two specifications.
pub fn no_text_has_two_specs()
    ensures { OneSpec }
{}

/// The fault that reading meets is that of the first place at which a row of the table of faults fits.
pub fn faults_are_first()
    ensures { FaultsAreFirst }
{}

/// A text that spells a specification has no fault.
pub fn spelled_texts_have_no_fault()
    ensures { SpelledHasNoFault }
{}

/// A text has at most one first fault.
pub fn no_text_has_two_first_faults()
    ensures { OneFirstFault }
{}

/// The symbols of a specification that a text spells are a signature, and no two of its symbols and variables have one name.
pub fn spelled_names_differ()
    ensures { SpelledNamesDiffer }
{
    // For the proof: the text of a word token is a word.
    token_words_law();
}
