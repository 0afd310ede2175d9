//! Laws of certificates' texts. Each function does nothing: its contract is the law.
ghost use Rattle.cert_text.specs.Laws.{NumbersReadBack, LinesDiffer, BeginsOnce, OneFault, OneCertificate, ReadsWithoutFault};

use ranked_terms::laws::of_terms_over;

/// A line of numbers spells no other numbers.
pub fn numbers_are_read_back()
    ensures { NumbersReadBack }
{}

/// No two lines that may follow one line have the same words.
pub fn lines_differ()
    ensures { LinesDiffer }
{}

/// A text begins with one line at most that may stand there.
pub fn texts_begin_with_one_line()
    ensures { BeginsOnce }
{}

/// A text has one first fault at most.
pub fn texts_have_one_fault()
    ensures { OneFault }
{}

/// Two different certificates have different texts.
pub fn certificates_have_different_texts()
    ensures { OneCertificate }
{
    // For the proof: terms over a signature with one text are one term.
    of_terms_over();
}

/// A certificate's text has no fault.
pub fn certificates_have_no_fault()
    ensures { ReadsWithoutFault }
{}
