//! Building a term, and its size and height up to a cap.
ghost use Rattle.std.specs.Prelude.{◌≡◌, IsTrue, length, min};
ghost use Rattle.ranked_terms.specs.Terms.{node, is_symbol, size_of, height_of};

use crate::seq::Seq;
use crate::signature::Signature;
use crate::term::Term;

impl Term {
    /// The term `sym(args)`. The symbol is in the signature and has that many arguments. It takes no memory.
    pub fn build(sym: u32, args: Seq<Term>, sig: &Signature) -> Term
        requires { IsTrue (is_symbol sig.now sym (length args)) }
        ensures { result ≡ node sym args }
    {
        // For the proof: the signature is named by the condition alone.
        let _ = sig;
        Term { sym, args }
    }

    /// The number of the term's symbols (TATA, Preliminaries), or `cap` where that is less. It looks at no more than `cap`
    /// symbols, and takes no memory.
    pub fn size_to(&self, cap: u32) -> u32
        ensures { result ≡ min (size_of self.now) cap }
    {
        if cap == 0 {
            return 0;
        }
        let mut left = cap - 1;
        for arg in self.args.as_slice() {
            left -= arg.size_to(left);
        }
        cap - left
    }

    /// The term's height (TATA, Preliminaries), or `cap` where that is less. The height of a constant is 1. It goes no
    /// deeper than `cap`, and takes no memory.
    pub fn height_to(&self, cap: u32) -> u32
        ensures { result ≡ min (height_of self.now) cap }
    {
        if cap == 0 {
            return 0;
        }
        let mut highest = 0;
        for arg in self.args.as_slice() {
            highest = highest.max(arg.height_to(cap - 1));
        }
        highest + 1
    }
}
