//! The printed texts of terms.
ghost use Rattle.std.specs.Prelude.{◌≡◌, ◌++◌, IsTrue, OnOk, OnErr};
ghost use Rattle.ranked_terms.specs.Terms.{is_over};
ghost use Rattle.ranked_terms.specs.Texts.{term_text, symbol_text, IsCutShort};

use crate::signature::Signature;
use crate::term::Term;
use std::alloc::AllocError;

impl Term {
    /// Appends the term's text, `f(a,b)` without blanks, and a constant as its name alone. The symbols are in the
    /// signature with their arities. After running out of memory, the only error, the bytes are the old ones and a prefix
    /// of the text.
    pub fn print_into(&self, sig: &Signature, out: &mut Vec<u8>) -> Result<(), AllocError>
        requires { IsTrue (is_over sig.now self.now) }
        ensures ok { OnOk result (out.new.items ≡ out.old.items ++ term_text sig.now self.now) }
        ensures err { OnErr result (IsCutShort out.old.items (term_text sig.now self.now) out.new.items) }
    {
        print_name(self.sym, sig, out)?;
        let mut mark = b'(';
        for arg in self.args.as_slice() {
            out.push(mark)?;
            arg.print_into(sig, out)?;
            mark = b',';
        }
        if mark == b',' {
            out.push(b')')?;
        }
        Ok(())
    }
}

// Appends the name of a symbol.
fn print_name(sym: u32, sig: &Signature, out: &mut Vec<u8>) -> Result<(), AllocError>
    ensures ok { OnOk result (out.new.items ≡ out.old.items ++ symbol_text sig.now sym) }
    ensures err { OnErr result (out.new.items ≡ out.old.items) }
{
    if let Some(name) = sig.name(sym) {
        out.extend_from_slice(name.as_bytes())?;
    }
    Ok(())
}
