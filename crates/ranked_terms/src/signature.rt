//! Signatures: symbols with names and arities.
ghost use Rattle.std.specs.Prelude.{◌≡◌, ℕ, ◌≤◌, ◌↔◌, Some, [], ◌∷◌, ◌++◌, length, IsNone, IsSome, IfOk, OnOk, OnErr, IsErrOf};
ghost use Rattle.std.specs.Option.{option_copied};
ghost use Rattle.ranked_terms.specs.Limits.{max_symbols, max_arity};
ghost use Rattle.ranked_terms.specs.Words.{IsNameText};
ghost use Rattle.ranked_terms.specs.Names.{number_of, arity_of, name_of};
ghost use Rattle.ranked_terms.specs.SignatureRules.{IsSignature};

use indexmap::IndexMap;
use std::alloc::{AllocError, AllocFailed, Global};
use std::marker::Model;

/// The largest number of symbols.
pub const MAX_SYMBOLS: u32 = 4096;

/// The largest arity.
pub const MAX_ARITY: u32 = 16;

/// The largest number of bytes of a name.
pub const MAX_NAME: usize = 255;

/// Why a symbol was not added.
#[derive(Clone, Copy, Debug, PartialEq, Eq)]
pub enum SigError {
    /// The name is there already.
    Double,
    /// There are `MAX_SYMBOLS` symbols, and the name is a new one.
    Full,
    /// There is no memory for it.
    Memory,
}

impl From<AllocError> for SigError {
    ghost use Rattle.ranked_terms.specs.declared.signature.SigError.TheVariants.{Memory};

    ghost from_gives = { λ _ e. e ≡ Memory };

    fn from(_error: AllocError) -> SigError {
        SigError::Memory
    }
}

impl<T: Drop> From<AllocFailed<T>> for SigError {
    ghost use Rattle.ranked_terms.specs.declared.signature.SigError.TheVariants.{Memory};

    ghost from_gives = { λ _ e. e ≡ Memory };

    fn from(_error: AllocFailed<T>) -> SigError {
        SigError::Memory
    }
}

/// A signature: symbols with a name and an arity each, numbered from 0 in the order in which they were added.
/// Contracts see it as the list of pairs of a name and an arity. No name stands in it twice.
#[derive(Drop)]
pub struct Signature {
    alloc: Global,
    symbols: IndexMap<String, u32>,
}

impl Model for Signature {
    ghost use Rattle.std.specs.Prelude.{List, ℕ};
    ghost use Rattle.ranked_terms.specs.SignatureRules.{symbols_of, IsSignature};

    ghost Value = { List (List ℕ × ℕ) };

    ghost view = { λ signature. symbols_of signature.symbols.entries };

    ghost invariant = { λ signature. IsSignature (symbols_of signature.symbols.entries) };
}

impl Signature {
    /// The signature without symbols.
    pub fn new(alloc: Global) -> Signature
        ensures { result ≡ [] }
    {
        Signature {
            alloc,
            symbols: IndexMap::new(alloc),
        }
    }

    /// Adds a symbol and gives its number, which is the number of symbols before. The name is a word of at most
    /// `MAX_NAME` bytes, and the arity at most `MAX_ARITY`. `Double` comes exactly where the name is there, and `Full`
    /// exactly where it is not and there are `MAX_SYMBOLS` symbols. A refused call leaves the signature as it was.
    pub fn add(&mut self, name: &str, arity: u32) -> Result<u32, SigError>
        requires name { IsNameText name.now }
        requires arity { arity ≤ max_arity }
        ensures number { IfOk result (λ number. number ≡ length self.old) }
        ensures added { OnOk result (self.new ≡ self.old ++ (name.now, arity) ∷ []) }
        ensures double { IsErrOf result SigError.Double ↔ IsSome (number_of self.old name.now) }
        ensures full { IsErrOf result SigError.Full ↔ (IsNone (number_of self.old name.now) × (length self.old ≡ max_symbols)) }
        ensures refused { OnErr result (self.new ≡ self.old) }
    {
        if self.find(name).is_some() {
            return Err(SigError::Double);
        }
        let number = self.len();
        if number == MAX_SYMBOLS {
            return Err(SigError::Full);
        }
        let key = String::from_str(self.alloc, name)?;
        self.symbols.insert(key, arity)?;
        Ok(number)
    }

    /// An equal signature. The only error is running out of memory.
    pub fn copy(&self) -> Result<Signature, AllocError>
        ensures { IfOk result (λ copy. copy ≡ self.now) }
    {
        Ok(Signature {
            alloc: self.alloc,
            symbols: self.symbols.clone()?,
        })
    }

    /// The number of the symbol of this name, the only one that has it. `None` exactly where there is none.
    pub fn find(&self, name: &str) -> Option<u32>
        ensures value { result ≡ number_of self.now name.now }
        ensures only { (sym : ℕ) → name_of self.now sym ≡ Some name.now → result ≡ Some sym }
    {
        let number = self.symbols.get_index_of(name)?;
        Some(number as u32)
    }

    /// The arity of the symbol of this number. `None` exactly where there is none.
    pub fn arity(&self, sym: u32) -> Option<u32>
        ensures { result ≡ arity_of self.now sym }
    {
        let (_, arity) = self.symbols.get_index(sym as usize)?;
        Some(*arity)
    }

    /// The name of the symbol of this number. `None` exactly where there is none.
    pub fn name(&self, sym: u32) -> Option<&str>
        ensures { option_copied result ≡ name_of self.now sym }
    {
        let (name, _) = self.symbols.get_index(sym as usize)?;
        Some(name.as_str())
    }

    /// The number of symbols, at most `MAX_SYMBOLS`. Its contract says besides what always holds of a signature.
    pub fn len(&self) -> u32
        ensures value { result ≡ length self.now }
        ensures few { length self.now ≤ max_symbols }
        ensures valid { IsSignature self.now }
    {
        self.symbols.len() as u32
    }
}
