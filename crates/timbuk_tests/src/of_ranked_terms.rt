//! That each call which takes memory succeeds with ample memory, and that equality is what it should be.
use ranked_terms::{Config, Name, Pattern, Position, Seq, Shape, Signature, Term, laws};
use std::alloc::{AllocError, Global};
use std::test::Fail;

/// Whether the sequence of 7 and 3 is the one of these numbers.
fn is_grown(alloc: Global, numbers: &[u32]) -> Result<bool, AllocError> {
    let mut grown = Seq::new(alloc);
    grown.push(7)?;
    grown.push(3)?;
    let is_listed = grown.as_slice() == numbers;
    Ok(is_listed && grown == Seq::from_slice(alloc, numbers)?)
}

/// Whether a name has the bytes that it is made of.
fn is_name(alloc: Global, bytes: &[u8]) -> Result<bool, AllocError> {
    Ok(Name::from_slice(alloc, bytes)?.as_slice() == bytes)
}

/// Whether a position has the numbers that it is made of.
fn is_position(alloc: Global, numbers: &[u32]) -> Result<bool, AllocError> {
    Ok(Position::from_slice(alloc, numbers)?.as_slice() == numbers)
}

#[test]
fn sequences_grow(rt: HostRuntime) -> Result<(), Fail> {
    assert!(rt; is_grown(rt.alloc(), &[7, 3])?);
    assert!(rt; !is_grown(rt.alloc(), &[3, 7])?);
    assert!(rt; is_name(rt.alloc(), b"plus")?);
    assert!(rt; is_position(rt.alloc(), &[2, 1])?);
    Ok(())
}

/// Whether the symbols are numbered as they are added, and a copy has them.
fn is_signature(alloc: Global) -> Result<bool, Fail> {
    let mut signature = Signature::new(alloc);
    let first = signature.add("plus", 2).ok();
    let second = signature.add("0", 0).ok();
    let copy = signature.copy()?;
    let is_copied = copy.name(1) == Some("0") && copy.arity(0) == Some(2);
    Ok(first == Some(0) && second == Some(1) && is_copied)
}

#[test]
fn signatures_grow_and_are_copied(rt: HostRuntime) -> Result<(), Fail> {
    assert!(rt; is_signature(rt.alloc())?);
    Ok(())
}

/// The term `sym` without arguments.
fn constant(alloc: Global, sym: u32) -> Term {
    Term {
        sym,
        args: Seq::new(alloc),
    }
}

/// The term `0(left, right)` of two constants.
fn pair(alloc: Global, left: u32, right: u32) -> Result<Term, AllocError> {
    let mut args = Seq::new(alloc);
    args.push(constant(alloc, left))?;
    args.push(constant(alloc, right))?;
    Ok(Term { sym: 0, args })
}

/// Whether the term is its copy.
fn is_its_copy(alloc: Global, term: &Term) -> Result<bool, AllocError> {
    Ok(term.copy(alloc)? == *term)
}

/// Whether the term `0(1, 2)` is this one.
fn is_pair(alloc: Global, term: &Term) -> Result<bool, AllocError> {
    Ok(pair(alloc, 1, 2)? == *term)
}

#[test]
fn terms_are_compared_whole(rt: HostRuntime) -> Result<(), Fail> {
    assert!(rt; is_its_copy(rt.alloc(), &pair(rt.alloc(), 1, 2)?)?);
    assert!(rt; !is_pair(rt.alloc(), &pair(rt.alloc(), 2, 1)?)?);
    assert!(rt; !is_pair(rt.alloc(), &constant(rt.alloc(), 0))?);
    laws::of_terms();
    laws::of_patterns();
    Ok(())
}

/// The pattern `2(x3, 1)`.
fn pattern(alloc: Global) -> Result<Pattern, AllocError> {
    let mut args = Seq::new(alloc);
    args.push(Pattern::Var(3))?;
    args.push(Pattern::App(1, Seq::new(alloc)))?;
    Ok(Pattern::App(2, args))
}

/// Whether the pattern is its copy.
fn is_copied_pattern(alloc: Global) -> Result<bool, AllocError> {
    let pattern = pattern(alloc)?;
    Ok(pattern.copy(alloc)? == pattern)
}

/// Whether the shape is its copy.
fn is_copied_shape(alloc: Global, shape: &Shape) -> Result<bool, AllocError> {
    Ok(shape.copy(alloc)? == *shape)
}

/// Whether a symbol as a pattern is no variable of the same number.
fn is_no_variable(alloc: Global) -> bool {
    Pattern::Var(1) != Pattern::App(1, Seq::new(alloc))
}

/// Whether a symbol as a configuration is itself, and no other.
fn are_configurations(alloc: Global) -> bool {
    let one = Config::App(1, Seq::new(alloc));
    one == Config::App(1, Seq::new(alloc)) && one != Config::App(2, Seq::new(alloc))
}

#[test]
fn patterns_configurations_and_shapes_are_compared_whole(rt: HostRuntime) -> Result<(), Fail> {
    assert!(rt; is_copied_pattern(rt.alloc())?);
    assert!(rt; is_copied_shape(rt.alloc(), &Shape::Var(1))?);
    assert!(rt; are_configurations(rt.alloc()));
    assert!(rt; is_no_variable(rt.alloc()));
    assert!(rt; Pattern::Var(1) != Pattern::Var(2));
    assert!(rt; Config::State(1) != Config::State(2));
    assert!(rt; Shape::Var(1) != Shape::State(1));
    Ok(())
}
