//! Rules and equations, and their faults on small examples.
use ranked_terms::{Pattern, Seq};
use std::alloc::{AllocError, Global};
use std::test::Fail;
use trs_rules::{Equation, Rule, RuleFault, Sigma};

const SIXTEEN: &[u32] = &[0, 1, 2, 3, 4, 5, 6, 7, 8, 9, 10, 11, 12, 13, 14, 15];

const SEVENTEEN: &[u32] = &[0, 1, 2, 3, 4, 5, 6, 7, 8, 9, 10, 11, 12, 13, 14, 15, 16];

/// The symbol 0 with these variables as its arguments.
fn over(alloc: Global, vars: &[u32]) -> Result<Pattern, AllocError> {
    let mut args = Seq::new(alloc);
    for v in vars {
        args.push(Pattern::Var(*v))?;
    }
    Ok(Pattern::App(0, args))
}

/// The fault of the rule with these sides.
fn fault(alloc: Global, left: &[u32], right: &[u32]) -> Result<Option<RuleFault>, AllocError> {
    Ok(Rule::new(over(alloc, left)?, over(alloc, right)?).err())
}

const FAULTS: &[(&[u32], &[u32], Option<RuleFault>)] = &[
    (SIXTEEN, &[15, 0, 15], None),
    (
        &[0, 1, 2, 1, 0],
        &[7],
        Some(RuleFault::NotLeftLinear { var: 1 }),
    ),
    (
        &[0, 1],
        &[1, 7, 8],
        Some(RuleFault::FreeVariable { var: 7 }),
    ),
    (SEVENTEEN, &[7], Some(RuleFault::TooManyVariables)),
];

#[test]
fn the_first_fault_of_a_rule_is_named(rt: HostRuntime) -> Result<(), Fail> {
    for (left, right, expected) in FAULTS {
        assert_eq!(rt; fault(rt.alloc(), left, right)?, *expected, "at {left:?}");
    }
    let variable = Rule::new(Pattern::Var(0), Pattern::Var(7));
    assert_eq!(rt; variable.err(), Some(RuleFault::VariableLeft));
    Ok(())
}

/// Whether these are the variables of the rule with this left side.
fn has_rule_variables(alloc: Global, left: &[u32], vars: &[u32]) -> Result<bool, AllocError> {
    let rule = Rule::new(over(alloc, left)?, Pattern::Var(1));
    Ok(rule.is_ok_and(|rule| rule.vars() == vars))
}

/// The equation with these sides, where it isn't refused.
fn equation(alloc: Global, left: &[u32], right: &[u32]) -> Result<Option<Equation>, AllocError> {
    let left = over(alloc, left)?;
    let right = over(alloc, right)?;
    Ok(Equation::new(left, right).ok())
}

/// Whether these are the variables of the equation with these sides.
fn has_variables(
    alloc: Global,
    left: &[u32],
    right: &[u32],
    vars: &[u32],
) -> Result<bool, AllocError> {
    let equation = equation(alloc, left, right)?;
    Ok(equation.is_some_and(|equation| equation.vars() == vars))
}

#[test]
fn variables_stand_in_the_order_of_their_first_places(rt: HostRuntime) -> Result<(), Fail> {
    assert!(rt; has_rule_variables(rt.alloc(), &[2, 0, 1], &[2, 0, 1])?);
    assert!(rt; has_variables(rt.alloc(), &[1, 0, 1], &[2, 0], &[1, 0, 2])?);
    assert!(rt; equation(rt.alloc(), SIXTEEN, &[16])?.is_none());
    let sigma = Sigma::from_slice(rt.alloc(), &[3, 1, 4]);
    assert_eq!(rt; sigma.as_slice(), &[3, 1, 4][..]);
    Ok(())
}
