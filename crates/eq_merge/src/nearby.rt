//! Where to look for merges that follow from others: at the transitions near the states that have come into other classes.
//! Nothing rests on what is found here: whatever is left out is found by a pass over the whole automaton.
use ranked_terms::Pattern;
use std::alloc::{AllocError, Global};
use std::collections::BTreeSet;
use std::mem;
use ta_core::Trans;
use trs_rules::Equation;

/// Where the classes of states stand, and which of them have changed. A class is told by its least state.
#[derive(Drop)]
pub(crate) struct Nearby {
    alloc: Global,
    /// For each class the places of the transitions at which it stands.
    uses: Vec<Vec<usize>>,
    /// The classes that have changed.
    changed: Vec<u32>,
    /// How many transitions away from a class a match of the equations can reach.
    reach: u32,
}

/// The classes and the places of transitions that were met.
#[derive(Drop)]
struct Met {
    classes: BTreeSet<u32>,
    places: BTreeSet<usize>,
}

impl Nearby {
    /// The classes of an automaton with these transitions, of which those with several states have changed. The only error is
    /// running out of memory.
    pub(crate) fn of(
        alloc: Global,
        trans: &[Trans],
        equations: &[Equation],
        classes: &[u32],
    ) -> Result<Nearby, AllocError> {
        let mut nearby = Nearby {
            alloc,
            uses: none_of_each(alloc, classes.len())?,
            changed: Vec::new(alloc),
            reach: reach_of(equations),
        };
        for place in 0..trans.len() {
            nearby.add_use(place, trans[place].to, classes)?;
            nearby.add_uses(place, trans[place].args.as_slice(), classes)?;
        }
        nearby.change(classes)?;
        Ok(nearby)
    }

    /// The class of the state stands at the place. The only error is running out of memory.
    fn add_use(&mut self, place: usize, state: u32, classes: &[u32]) -> Result<(), AllocError> {
        if let Some(uses) = self.uses.get_mut(class_of(classes, state) as usize) {
            uses.push(place)?;
        }
        Ok(())
    }

    /// So do the classes of these states. The only error is running out of memory.
    fn add_uses(
        &mut self,
        place: usize,
        states: &[u32],
        classes: &[u32],
    ) -> Result<(), AllocError> {
        for state in states {
            self.add_use(place, *state, classes)?;
        }
        Ok(())
    }

    /// Each class that has a state besides its least one has changed. The only error is running out of memory.
    fn change(&mut self, classes: &[u32]) -> Result<(), AllocError> {
        for state in 0..classes.len() {
            if classes[state] as usize != state {
                self.changed.push(classes[state])?;
            }
        }
        Ok(())
    }

    /// Classes are put together: for each one the class to which it comes. The only error is running out of memory.
    pub(crate) fn join(&mut self, joined: &[u32]) -> Result<(), AllocError> {
        for class in 0..joined.len() {
            if joined[class] as usize != class {
                self.absorb(class, joined[class])?;
            }
        }
        Ok(())
    }

    /// The one class comes to the other one. The only error is running out of memory.
    fn absorb(&mut self, class: usize, to: u32) -> Result<(), AllocError> {
        let none = Vec::new(self.alloc);
        if let Some(uses) = self.uses.get_mut(class) {
            let moved = mem::replace(uses, none);
            if let Some(uses) = self.uses.get_mut(to as usize) {
                uses.extend_from_slice(moved.as_slice())?;
            }
        }
        self.changed.push(to)?;
        Ok(())
    }

    /// The places of the transitions near the classes that have changed; from now on none has. The only error is running out of
    /// memory.
    pub(crate) fn places(
        &mut self,
        trans: &[Trans],
        classes: &[u32],
    ) -> Result<Vec<usize>, AllocError> {
        let mut met = Met {
            classes: BTreeSet::new(self.alloc),
            places: BTreeSet::new(self.alloc),
        };
        let mut front = mem::replace(&mut self.changed, Vec::new(self.alloc));
        for _ in 0..self.reach {
            front = self.beyond(trans, classes, front.as_slice(), &mut met)?;
        }
        met.places.into_iter().collect(self.alloc)
    }

    /// The classes that stand beside those of the front. The only error is running out of memory.
    fn beyond(
        &self,
        trans: &[Trans],
        classes: &[u32],
        front: &[u32],
        met: &mut Met,
    ) -> Result<Vec<u32>, AllocError> {
        let mut beyond = Vec::new(self.alloc);
        for class in front {
            if met.classes.insert(*class)? {
                self.add_beside(trans, classes, *class, met, &mut beyond)?;
            }
        }
        Ok(beyond)
    }

    /// Adds those that stand beside one class. The only error is running out of memory.
    fn add_beside(
        &self,
        trans: &[Trans],
        classes: &[u32],
        class: u32,
        met: &mut Met,
        beyond: &mut Vec<u32>,
    ) -> Result<(), AllocError> {
        if let Some(uses) = self.uses.get(class as usize) {
            for place in uses.as_slice() {
                if met.places.insert(*place)? {
                    add_classes(trans, classes, *place, beyond)?;
                }
            }
        }
        Ok(())
    }
}

/// No uses, for each of so many states. The only error is running out of memory.
fn none_of_each(alloc: Global, count: usize) -> Result<Vec<Vec<usize>>, AllocError> {
    let mut uses = Vec::new(alloc);
    for _ in 0..count {
        uses.push(Vec::new(alloc))?;
    }
    Ok(uses)
}

/// The class of a state.
fn class_of(classes: &[u32], state: u32) -> u32 {
    classes.get(state as usize).copied().unwrap_or(state)
}

/// Adds the classes that stand at a transition. The only error is running out of memory.
fn add_classes(
    trans: &[Trans],
    classes: &[u32],
    place: usize,
    found: &mut Vec<u32>,
) -> Result<(), AllocError> {
    if let Some(t) = trans.get(place) {
        found.push(class_of(classes, t.to))?;
        for state in t.args.as_slice() {
            found.push(class_of(classes, *state))?;
        }
    }
    Ok(())
}

/// How many transitions away from a state a match of the equations can reach: up through the one side and down again, and then
/// through the other side.
fn reach_of(equations: &[Equation]) -> u32 {
    let mut reach: u32 = 0;
    for equation in equations {
        let height = height_of(equation.left()).saturating_add(height_of(equation.right()));
        reach = reach.max(height.saturating_mul(2));
    }
    reach
}

/// How many symbols stand above one another in a pattern.
fn height_of(pattern: &Pattern) -> u32 {
    match pattern {
        Pattern::Var(_) => 0,
        Pattern::App(_, args) => {
            let mut height: u32 = 0;
            for arg in args.as_slice() {
                height = height.max(height_of(arg));
            }
            height.saturating_add(1)
        }
    }
}
