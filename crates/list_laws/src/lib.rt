//! Lists of whatever has a property: one of all of it, what comes first of it, how many there are; and laws of lists that
//! the crates above take for their proofs. Nothing here runs.
#![tactic(auto)]

ghost use Rattle.list_laws.specs.ListingLaws.{ListingsAreOne, FrontsBeginListings, LongFrontsAreMore, MoreMakeLonger};
ghost use Rattle.list_laws.specs.ListingLaws.{FirstsAreFronts};
ghost use Rattle.list_laws.specs.ListLaws.{InsertionsAdd, InsertionsAscend, PartsAscend, DecidedAreListed, EndsStay};
ghost use Rattle.list_laws.specs.ListLaws.{SearchesFind, PlacesStay, PartsDiffer, FitsAreLong, InsertionsGrow};
ghost use Rattle.list_laws.specs.ListLaws.{NeitherPasses};
ghost use Rattle.list_laws.specs.InOrder.{ListsInOrderAscend, ListsInOrderHaveAll, UnionsAreInOrder, InsertionsAside};

use std::marker::Brand;

/// Things in an order, some of which have a property and some another one, which only contracts see.
pub trait Ordered {
    ghost use Rattle.std.specs.declared.cmp.Ordering.{Ordering};

    /// The order.
    ghost order: { Self → Self → Ordering };

    /// The property.
    ghost has: { Self → Type 0 };

    /// The other one.
    ghost lacks: { Self → Type 0 };
}

// A caller that passes `Brand` picks the order and the properties.
impl Ordered for Brand {
    ghost use Rattle.std.specs.Prelude.{⊤};
    ghost use Rattle.std.specs.declared.cmp.Ordering.TheVariants.{Equal};

    ghost order = { λ x y. Equal };

    ghost has = { λ x. ⊤ };

    ghost lacks = { λ x. ⊤ };
}

/// Laws of lists of whatever has a property, in ascending order: there is one at most, and what comes first of it is a
/// front of the list. A front that is longer than a number shows that more than so many have the property, and then the
/// list is longer than that. The first member of an ascending list that has the property is a front of all that have it.
pub fn of_listings<T: Ordered>()
    ensures one { ListingsAreOne T.order T.has }
    ensures fronts { FrontsBeginListings T.order T.has }
    ensures more { LongFrontsAreMore T.order T.has }
    ensures longer { MoreMakeLonger T.has }
    ensures first { FirstsAreFronts T.order T.has T.lacks }
{}

/// Laws of lists in an order. An insertion adds one thing and keeps the order; two lists that ascend, one before the other,
/// ascend as one; and whatever is decided, and has all of it in some list, has a listing. A list that is put in order ascends
/// and has the same members; an ascending union is the two lists in order; and members that are kept aside in order stand
/// where they would stand at once.
pub fn of_orders<T: Ordered>()
    ensures insertions { InsertionsAdd T.order }
    ensures ascend { InsertionsAscend T.order }
    ensures parts { PartsAscend T.order }
    ensures decided { DecidedAreListed T.order T.has }
    ensures in_order { ListsInOrderAscend T.order }
    ensures have_all { ListsInOrderHaveAll T.order }
    ensures unions { UnionsAreInOrder T.order }
    ensures aside { InsertionsAside T.order }
{}

/// Laws of places: a list ends as its second part does, a binary search finds what is there, a number that is mapped keeps
/// its place, numbers that differ stand in one part of a list, what fits place by place is as long, an insertion at the end
/// adds what isn't there, and where not one of two tests is passed, neither is.
pub fn of_places<T: Ordered>()
    ensures ends { EndsStay T }
    ensures searches { SearchesFind }
    ensures mapped { PlacesStay }
    ensures differ { PartsDiffer }
    ensures fits { FitsAreLong }
    ensures grow { InsertionsGrow }
    ensures neither { NeitherPasses }
{}
