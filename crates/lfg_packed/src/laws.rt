//! The laws of the definitions. Each is the contract of a function with nothing to do: that the
//! function is proved says that the law holds.

ghost use Rattle.lfg_packed.specs.Layouts.{OneIsPickedBy, SomeIsPickedBy};
ghost use Rattle.lfg_packed.specs.Picks.{LiteralsByPicks, NoSiteTwice};
ghost use Rattle.lfg_packed.specs.SpotFacts.{LiteralsAreOfSpots, TreeFactsAreOfSpots};

/// The literals and the tree facts of a derivation are those of all that it has, in order.
pub fn derivations_give_what_they_have()
    ensures literals { LiteralsAreOfSpots }
    ensures facts { TreeFactsAreOfSpots }
{}

/// An assignment of a sentence's choices picks one derivation at most, and one where the sentence
/// has any.
pub fn an_assignment_picks_one_derivation()
    ensures one { OneIsPickedBy }
    ensures some { SomeIsPickedBy }
{}

/// No derivation of a loaded grammar has an item or an entry twice; the literals of the derivation
/// that an assignment picks are those of its items and entries by the assignment's picks.
pub fn items_and_entries_give_the_literals()
    ensures once { NoSiteTwice }
    ensures literals { LiteralsByPicks }
{}
