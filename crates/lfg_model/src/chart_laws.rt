//! The laws of the shared chart. Each is the contract of a function with nothing to do: that the
//! function is proved says that the law holds.

ghost use Rattle.lfg_model.specs.Charts.{ChartHasAllNexts, OneChart};
ghost use Rattle.lfg_model.specs.ChartRows.{RowsMean};
ghost use Rattle.lfg_model.specs.Fillable.{FillableWithoutEmptyDisjunctions};
ghost use Rattle.lfg_model.specs.Grounded.{EdgesCoverTokens, NoEdgeTwice};
ghost use Rattle.lfg_model.specs.Kept.{KeptIsStanding};
ghost use Rattle.lfg_model.specs.Picked.{OneIsPicked, PickedIsReached, SomeIsPicked};

/// In a grounded grammar no derivation has an edge twice, and each edge of one covers a token.
pub fn no_edge_twice()
    ensures once { NoEdgeTwice }
    ensures covers { EdgesCoverTokens }
{}

/// Where each disjunction of a grammar has a branch, each annotation has picks that fit it.
pub fn fillable_without_empty_disjunctions()
    ensures { FillableWithoutEmptyDisjunctions }
{}

/// What can be derived from the words up, and what of it the root is built from, are the edges,
/// steps, entries and picks of whole derivations.
pub fn kept_is_standing()
    ensures { KeptIsStanding }
{}

/// A row of a chart has just what it means: edges that can be derived, items of a rule that are
/// reached, and items from which the rule can end.
pub fn rows_mean()
    ensures { RowsMean }
{}

/// A sentence has one chart at most, and a chart tells of each point all ways in which whole
/// derivations go on there.
pub fn one_chart()
    ensures one { OneChart }
    ensures all { ChartHasAllNexts }
{}

/// A selection picks one derivation at most.
pub fn one_is_picked()
    ensures { OneIsPicked }
{}

/// Where there is a whole derivation, each selection picks one.
pub fn some_is_picked()
    ensures { SomeIsPicked }
{}

/// The picked derivation has just the edges, steps, entries and picks that the selection reaches
/// from the root.
pub fn picked_is_reached()
    ensures { PickedIsReached }
{}
