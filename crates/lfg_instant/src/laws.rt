//! The laws of the definitions. Each is the contract of a function with nothing to do: that the
//! function is proved says that the law holds.

ghost use Rattle.lfg_instant.specs.Instants.{OneChoiceList, OneInstanceCount, OneLiteralCount};

/// A sentence has one list of choices, one number of literals, and one size.
pub fn a_sentence_has_one_size()
    ensures choices { OneChoiceList }
    ensures literals { OneLiteralCount }
    ensures size { OneInstanceCount }
{}
