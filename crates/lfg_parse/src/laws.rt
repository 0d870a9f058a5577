//! The law of the definitions: the contract of a function with nothing to do. That the function is
//! proved says that the law holds.

ghost use Rattle.lfg_parse.specs.Picking.{AllArePicked};

/// Each derivation of a sentence is the one that some assignment of the sentence's choices picks.
pub fn each_derivation_is_picked()
    ensures { AllArePicked }
{}
