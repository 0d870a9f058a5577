//! The laws of the definitions. Each is the contract of a function with nothing to do: that the
//! function is proved says that the law holds.

ghost use Rattle.lfg_output.specs.Output.{OneOutput};
ghost use Rattle.lfg_output.specs.Sentences.{OneParseCount};

/// A command over files has one output: one list of sections and one status.
pub fn a_command_has_one_output()
    ensures { OneOutput }
{}

/// A sentence has one parse count.
pub fn a_sentence_has_one_parse_count()
    ensures { OneParseCount }
{}
