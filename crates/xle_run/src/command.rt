ghost use Rattle.std.specs.Prelude.{◌≡◌, None, Some, map, string_bytes, MatchOption};
ghost use Rattle.lfg_model.specs.Output.{command_of};
ghost use Rattle.xle_run.specs.Commands.{command_view};

/// The command `readings` with its files, as words of the command line.
#[derive(Clone, Copy)]
pub(crate) struct Command<'a> {
    pub(crate) grammar: &'a str,
    pub(crate) sentences: &'a str,
}

/// The command that the words say, if they fit one.
pub(crate) fn command_of(words: &[String]) -> Option<Command<'_>>
    ensures { MatchOption result (command_of (map string_bytes words.now) ≡ None) (λ command. command_of (map string_bytes words.now) ≡ Some (command_view command)) }
{
    let [name, grammar, sentences] = words else {
        return None;
    };
    if name.as_str() == "readings" {
        Some(Command {
            grammar: grammar.as_str(),
            sentences: sentences.as_str(),
        })
    } else {
        None
    }
}
