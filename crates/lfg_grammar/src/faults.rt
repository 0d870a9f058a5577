ghost use Rattle.std.specs.Prelude.{◌≡◌};
ghost use Rattle.lfg_grammar.specs.Refusals.{draft_fault, path_fault, template_fault};

use lfg_model::GrammarFault;
use lfg_notation::DraftFault;
use lfg_regpath::PathFault;
use lfg_templates::TemplateFault;

/// The fault of the notation, as a fault of the file.
pub(crate) fn draft_fault(fault: DraftFault) -> GrammarFault
    ensures { result ≡ draft_fault fault }
{
    match fault {
        DraftFault::NotUtf8 { at } => GrammarFault::NotUtf8 { at },
        DraftFault::NoToken { at } => GrammarFault::NoToken { at },
        DraftFault::Section { number } => GrammarFault::Section { number },
        DraftFault::Entry { number } => GrammarFault::Entry { number },
        DraftFault::Memory => GrammarFault::Memory,
    }
}

/// The fault of the templates, as a fault of the file.
pub(crate) fn template_fault(fault: TemplateFault) -> GrammarFault
    ensures { result ≡ template_fault fault }
{
    match fault {
        TemplateFault::Repeated { name } => GrammarFault::Repeated { name },
        TemplateFault::Undefined { name } => GrammarFault::Undefined { name },
        TemplateFault::Arity { name } => GrammarFault::Arity { name },
        TemplateFault::TemplateCycle { name } => GrammarFault::TemplateCycle { name },
        TemplateFault::TooMuch { entry } => GrammarFault::TooMuch { entry },
        TemplateFault::Memory => GrammarFault::Memory,
    }
}

/// The fault of a path in this entry, as a fault of the file.
pub(crate) fn path_fault(entry: u32, fault: PathFault) -> GrammarFault
    ensures { result ≡ path_fault entry fault }
{
    match fault {
        PathFault::TooManyPaths => GrammarFault::TooManyPaths { entry },
        PathFault::NoPath => GrammarFault::NoPath { entry },
        PathFault::Memory => GrammarFault::Memory,
    }
}
