use lfg_terms::Name;
use std::alloc::{AllocError, AllocFailed};
use thiserror::Error;

/// Why the templates of a draft were not expanded.
#[derive(Debug, PartialEq, Eq, Drop, Error)]
pub enum TemplateFault {
    /// The category of a rule, the name of a template or a word form of the lexicon heads a second
    /// entry of its section, or the template of this name names a parameter twice.
    #[error("`{name}` is repeated")]
    Repeated { name: Name },
    /// A call names no template.
    #[error("there is no template `{name}`")]
    Undefined { name: Name },
    /// A call has another number of arguments than its template has parameters.
    #[error("a call of the template `{name}` has another number of arguments")]
    Arity { name: Name },
    /// The template calls itself, directly or through others.
    #[error("the template `{name}` calls itself")]
    TemplateCycle { name: Name },
    /// The schemata of the rules and the lexicon up to this entry are too many.
    #[error("there are too many schemata at entry {entry}")]
    TooMuch { entry: u32 },
    /// There was not enough memory.
    #[error("out of memory")]
    Memory,
}

impl From<AllocError> for TemplateFault {
    ghost use Rattle.std.specs.Prelude.{◌≡◌};
    ghost use Rattle.lfg_templates.specs.declared.fault.TemplateFault.TheVariants.{Memory};

    ghost from_gives = { λ _ fault. fault ≡ Memory };

    fn from(_: AllocError) -> TemplateFault {
        TemplateFault::Memory
    }
}

impl<T: Drop> From<AllocFailed<T>> for TemplateFault {
    ghost use Rattle.std.specs.Prelude.{◌≡◌};
    ghost use Rattle.lfg_templates.specs.declared.fault.TemplateFault.TheVariants.{Memory};

    ghost from_gives = { λ _ fault. fault ≡ Memory };

    fn from(_: AllocFailed<T>) -> TemplateFault {
        TemplateFault::Memory
    }
}
