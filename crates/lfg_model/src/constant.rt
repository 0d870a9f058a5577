use lfg_terms::{Form, Name, Site};

/// What a class of equal nodes can have as its value: an atom, or one instance of a semantic form.
///
/// Two occurrences of a form in a derivation are two constants, told apart by the place of their
/// annotation and their number there, counted from 0.
#[derive(Clone, Debug, Drop, PartialEq, Eq)]
pub enum Constant {
    Atom(Name),
    Form { form: Form, site: Site, index: u32 },
}
