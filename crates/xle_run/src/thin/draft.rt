use lfg_terms::Name;

/// A daughter of a thin rule: its category, and the function that its f-structure has in its
/// mother's. Without a function the two f-structures are one.
#[derive(Debug, Drop)]
pub(crate) struct Daughter {
    pub cat: Name,
    pub function: Option<Name>,
}

/// A rule: a category and its daughters in order.
#[derive(Debug, Drop)]
pub(crate) struct Phrase {
    pub cat: Name,
    pub daughters: Vec<Daughter>,
}

/// An equation of an entry: the path leads to the atom.
#[derive(Debug, Drop)]
pub(crate) struct Equation {
    pub path: Vec<Name>,
    pub atom: Name,
}

/// A lexicon entry: a word form, its category and its equations.
#[derive(Debug, Drop)]
pub(crate) struct Entry {
    pub form: Name,
    pub cat: Name,
    pub equations: Vec<Equation>,
}

/// What a thin grammar file says.
#[derive(Debug, Drop)]
pub(crate) struct Draft {
    pub root: Name,
    pub phrases: Vec<Phrase>,
    pub entries: Vec<Entry>,
}
