use crate::list::List;
use crate::name::Name;

/// The forms that a token of a sentence offers to the lexicon, beside its text.
#[derive(Debug, Drop, PartialEq, Eq)]
pub struct TokenForms {
    pub text: Name,
    pub forms: List<Name>,
}

/// A daughter of a derivation: the item of the rule, counted from 1, the alternatives that its
/// annotation takes, counted from 0, and what it derives. An empty item `e` derives nothing.
#[cycle(derivation)]
#[derive(Drop)]
pub struct Part {
    pub occ: u32,
    pub picks: Vec<u32>,
    pub below: Option<Box<Derivation>>,
}

/// A c-structure with the alternatives that its annotations take.
#[cycle(derivation)]
#[derive(Drop)]
pub enum Derivation {
    /// A word, by the entry with this place in the lexicon, counted from 0.
    Leaf {
        cat: Name,
        entry: u32,
        picks: Vec<u32>,
    },
    /// A category with its daughters in order.
    Inner {
        cat: Name,
        parts: Vec<Part>,
    },
}
