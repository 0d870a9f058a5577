use lfg_terms::{Fact, List};

/// A reading: the facts of its tree and the facts of its f-structure, both in order and each once.
#[derive(Debug, Drop)]
pub struct Pair {
    pub tree: List<Fact>,
    pub facts: List<Fact>,
}
