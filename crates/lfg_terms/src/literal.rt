use crate::grammar::Form;
use crate::list::List;
use crate::name::Name;
use crate::node::{Edge, Node};
use crate::path::Path;

/// Where an annotation was instantiated.
#[derive(Clone, Debug, Drop, PartialEq, Eq)]
pub enum Site {
    /// At the item `occ` of the rule of `edge`, counted from 1, over the tokens from `at` to `to`.
    Item {
        edge: Edge,
        occ: u32,
        at: u32,
        to: u32,
    },
    /// At the lexical edge `edge`, by the entry with this place in the lexicon, counted from 0.
    Entry {
        edge: Edge,
        entry: u32,
    },
}

/// The ways from a node along each of some paths.
#[derive(Debug, Drop)]
pub struct Walk {
    pub start: Node,
    pub paths: List<Path>,
}

/// What a constraining equation compares with.
#[derive(Debug, Drop)]
pub enum Target {
    Atom(Name),
    Walk(Walk),
}

/// A constraint on a finished f-structure. It adds nothing to it.
#[derive(Debug, Drop)]
pub enum Check {
    Same {
        negated: bool,
        left: Walk,
        right: Target,
    },
    Exists {
        negated: bool,
        left: Walk,
    },
}

/// An annotation of one place of a derivation, with nodes in place of arrows.
#[derive(Debug, Drop)]
pub enum Literal {
    /// The two nodes are one.
    Equal {
        a: Node,
        b: Node,
    },
    /// The node has this atom as its value.
    Value {
        at: Node,
        atom: Name,
    },
    /// The node has this semantic form as its value. Each occurrence of a form in a derivation is
    /// an instance of its own, told apart by its site and its number there, counted from 0.
    Form {
        at: Node,
        form: Form,
        site: Site,
        index: u32,
    },
    /// The item is a member of the set.
    Member {
        item: Node,
        set: Node,
    },
    /// A constraint.
    Check(Check),
    /// An optimality mark.
    Mark(Name),
}
