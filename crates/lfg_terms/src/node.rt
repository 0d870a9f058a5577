use crate::list::List;
use crate::name::Name;
use crate::path::Path;
use crate::shared::Shared;

/// A node of a c-structure: a category over the tokens from `from` to `to`.
///
/// Both places count tokens from 0; `to` is the place behind the last token. Edges are ordered by
/// their start, then the later end first, then by their category.
#[derive(Debug, Drop)]
pub struct Edge {
    pub cat: Name,
    pub from: u32,
    pub to: u32,
}

/// A node of an f-structure.
///
/// `At` is the place to which the path of attributes leads from the edge. `New` was made by a
/// transfer rule: by the rule's number, counted from 1, the variable that stood for it and the
/// values of the rule's other variables. `At` comes before `New`; two `At` are ordered by the
/// length of their path, then the edge, then the path; two `New` by depth of nesting, rule,
/// variable and binding.
#[cycle(node)]
#[derive(Debug, Drop)]
pub enum Node {
    At {
        edge: Edge,
        path: Path,
    },
    New {
        rule: u32,
        var: Name,
        binding: Binding,
    },
}

/// An argument of a fact. Atoms come before nodes.
#[cycle(node)]
#[derive(Debug, Drop)]
pub enum Arg {
    Atom(Name),
    Node(Node),
}

/// The values of the variables of a transfer rule, in the order in which these first occur.
pub type Binding = Shared<Arg>;

/// A relation between arguments. Facts are ordered by the relation, the number of arguments and
/// the arguments from the first.
#[derive(Debug, Drop)]
pub struct Fact {
    pub rel: Name,
    pub args: List<Arg>,
}
