use crate::list::List;
use crate::name::Name;
use crate::path::Path;

/// A semantic form: its name, the functions inside its angle brackets and those behind them.
#[derive(Clone, Debug, Drop, PartialEq, Eq)]
pub struct Form {
    pub name: Name,
    pub inner: List<Name>,
    pub outer: List<Name>,
}

/// Whose node an annotation speaks of: the mother's (`Up`, written `^`) or the daughter's own
/// (`Down`, written `!`).
#[derive(Clone, Copy, Debug, PartialEq, Eq)]
pub enum Arrow {
    Up,
    Down,
}

/// A designator: an arrow, or the paths that lead from it. `None` is the arrow alone.
#[derive(Debug, Drop)]
pub struct Des<P> {
    pub arrow: Arrow,
    pub path: Option<P>,
}

/// The right side of an equation.
#[derive(Debug, Drop)]
pub enum Val<P> {
    Des(Des<P>),
    Atom(Name),
    Form(Form),
}

/// One schema of an annotation (Kaplan and Bresnan 1982), over paths of type `P`.
#[derive(Debug, Drop)]
pub enum Schema<P> {
    /// A defining equation.
    Define {
        left: Des<P>,
        right: Val<P>,
    },
    /// A constraining equation, or its negation.
    Constrain {
        negated: bool,
        left: Des<P>,
        right: Val<P>,
    },
    /// An existential constraint, or its negation.
    Exists {
        negated: bool,
        left: Des<P>,
    },
    /// The item is a member of the set.
    Member {
        item: Des<P>,
        set: Des<P>,
    },
    /// An optimality mark.
    Mark(Name),
    /// A disjunction: one branch is taken.
    Either(Vec<Vec<Schema<P>>>),
    /// An option: it is taken or left.
    Maybe(Vec<Schema<P>>),
    /// A call of a template.
    Call {
        name: Name,
        args: List<Name>,
    },
}

/// The strings of a path expression, ordered by length and then by their attributes.
pub type Paths = List<Path>;

/// An item of a rule's right side with its annotation. A category of `None` is the empty item `e`.
#[derive(Debug, Drop)]
pub struct Item {
    pub cat: Option<Name>,
    pub schemata: List<Schema<Paths>>,
}

/// Which items of a rule may begin, follow each other and end.
///
/// Items are numbered from 1 in written order, `size` of them. `next` and `last` have a place for
/// each item, that of item k at k - 1; `first` and each list of `next` ascend without repeats.
#[derive(Debug, Drop, PartialEq, Eq)]
pub struct Graph {
    pub size: u32,
    pub first: List<u32>,
    pub next: List<List<u32>>,
    pub last: List<bool>,
}

/// A rule: the category that it expands, its items and how they may follow each other.
#[derive(Debug, Drop)]
pub struct Rule {
    pub cat: Name,
    pub items: List<Item>,
    pub graph: Graph,
}

/// A lexicon entry: a word form with one category and one annotation.
#[derive(Debug, Drop)]
pub struct Lex {
    pub form: Name,
    pub cat: Name,
    pub schemata: List<Schema<Paths>>,
}

/// A loaded grammar.
///
/// `root` is the category of whole sentences, `governable` the governable grammatical functions,
/// `gensize` the greatest number of category nodes of a generated tree, `maxfacts` the limit of
/// the counts of a sentence, `cats` all categories in the order of their bytes.
#[derive(Debug, Drop)]
pub struct Grammar {
    pub root: Name,
    pub governable: List<Name>,
    pub gensize: u32,
    pub maxfacts: u32,
    pub cats: List<Name>,
    pub rules: List<Rule>,
    pub lexicon: List<Lex>,
}
