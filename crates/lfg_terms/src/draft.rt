use crate::grammar::Schema;
use crate::list::List;
use crate::name::Name;
use crate::path_expr::PathExpr;

/// The right side of a rule as it is written.
#[derive(Debug, Drop)]
pub enum Rhs {
    /// A category with its annotation, if it has one. The category `e` is the empty item.
    Item {
        cat: Name,
        schemata: Option<Vec<Schema<PathExpr>>>,
    },
    /// The parts one after the other.
    Row(Vec<Rhs>),
    /// One of the branches.
    OneOf(Vec<Rhs>),
    /// What is inside, or nothing.
    Maybe(Box<Rhs>),
    /// What is inside, any number of times.
    Star(Box<Rhs>),
    /// What is inside, one or more times.
    Plus(Box<Rhs>),
}

/// One reading of a lexicon entry: a word form with a category and an annotation.
///
/// `entry` is the number of the entry in its file, counted from 1, here and in the other parts of a
/// draft.
#[derive(Debug, Drop)]
pub struct LexEntry {
    pub entry: u32,
    pub form: Name,
    pub cat: Name,
    pub schemata: List<Schema<PathExpr>>,
}

/// A rule as it is written: the category that it expands and its right side.
#[derive(Debug, Drop)]
pub struct DraftRule {
    pub entry: u32,
    pub cat: Name,
    pub rhs: Rhs,
}

/// A template: an annotation with parameters, which its calls stand for.
#[derive(Debug, Drop)]
pub struct Template {
    pub entry: u32,
    pub name: Name,
    pub params: List<Name>,
    pub body: List<Schema<PathExpr>>,
}

/// A setting of a grammar: a key and the words behind it.
#[derive(Clone, Debug, Drop, PartialEq, Eq)]
pub struct Setting {
    pub entry: u32,
    pub key: Name,
    pub words: List<Name>,
}

/// A grammar as its file has it, with templates and their calls. Each list is in written order.
#[derive(Debug, Drop)]
pub struct Draft {
    pub settings: List<Setting>,
    pub rules: List<DraftRule>,
    pub templates: List<Template>,
    pub entries: List<LexEntry>,
}

/// A grammar as its file has it, in which each call of a template is replaced: no annotation has a
/// `Schema::Call`. Each list is in written order.
#[derive(Debug, Drop)]
pub struct Plain {
    pub settings: List<Setting>,
    pub rules: List<DraftRule>,
    pub entries: List<LexEntry>,
}
