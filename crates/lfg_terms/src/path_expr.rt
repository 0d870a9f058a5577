use crate::name::Name;

/// A path expression: a regular set of strings of attributes (functional uncertainty).
#[derive(Debug, Drop)]
pub enum PathExpr {
    /// One attribute.
    Attr(Name),
    /// The parts one after the other.
    Row(Vec<PathExpr>),
    /// One of the branches.
    OneOf(Vec<PathExpr>),
    /// What is inside, any number of times.
    Star(Box<PathExpr>),
    /// What is inside, one or more times.
    Plus(Box<PathExpr>),
}
