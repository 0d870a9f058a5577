/// What a choice is between.
#[derive(Clone, Copy, Debug, PartialEq, Eq)]
pub enum ChoiceKind {
    /// The next item of a rule with the place where it ends, or the end of the rule.
    Next,
    /// The lexicon entries of a word.
    Entry,
    /// The branches of an annotation: of a disjunction, an option or a path with several strings.
    Branch,
    /// Whether a match of an optional transfer rule is applied (0) or left (1).
    Optional,
}

/// A point at which readings part: its kind, and how many alternatives it has.
///
/// Alternatives are counted from 0.
#[derive(Clone, Copy, Debug, PartialEq, Eq)]
pub struct Choice {
    pub kind: ChoiceKind,
    pub alternatives: u32,
}
