ghost use Rattle.lfg_model.specs.DraftCases.{DraftsByCases};
ghost use Rattle.lfg_model.specs.Drafts.{NeverBoth, OneDraft, OneFault, SomeDraft};
ghost use Rattle.lfg_model.specs.NotationCases.{AnnotationsByCases, PathsByCases, RightSidesByCases};

/// How often something stands that may be repeated.
#[derive(Clone, Copy, Debug, PartialEq, Eq, Drop)]
pub enum Repetition {
    /// It stands once.
    Once,
    /// Any number of times, written `*`.
    AnyTimes,
    /// One or more times, written `+`.
    OnceOrMore,
}

/// What a row of lexemes is cut at.
#[derive(Clone, Copy, Debug, PartialEq, Eq, Drop)]
pub enum Separator {
    /// `----`, which ends a section.
    Divider,
    /// `.`, which ends an entry.
    Stop,
    /// `;`, which ends a reading of a word.
    Semicolon,
}

/// Of what kind a section of a grammar file is.
#[derive(Clone, Copy, Debug, PartialEq, Eq, Drop)]
pub enum SectionKind {
    /// Settings.
    Config,
    /// Phrase structure rules with their annotations.
    Rules,
    /// Templates.
    Templates,
    /// Words with their categories and annotations.
    Lexicon,
}

/// A text says exactly one draft, or is no grammar file for exactly one reason, and never both.
pub fn one_draft()
    ensures some { SomeDraft }
    ensures drafts { OneDraft }
    ensures faults { OneFault }
    ensures never_both { NeverBoth }
{}

/// Paths, annotations and right sides are read exactly as the table of forms has them, case by
/// case, and so are settings, rules, templates and words, sections and whole files.
pub fn notation_by_cases()
    ensures paths { PathsByCases }
    ensures annotations { AnnotationsByCases }
    ensures right_sides { RightSidesByCases }
    ensures drafts { DraftsByCases }
{}
