/// What is done with a fact at the assignments of a set.
#[derive(Clone, Copy, Drop)]
pub(crate) enum Edit {
    /// It is added.
    Add,
    /// It is removed.
    Remove,
}
