use crate::ctx::Ctx;
use crate::op::Op;
use indexmap::IndexMap;
use std::alloc::Global;

/// What a node tests: a choice, with the number of the node for each of its alternatives.
#[derive(Debug, Drop, PartialEq, Eq, Hash)]
pub(crate) struct Test {
    pub(crate) choice: u32,
    pub(crate) children: Vec<usize>,
}

/// An operation on the sets of two numbers.
#[derive(Clone, Copy, Debug, PartialEq, Eq, Hash)]
pub(crate) struct Work {
    pub(crate) op: Op,
    pub(crate) left: usize,
    pub(crate) right: usize,
}

/// The nodes, each kept once with its set, and what was computed of them.
///
/// The empty set has the number 0, the full set 1, and the node at the place i of `nodes` i + 2.
#[derive(Drop)]
pub(crate) struct Diagram {
    pub(crate) alloc: Global,
    pub(crate) nodes: IndexMap<Test, Ctx>,
    pub(crate) results: IndexMap<Work, usize>,
}
