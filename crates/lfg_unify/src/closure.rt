ghost use Rattle.std.specs.Prelude.{◌≡◌, ◌<◌, [], length, slice_index_or, IfSome, IfNone, map};
ghost use Rattle.std.specs.List.Sorted.{IsStrictlySortedBy};
ghost use Rattle.lfg_terms.specs.Order.{node_cmp};
ghost use Rattle.lfg_model.specs.Lists.{In};
ghost use Rattle.lfg_unify.specs.Closures.{place_in, context_in, equal_at, equal_of, Ascends};

use crate::table::Table;
use lfg_context::Ctx;
use lfg_model::Constant;
use lfg_terms::{Name, Node};
use std::marker::Model;

/// The closure of a list of literals in contexts. At each assignment it has exactly what the
/// solution of the literals that hold there has: its equal nodes, arcs, values and members.
///
/// Nodes go by their places in `nodes`, counted from 0.
#[derive(Drop)]
pub struct Closure {
    pub(crate) nodes: Vec<Node>,
    pub(crate) table: Table,
    pub(crate) arcs: Vec<(Node, Name, Node, Ctx)>,
    pub(crate) values: Vec<(Node, Constant, Ctx)>,
    pub(crate) members: Vec<(Node, Node, Ctx)>,
    pub(crate) arc_places: Vec<(usize, usize)>,
    pub(crate) value_places: Vec<usize>,
    pub(crate) member_places: Vec<(usize, usize)>,
    pub(crate) clash: Ctx,
    pub(crate) empty: Ctx,
}

impl Model for Closure {
    ghost use Rattle.lfg_unify.specs.Closures.{Closed, IsClosedForm};
    ghost use Rattle.lfg_terms.specs.contracts.node.Node as node;
    ghost use Rattle.std.specs.Coded.{codes};

    ghost Value = { Closed };

    ghost coded = { Prim.hlevel (codes, node.the_row.coded) };

    ghost view = { λ k. record { nodes = k.nodes.items; rows = k.table; arcs = k.arcs.items; values = k.values.items; members = k.members.items; arc_places = k.arc_places.items; value_places = k.value_places.items; member_places = k.member_places.items; clash = k.clash; empty = k.empty } };

    ghost invariant = { λ k. IsClosedForm (record { nodes = k.nodes.items; rows = k.table; arcs = k.arcs.items; values = k.values.items; members = k.members.items; arc_places = k.arc_places.items; value_places = k.value_places.items; member_places = k.member_places.items; clash = k.clash; empty = k.empty }) };
}

/// The place of the node among the nodes.
pub(crate) fn place_of(nodes: &[Node], node: &Node) -> Option<usize>
    requires { IsStrictlySortedBy node_cmp nodes.now }
    ensures found { IfSome result (λ place. place ≡ place_in nodes.now node.now) }
    ensures within { IfSome result (λ place. place < length nodes.now) }
    ensures missing { IfNone result (place_in nodes.now node.now ≡ length nodes.now) }
{
    nodes.binary_search(node).ok()
}

/// The context beside the place in the row; the empty one where it is not there.
pub(crate) fn context_at<'a>(row: &'a [(usize, Ctx)], place: usize, empty: &'a Ctx) -> &'a Ctx
    ensures { result.now ≡ context_in empty.now row.now place }
{
    for entry in row {
        if entry.0 == place {
            return &entry.1;
        }
    }
    empty
}

impl Closure {
    /// The nodes of all literals, in order, each once. Takes no memory.
    pub fn nodes(&self) -> &[Node]
        ensures { result.now ≡ self.now.nodes }
    {
        &self.nodes
    }

    /// The place of the node, if it is there, in logarithmic time. Takes no memory.
    pub fn place_of(&self, node: &Node) -> Option<usize>
        ensures found { IfSome result (λ place. place ≡ place_in self.now.nodes node.now) }
        ensures within { IfSome result (λ place. place < length self.now.nodes) }
        ensures missing { IfNone result (¬ In node.now self.now.nodes) }
    {
        place_of(&self.nodes, node)
    }

    /// The context in which the two nodes are equal: the empty one where one of them is not there.
    /// Takes no memory.
    pub fn equal(&self, a: &Node, b: &Node) -> &Ctx
        ensures { result.now ≡ equal_of self.now a.now b.now }
    {
        let Some(first) = place_of(&self.nodes, a) else {
            return &self.empty;
        };
        let row = self.table.row(first);
        let Some(second) = place_of(&self.nodes, b) else {
            return &self.empty;
        };
        context_at(row, second, &self.empty)
    }

    /// The context in which the nodes at the two places are equal: the empty one where there is no
    /// node at a place. Takes no memory.
    pub fn equal_at(&self, first: usize, second: usize) -> &Ctx
        ensures { result.now ≡ equal_at self.now first second }
    {
        if first < self.table.count() {
            context_at(self.table.row(first), second, &self.empty)
        } else {
            &self.empty
        }
    }

    /// The places of the nodes that are equal somewhere to the node at the place, each with the
    /// context in which it is. Places ascend, and no context is empty. Takes no memory.
    pub fn equals(&self, place: usize) -> &[(usize, Ctx)]
        requires { place < length self.now.nodes }
        ensures row { result.now ≡ slice_index_or self.now.rows place [] }
        ensures ascends { Ascends (length self.now.nodes) 0 result.now }
    {
        self.table.row(place)
    }

    /// The arcs on the way to each node, with the contexts in which they are. Takes no memory.
    pub fn arcs(&self) -> &[(Node, Name, Node, Ctx)]
        ensures { result.now ≡ self.now.arcs }
    {
        &self.arcs
    }

    /// The places of the source and the target of each listed arc. Takes no memory.
    pub fn arc_places(&self) -> &[(usize, usize)]
        ensures { result.now ≡ map (λ r. (place_in self.now.nodes r.0, place_in self.now.nodes r.2)) self.now.arcs }
    {
        &self.arc_places
    }

    /// The values that literals state, with the contexts in which they do. Takes no memory.
    pub fn values(&self) -> &[(Node, Constant, Ctx)]
        ensures { result.now ≡ self.now.values }
    {
        &self.values
    }

    /// The place of the node of each listed value. Takes no memory.
    pub fn value_places(&self) -> &[usize]
        ensures { result.now ≡ map (λ v. place_in self.now.nodes v.0) self.now.values }
    {
        &self.value_places
    }

    /// The members that literals state, each before its set, with the contexts in which they do.
    /// Takes no memory.
    pub fn members(&self) -> &[(Node, Node, Ctx)]
        ensures { result.now ≡ self.now.members }
    {
        &self.members
    }

    /// The places of the item and the set of each listed member. Takes no memory.
    pub fn member_places(&self) -> &[(usize, usize)]
        ensures { result.now ≡ map (λ m. (place_in self.now.nodes m.0, place_in self.now.nodes m.1)) self.now.members }
    {
        &self.member_places
    }

    /// The context in which uniqueness fails: two different constants, or a constant and an arc or a
    /// member, meet at one class. Takes no memory.
    pub fn clash(&self) -> &Ctx
        ensures { result.now ≡ self.now.clash }
    {
        &self.clash
    }
}
