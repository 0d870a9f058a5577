ghost use Rattle.std.specs.Prelude.{◌≡◌, ◌↔◌, IsTrue, refl};
ghost use Rattle.std.specs.Cmp.{partial_order_from_total, partial_equiv_from_equiv};
ghost use Rattle.std.specs.Cmp.Lexicographic.{slice_cmp};
ghost use Rattle.std.specs.Ordering.{as_partial_cmp, eq_by_cmp};
ghost use Rattle.std.proofs.lemmas.Cmp.{eq_by_cmp_equiv};
ghost use Rattle.lfg_terms.specs.Order.{edge_cmp, node_cmp, arg_cmp, fact_cmp};
ghost use Rattle.lfg_terms.specs.OrderLaws.{edge_cmp_total, node_cmp_total, arg_cmp_total, fact_cmp_total};

use crate::depth::is_deeper;
use crate::node::{Arg, Edge, Fact, Node};
use std::cmp::Ordering;

impl PartialEq for Edge {
    ghost eq = { eq_by_cmp edge_cmp };

    ghost laws = { partial_equiv_from_equiv (eq_by_cmp_equiv edge_cmp_total) };

    #[tactic(auto, using(crate::proofs::Ties::edge_eq_same))]
    fn eq(&self, other: &Edge) -> bool
        ensures same { IsTrue result ↔ (self.now ≡ other.now) }
        ensures eq { result ≡ eq_by_cmp edge_cmp self.now other.now }
    {
        self.cmp(other).is_eq()
    }
}

impl Eq for Edge {
    ghost laws = { eq_by_cmp_equiv edge_cmp_total };
}

impl PartialOrd for Edge {
    ghost partial_cmp = { as_partial_cmp edge_cmp };

    ghost laws = { partial_order_from_total edge_cmp_total };

    fn partial_cmp(&self, other: &Edge) -> Option<Ordering> {
        Some(self.cmp(other))
    }
}

impl Ord for Edge {
    ghost cmp = { edge_cmp };

    ghost total = { edge_cmp_total };

    ghost matches_partial_cmp = { λ x y. refl };

    ghost matches_eq = { λ x y. refl };

    #[tactic(auto, using(crate::proofs::Ties::edge_cmp_same))]
    fn cmp(&self, other: &Edge) -> Ordering
        ensures same { (result ≡ Ordering.Equal) ↔ (self.now ≡ other.now) }
        ensures cmp { result ≡ edge_cmp self.now other.now }
    {
        self.from
            .cmp(&other.from)
            .then(other.to.cmp(&self.to))
            .then(self.cat.cmp(&other.cat))
    }
}

impl PartialEq for Node {
    ghost eq = { eq_by_cmp node_cmp };

    ghost laws = { partial_equiv_from_equiv (eq_by_cmp_equiv node_cmp_total) };

    #[tactic(auto, using(crate::proofs::Ties::node_eq_same))]
    fn eq(&self, other: &Node) -> bool
        ensures same { IsTrue result ↔ (self.now ≡ other.now) }
        ensures eq { result ≡ eq_by_cmp node_cmp self.now other.now }
    {
        compare_nodes(self, other).is_eq()
    }
}

impl Eq for Node {
    ghost laws = { eq_by_cmp_equiv node_cmp_total };
}

impl PartialOrd for Node {
    ghost partial_cmp = { as_partial_cmp node_cmp };

    ghost laws = { partial_order_from_total node_cmp_total };

    fn partial_cmp(&self, other: &Node) -> Option<Ordering> {
        Some(compare_nodes(self, other))
    }
}

impl Ord for Node {
    ghost cmp = { node_cmp };

    ghost total = { node_cmp_total };

    ghost matches_partial_cmp = { λ x y. refl };

    ghost matches_eq = { λ x y. refl };

    #[tactic(auto, using(crate::proofs::Ties::node_cmp_same))]
    fn cmp(&self, other: &Node) -> Ordering
        ensures same { (result ≡ Ordering.Equal) ↔ (self.now ≡ other.now) }
        ensures cmp { result ≡ node_cmp self.now other.now }
    {
        compare_nodes(self, other)
    }
}

#[cycle(order)]
fn compare_nodes(a: &Node, b: &Node) -> Ordering
    ensures { result ≡ node_cmp a.now b.now }
{
    if is_deeper(a, b) {
        return Ordering::Greater;
    }
    if is_deeper(b, a) {
        return Ordering::Less;
    }
    match a {
        Node::At { edge, path } => match b {
            Node::At {
                edge: other_edge,
                path: other_path,
            } => {
                let mine = path.list();
                let theirs = other_path.list();
                mine.len()
                    .cmp(&theirs.len())
                    .then(edge.cmp(other_edge))
                    .then(mine.cmp(theirs))
            }
            Node::New { .. } => Ordering::Less,
        },
        Node::New { rule, var, binding } => match b {
            Node::At { .. } => Ordering::Greater,
            Node::New {
                rule: other_rule,
                var: other_var,
                binding: other_binding,
            } => {
                let first = rule.cmp(other_rule).then(var.cmp(other_var));
                if first.is_eq() {
                    compare_lists(binding.list(), other_binding.list())
                } else {
                    first
                }
            }
        },
    }
}

#[cycle(order)]
fn compare_args(a: &Arg, b: &Arg) -> Ordering
    ensures { result ≡ arg_cmp a.now b.now }
{
    match a {
        Arg::Atom(name) => match b {
            Arg::Atom(other) => name.cmp(other),
            Arg::Node(_) => Ordering::Less,
        },
        Arg::Node(node) => match b {
            Arg::Atom(_) => Ordering::Greater,
            Arg::Node(other) => compare_nodes(node, other),
        },
    }
}

#[cycle(order)]
fn compare_lists(xs: &[Arg], ys: &[Arg]) -> Ordering
    ensures { result ≡ slice_cmp arg_cmp xs.now ys.now }
{
    for i in 0..xs.len().min(ys.len()) {
        let here = compare_args(&xs[i], &ys[i]);
        if here.is_ne() {
            return here;
        }
    }
    xs.len().cmp(&ys.len())
}

impl PartialEq for Arg {
    ghost eq = { eq_by_cmp arg_cmp };

    ghost laws = { partial_equiv_from_equiv (eq_by_cmp_equiv arg_cmp_total) };

    #[tactic(auto, using(crate::proofs::Ties::arg_eq_same))]
    fn eq(&self, other: &Arg) -> bool
        ensures same { IsTrue result ↔ (self.now ≡ other.now) }
        ensures eq { result ≡ eq_by_cmp arg_cmp self.now other.now }
    {
        compare_args(self, other).is_eq()
    }
}

impl Eq for Arg {
    ghost laws = { eq_by_cmp_equiv arg_cmp_total };
}

impl PartialOrd for Arg {
    ghost partial_cmp = { as_partial_cmp arg_cmp };

    ghost laws = { partial_order_from_total arg_cmp_total };

    fn partial_cmp(&self, other: &Arg) -> Option<Ordering> {
        Some(compare_args(self, other))
    }
}

impl Ord for Arg {
    ghost cmp = { arg_cmp };

    ghost total = { arg_cmp_total };

    ghost matches_partial_cmp = { λ x y. refl };

    ghost matches_eq = { λ x y. refl };

    #[tactic(auto, using(crate::proofs::Ties::arg_cmp_same))]
    fn cmp(&self, other: &Arg) -> Ordering
        ensures same { (result ≡ Ordering.Equal) ↔ (self.now ≡ other.now) }
        ensures cmp { result ≡ arg_cmp self.now other.now }
    {
        compare_args(self, other)
    }
}

impl PartialEq for Fact {
    ghost eq = { eq_by_cmp fact_cmp };

    ghost laws = { partial_equiv_from_equiv (eq_by_cmp_equiv fact_cmp_total) };

    #[tactic(auto, using(crate::proofs::Ties::fact_eq_same))]
    fn eq(&self, other: &Fact) -> bool
        ensures same { IsTrue result ↔ (self.now ≡ other.now) }
        ensures eq { result ≡ eq_by_cmp fact_cmp self.now other.now }
    {
        compare_facts(self, other).is_eq()
    }
}

impl Eq for Fact {
    ghost laws = { eq_by_cmp_equiv fact_cmp_total };
}

impl PartialOrd for Fact {
    ghost partial_cmp = { as_partial_cmp fact_cmp };

    ghost laws = { partial_order_from_total fact_cmp_total };

    fn partial_cmp(&self, other: &Fact) -> Option<Ordering> {
        Some(compare_facts(self, other))
    }
}

impl Ord for Fact {
    ghost cmp = { fact_cmp };

    ghost total = { fact_cmp_total };

    ghost matches_partial_cmp = { λ x y. refl };

    ghost matches_eq = { λ x y. refl };

    #[tactic(auto, using(crate::proofs::Ties::fact_cmp_same))]
    fn cmp(&self, other: &Fact) -> Ordering
        ensures same { (result ≡ Ordering.Equal) ↔ (self.now ≡ other.now) }
        ensures cmp { result ≡ fact_cmp self.now other.now }
    {
        compare_facts(self, other)
    }
}

fn compare_facts(a: &Fact, b: &Fact) -> Ordering
    ensures { result ≡ fact_cmp a.now b.now }
{
    let mine = a.args.list();
    let theirs = b.args.list();
    let first = a.rel.cmp(&b.rel).then(mine.len().cmp(&theirs.len()));
    if first.is_eq() {
        compare_lists(mine, theirs)
    } else {
        first
    }
}
