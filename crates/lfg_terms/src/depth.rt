ghost use Rattle.std.specs.Prelude.{◌≡◌, ◌↔◌, ◌<◌, ◌≤◌, IsTrue, map};
ghost use Rattle.lfg_terms.specs.Order.{greatest, node_depth, arg_depth};

use crate::node::{Arg, Node};

/// Whether new nodes are nested deeper in `a` than in `b`.
#[cycle(depth)]
pub fn is_deeper(a: &Node, b: &Node) -> bool
    ensures { IsTrue result ↔ (node_depth b.now < node_depth a.now) }
{
    match a {
        Node::At { .. } => false,
        Node::New { binding, .. } => match b {
            Node::At { .. } => true,
            Node::New { binding: other, .. } => some_deeper(binding.list(), other.list()),
        },
    }
}

/// Whether some argument of `xs` is deeper than all of `ys`.
#[cycle(depth)]
fn some_deeper(xs: &[Arg], ys: &[Arg]) -> bool
    ensures { IsTrue result ↔ (greatest (map arg_depth ys.now) < greatest (map arg_depth xs.now)) }
{
    for x in xs {
        if is_deeper_than_all(x, ys) {
            return true;
        }
    }
    false
}

/// Whether the argument is deeper than all of `ys`.
#[cycle(depth)]
fn is_deeper_than_all(x: &Arg, ys: &[Arg]) -> bool
    ensures { IsTrue result ↔ (greatest (map arg_depth ys.now) < arg_depth x.now) }
{
    match x {
        Arg::Atom(_) => false,
        Arg::Node(node) => match node {
            Node::At { .. } => false,
            Node::New { .. } => {
                for y in ys {
                    match y {
                        Arg::Atom(_) => {}
                        Arg::Node(other) => {
                            if !is_deeper(node, other) {
                                return false;
                            }
                        }
                    }
                }
                true
            }
        },
    }
}
