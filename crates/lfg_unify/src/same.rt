ghost use Rattle.std.specs.Prelude.{◌≡◌, ◌↔◌, IsTrue};

use lfg_model::Constant;
use lfg_terms::{Edge, Form, Name, Site};

/// Whether the two constants are one.
pub(crate) fn same_constant(a: &Constant, b: &Constant) -> bool
    ensures { IsTrue result ↔ (a.now ≡ b.now) }
{
    match a {
        Constant::Atom(name) => match b {
            Constant::Atom(other) => name == other,
            Constant::Form { .. } => false,
        },
        Constant::Form { form, site, index } => match b {
            Constant::Form {
                form: other,
                site: place,
                index: number,
            } => index == number && same_form(form, other) && same_site(site, place),
            Constant::Atom(_) => false,
        },
    }
}

/// Whether the two forms are one.
fn same_form(a: &Form, b: &Form) -> bool
    ensures { IsTrue result ↔ (a.now ≡ b.now) }
{
    a.name == b.name
        && same_names(a.inner.list(), b.inner.list())
        && same_names(a.outer.list(), b.outer.list())
}

/// Whether the two lists of names are one.
#[tactic(auto, using(crate::proofs::Sames::sames))]
fn same_names(a: &[Name], b: &[Name]) -> bool
    ensures { IsTrue result ↔ (a.now ≡ b.now) }
{
    a == b
}

/// Whether the two sites are one.
fn same_site(a: &Site, b: &Site) -> bool
    ensures { IsTrue result ↔ (a.now ≡ b.now) }
{
    match a {
        Site::Item { edge, occ, at, to } => match b {
            Site::Item {
                edge: other,
                occ: number,
                at: start,
                to: end,
            } => occ == number && at == start && to == end && same_edge(edge, other),
            Site::Entry { .. } => false,
        },
        Site::Entry { edge, entry } => match b {
            Site::Entry {
                edge: other,
                entry: place,
            } => entry == place && same_edge(edge, other),
            Site::Item { .. } => false,
        },
    }
}

/// Whether the two edges are one.
#[tactic(auto, using(crate::proofs::Sames::sames))]
fn same_edge(a: &Edge, b: &Edge) -> bool
    ensures { IsTrue result ↔ (a.now ≡ b.now) }
{
    a == b
}

/// Whether the two names are one.
pub(crate) fn same_name(a: &Name, b: &Name) -> bool
    ensures { IsTrue result ↔ (a.now ≡ b.now) }
{
    a.text() == b.text()
}
