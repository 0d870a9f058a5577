ghost use Rattle.std.specs.Prelude.{◌≡◌, ◌↔◌, IsTrue};
ghost use Rattle.lfg_model.specs.Loads.{IsUnlinked};
ghost use Rattle.lfg_model.specs.Terms.{annotation_of, schema_of};
ghost use Rattle.lfg_grammar.specs.Found.{FoundFirst};
ghost use Rattle.lfg_grammar.specs.Unlinked.{is_mother, is_daughter, joins_both, links_equation, links_member, can_be_unlinked, schema_can_be_unlinked, item_is_unlinked};

use lfg_terms::{Arrow, Des, Grammar, Item, Paths, Rule, Schema, Val};

/// Whether the designator is `^`, or a path from there.
fn is_mother(des: &Des<Paths>) -> bool
    ensures { result ≡ is_mother des.now }
{
    match des.arrow {
        Arrow::Up => true,
        Arrow::Down => false,
    }
}

/// Whether the designator is the bare `!`.
fn is_daughter(des: &Des<Paths>) -> bool
    ensures { result ≡ is_daughter des.now }
{
    !is_mother(des) && des.path.is_none()
}

/// Whether one of the designators is the mother, and the other the daughter.
fn joins_both(left: &Des<Paths>, right: &Des<Paths>) -> bool
    ensures { result ≡ joins_both left.now right.now }
{
    (is_mother(left) && is_daughter(right)) || (is_daughter(left) && is_mother(right))
}

/// Whether the defining equation is a link of a daughter to its mother.
fn links_equation(left: &Des<Paths>, right: &Val<Paths>) -> bool
    ensures { result ≡ links_equation left.now right.now }
{
    match right {
        Val::Des(right) => joins_both(left, right),
        Val::Atom(_) | Val::Form(_) => false,
    }
}

/// Whether the membership is a link of a daughter to its mother.
fn links_member(item: &Des<Paths>, set: &Des<Paths>) -> bool
    ensures { result ≡ links_member item.now set.now }
{
    is_daughter(item) && is_mother(set)
}

/// Whether the annotation can be resolved to no link.
#[cycle(unlinked)]
fn can_be_unlinked(schemata: &[Schema<Paths>]) -> bool
    ensures { result ≡ can_be_unlinked (annotation_of schemata.now) }
{
    for schema in schemata {
        if !schema_can_be_unlinked(schema) {
            return false;
        }
    }
    true
}

/// Whether the schema can be resolved to no link.
#[cycle(unlinked)]
fn schema_can_be_unlinked(schema: &Schema<Paths>) -> bool
    ensures { result ≡ schema_can_be_unlinked (schema_of schema.now) }
{
    match schema {
        Schema::Define { left, right } => !links_equation(left, right),
        Schema::Member { item, set } => !links_member(item, set),
        Schema::Either(branches) => {
            for branch in branches {
                if can_be_unlinked(branch) {
                    return true;
                }
            }
            false
        }
        Schema::Constrain { .. } => true,
        Schema::Exists { .. } => true,
        Schema::Mark(_) => true,
        Schema::Maybe(_) => true,
        Schema::Call { .. } => false,
    }
}

/// Whether the item has a category and may be without a link to its mother.
fn item_is_unlinked(item: &Item) -> bool
    ensures { result ≡ item_is_unlinked item.now }
{
    item.cat.is_some() && can_be_unlinked(item.schemata.list())
}

/// Whether the rule has a category item that may be without a link to its mother.
fn is_unlinked(rule: &Rule) -> bool
    ensures { IsTrue result ↔ IsUnlinked rule.now }
{
    for item in rule.items.list() {
        if item_is_unlinked(item) {
            return true;
        }
    }
    false
}

/// The place, from 0, of the first rule with a category item that may be without a link to its
/// mother, if there is one. Takes no memory.
pub(crate) fn first_unlinked(grammar: &Grammar) -> Option<usize>
    ensures { FoundFirst IsUnlinked grammar.now.rules result }
{
    let rules = grammar.rules.list();
    for i in 0..rules.len() {
        if is_unlinked(&rules[i]) {
            return Some(i);
        }
    }
    None
}
