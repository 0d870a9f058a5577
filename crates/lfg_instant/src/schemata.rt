ghost use Rattle.std.specs.Prelude.{◌≡◌, slice_get};
ghost use Rattle.lfg_instant.specs.Sites.{site_of_key};
ghost use Rattle.lfg_model.specs.Derive.{item_at};
ghost use Rattle.lfg_model.specs.Terms.{annotation_of};
ghost use Rattle.lfg_model.specs.Trees.{item_annotation, entry_annotation};
ghost use Rattle.lfg_packed.specs.Choices.{annotation_at};

use crate::facts::{item_at, items_of};
use lfg_packed::ChoiceKey;
use lfg_terms::{Grammar, Item, Paths, Schema};

/// The schemata of the item with this number, counted from 1, or none.
fn item_schemata(items: &[Item], occ: u32) -> &[Schema<Paths>]
    ensures { annotation_of result.now ≡ item_annotation (item_at items.now occ) }
{
    match item_at(items, occ) {
        Some(item) => item.schemata.list(),
        None => &[],
    }
}

/// The schemata of the lexicon entry at this place, counted from 0, or none.
fn entry_schemata(grammar: &Grammar, entry: u32) -> &[Schema<Paths>]
    ensures { annotation_of result.now ≡ entry_annotation (slice_get grammar.now.lexicon entry) }
{
    match grammar.lexicon.list().get(entry as usize) {
        Some(lex) => lex.schemata.list(),
        None => &[],
    }
}

/// The schemata of the item or entry with this key, or none.
pub(crate) fn schemata_at<'a>(grammar: &'a Grammar, key: &ChoiceKey) -> &'a [Schema<Paths>]
    ensures { annotation_of result.now ≡ annotation_at grammar.now (site_of_key key.now) }
{
    if key.rank == 2 {
        item_schemata(items_of(grammar, &key.edge.cat), key.item)
    } else {
        entry_schemata(grammar, key.item)
    }
}
