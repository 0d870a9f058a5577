ghost use Rattle.std.specs.Prelude.{◌≡◌, ◌-◌, ◌^◌, min, max};
ghost use Rattle.std.specs.List.{sum_by};
ghost use Rattle.lfg_instant.specs.Sites.{site_of_key};
ghost use Rattle.lfg_packed.specs.Choices.{annotation_at};
ghost use Rattle.lfg_packed.specs.Sizes.{literal_size};

use crate::schemata::schemata_at;
use crate::sizes::literal_count;
use lfg_packed::ChoiceKey;
use lfg_terms::Grammar;

/// How many literals the items and entries with these keys give over all their picks. The count stops
/// at the greatest number.
pub(crate) fn literal_total(grammar: &Grammar, keys: &[ChoiceKey]) -> u64
    ensures { result ≡ min (sum_by (λ k. literal_size (annotation_at grammar.now (site_of_key k))) keys.now) (2 ^ 64 - 1) }
{
    let mut total = 0u64;
    for key in keys {
        total = total.saturating_add(literal_count(schemata_at(grammar, key)));
    }
    total
}

/// How large a sentence is: the greatest of the numbers of its literals, choices and tree facts.
pub(crate) fn instance_total(literals: u64, choices: usize, facts: usize) -> u64
    ensures { result ≡ max literals (max choices facts) }
{
    literals.max(choices.max(facts) as u64)
}
