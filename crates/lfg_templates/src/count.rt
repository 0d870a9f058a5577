ghost use Rattle.std.specs.Prelude.{◌≡◌, ◌+◌, ◌≤◌, min, map};
ghost use Rattle.std.specs.Option.{option_map};
ghost use Rattle.lfg_model.specs.RightSides.{draft_schema_of, draft_annotation_of, right_side_of, right_sides_of};
ghost use Rattle.lfg_model.specs.DraftForms.{template_form};
ghost use Rattle.lfg_templates.specs.Counts.{one_count, all_count, option_count, call_count, side_count, sides_count, capped};

use crate::templates::Templates;
use lfg_terms::{PathExpr, Rhs, Schema};

/// The greatest number of schemata of the rules and the lexicon of a draft, once its templates are
/// expanded.
pub(crate) const SCHEMA_LIMIT: u32 = 400_000;

/// The sum, or one more than the limit if it is past the limit.
pub(crate) fn capped_sum(a: u32, b: u32) -> u32
    requires left { a ≤ 400001 }
    requires right { b ≤ 400001 }
    ensures { result ≡ min (a + b) 400001 }
{
    (a + b).min(SCHEMA_LIMIT + 1)
}

/// How many schemata these become once each call is replaced, or one more than the limit. The calls
/// are followed at most `depth` deep, and no further than to the limit.
#[cycle(count)]
pub(crate) fn count_all(
    templates: &Templates<'_>,
    depth: usize,
    schemata: &[Schema<PathExpr>],
) -> u32
    ensures { result ≡ capped (all_count (call_count (map template_form templates.now) depth) (draft_annotation_of schemata.now)) }
{
    let mut sum = 0;
    for schema in schemata {
        if sum > SCHEMA_LIMIT {
            return sum;
        }
        sum = capped_sum(sum, count_one(templates, depth, schema));
    }
    sum
}

/// How many schemata this one becomes, or one more than the limit.
#[cycle(count)]
fn count_one(templates: &Templates<'_>, depth: usize, schema: &Schema<PathExpr>) -> u32
    ensures { result ≡ capped (one_count (call_count (map template_form templates.now) depth) (draft_schema_of schema.now)) }
{
    match schema {
        Schema::Define { .. } => 1,
        Schema::Constrain { .. } => 1,
        Schema::Exists { .. } => 1,
        Schema::Member { .. } => 1,
        Schema::Mark(_) => 1,
        Schema::Maybe(inside) => capped_sum(1, count_all(templates, depth, inside)),
        Schema::Either(branches) => {
            let mut sum = 1;
            for branch in branches {
                if sum > SCHEMA_LIMIT {
                    return sum;
                }
                sum = capped_sum(sum, count_all(templates, depth, branch));
            }
            sum
        }
        Schema::Call { name, .. } => {
            let Some(template) = templates.named(name) else {
                return 0;
            };
            if depth == 0 {
                return 0;
            }
            count_all(templates, depth - 1, template.body.list())
        }
    }
}

/// How many schemata the annotation of an item becomes, or one more than the limit.
fn count_option(
    templates: &Templates<'_>,
    depth: usize,
    schemata: &Option<Vec<Schema<PathExpr>>>,
) -> u32
    ensures { result ≡ capped (option_count (call_count (map template_form templates.now) depth) (option_map (λ v. draft_annotation_of v.items) schemata.now)) }
{
    let Some(schemata) = schemata else {
        return 0;
    };
    count_all(templates, depth, schemata)
}

/// How many schemata the right side has then, or one more than the limit.
#[cycle(side)]
pub(crate) fn count_side(templates: &Templates<'_>, depth: usize, side: &Rhs) -> u32
    ensures { result ≡ capped (side_count (call_count (map template_form templates.now) depth) (right_side_of side.now)) }
{
    match side {
        Rhs::Item { schemata, .. } => count_option(templates, depth, schemata),
        Rhs::Row(parts) => count_sides(templates, depth, parts),
        Rhs::OneOf(branches) => count_sides(templates, depth, branches),
        Rhs::Maybe(inside) => count_side(templates, depth, inside),
        Rhs::Star(inside) => count_side(templates, depth, inside),
        Rhs::Plus(inside) => count_side(templates, depth, inside),
    }
}

/// How many schemata the right sides have then, or one more than the limit.
#[cycle(side)]
fn count_sides(templates: &Templates<'_>, depth: usize, sides: &[Rhs]) -> u32
    ensures { result ≡ capped (sides_count (call_count (map template_form templates.now) depth) (right_sides_of sides.now)) }
{
    let mut sum = 0;
    for side in sides {
        sum = capped_sum(sum, count_side(templates, depth, side));
    }
    sum
}
