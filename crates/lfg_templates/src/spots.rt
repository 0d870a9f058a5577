ghost use Rattle.std.specs.Prelude.{◌≡◌};
ghost use Rattle.std.specs.Option.{option_map};
ghost use Rattle.lfg_templates.specs.Spots.{earlier_of};
ghost use Rattle.lfg_templates.specs.Views.{spot_of};

use lfg_terms::Name;

/// What a fault tells: an entry, by its number, and a name in it.
#[derive(Clone, Copy)]
pub(crate) struct Spot<'a> {
    pub entry: u32,
    pub name: &'a Name,
}

/// The spot of the lesser entry, and the first of two that have one entry.
pub(crate) fn earlier<'a>(first: Option<Spot<'a>>, second: Option<Spot<'a>>) -> Option<Spot<'a>>
    ensures { option_map spot_of result ≡ earlier_of (option_map spot_of first.entry) (option_map spot_of second.entry) }
{
    let Some(one) = first else {
        return second;
    };
    let Some(other) = second else {
        return first;
    };
    if other.entry < one.entry {
        return second;
    }
    first
}
