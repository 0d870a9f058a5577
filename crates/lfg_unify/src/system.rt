use lfg_context::Ctx;
use lfg_terms::Name;

/// An arc between places, by an attribute, with its context.
pub(crate) type Arc = ((usize, Name, usize), Ctx);

/// What literals in contexts state of places: which are there, which are equal, and arcs between them.
#[derive(Drop)]
pub(crate) struct System {
    pub there: Vec<(usize, Ctx)>,
    pub given: Vec<((usize, usize), Ctx)>,
    pub arcs: Vec<Arc>,
}
