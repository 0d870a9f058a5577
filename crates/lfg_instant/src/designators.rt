ghost use Rattle.std.specs.Prelude.{◌≡◌, ◌∷◌, [], IfOk, OnOk, length};
ghost use Rattle.lfg_model.specs.Places.{path_places};
ghost use Rattle.lfg_model.specs.Resolve.{edge_at, string_at, string_taken, node_of, strings_of, walk_of, target_of};
ghost use Rattle.lfg_context.specs.Sets.{AreMade, IsMade, IsGrown, HasSamePicks};
ghost use Rattle.lfg_instant.specs.Annotations.{instance_of, arities, ArePicksMade, Appends};
ghost use Rattle.lfg_packed.specs.Sizes.{string_count};

use crate::annotation::Instance;
use crate::places::first_place;
use lfg_context::{Contexts, Ctx};
use lfg_terms::{Arrow, Des, Edge, List, Node, Path, Paths, Target, Val, Walk};
use std::alloc::{AllocError, Global};

impl Instance<'_> {
    /// The edge of the arrow.
    fn edge(&self, arrow: Arrow) -> &Edge
        ensures { result.now ≡ edge_at (instance_of self.now) arrow }
    {
        match arrow {
            Arrow::Up => self.up,
            Arrow::Down => self.down,
        }
    }

    /// The node to which the designator's string with this number leads, from 0.
    fn node(&self, alloc: Global, des: &Des<Paths>, number: usize) -> Result<Node, AllocError>
        ensures { IfOk result
            (λ node. node ≡ node_of (instance_of self.now) des.now (number ∷ [])) }
    {
        Ok(Node::At {
            edge: self.edge(des.arrow).clone()?,
            path: string_taken(alloc, &des.path, number)?,
        })
    }

    /// The nodes to which the designator's strings lead, each in the meet of the set and of its
    /// pick; the only one in the set itself.
    ///
    /// # Errors
    ///
    /// Only for want of memory.
    #[tactic(auto, using(crate::proofs::MadeLaws::making))]
    pub(crate) fn nodes(
        &self,
        alloc: Global,
        des: &Des<Paths>,
        ctx: &Ctx,
        picks: &[List<Ctx>],
        contexts: &mut Contexts,
    ) -> Result<Vec<(Node, Ctx)>, AllocError>
        requires places { arities picks.now ≡ path_places des.now.path }
        requires ctx_made { IsMade contexts.old ctx.now }
        requires picks_made { ArePicksMade contexts.old picks.now }
        ensures each { IfOk result (λ it. Appends (path_places des.now.path)
            (λ ps. node_of (instance_of self.now) des.now ps ∷ []) picks.now ctx.now [] it.items) }
        ensures count { IfOk result (λ it. length it.items ≡ string_count des.now.path) }
        ensures made { IfOk result (λ it. AreMade contexts.new (λ x. x.1) it.items) }
        ensures grown { IsGrown contexts.old contexts.new }
        ensures same_picks { HasSamePicks contexts.old contexts.new }
    {
        let mut found = Vec::new(alloc);
        let Some((alternatives, _)) = first_place(picks) else {
            found.push((self.node(alloc, des, 0)?, ctx.share()?))?;
            return Ok(found);
        };
        for (number, alternative) in alternatives.iter().enumerate() {
            let met = contexts.and(ctx, alternative)?;
            found.push((self.node(alloc, des, number)?, met))?;
        }
        Ok(found)
    }

    /// The walk along all strings of the designator.
    pub(crate) fn walk(&self, alloc: Global, des: &Des<Paths>) -> Result<Walk, AllocError>
        ensures { IfOk result (λ walk. walk ≡ walk_of (instance_of self.now) des.now) }
    {
        Ok(Walk {
            start: Node::At {
                edge: self.edge(des.arrow).clone()?,
                path: Path::new(alloc, Vec::new(alloc))?,
            },
            paths: strings(alloc, &des.path)?,
        })
    }

    /// What a constraining equation compares with. A form stands in no loaded grammar there; it is
    /// read as its name.
    pub(crate) fn target(&self, alloc: Global, val: &Val<Paths>) -> Result<Target, AllocError>
        ensures { IfOk result (λ target. target ≡ target_of (instance_of self.now) val.now) }
    {
        match val {
            Val::Des(des) => Ok(Target::Walk(self.walk(alloc, des)?)),
            Val::Atom(atom) => Ok(Target::Atom(atom.clone()?)),
            Val::Form(form) => Ok(Target::Atom(form.name.clone()?)),
        }
    }
}

/// The string of a path with this number, from 0, or the empty one.
fn string_taken(alloc: Global, path: &Option<Paths>, number: usize) -> Result<Path, AllocError>
    ensures { IfOk result (λ string. string ≡ string_taken path.now (number ∷ [])) }
{
    let Some(paths) = path else {
        return Path::new(alloc, Vec::new(alloc));
    };
    string_at(alloc, paths.list(), number)
}

/// The string with this number, from 0, or the empty one.
fn string_at(alloc: Global, paths: &[Path], number: usize) -> Result<Path, AllocError>
    ensures { IfOk result (λ string. string ≡ string_at paths.now number) }
{
    match paths.get(number) {
        Some(string) => string.clone(),
        None => Path::new(alloc, Vec::new(alloc)),
    }
}

/// All strings of a path. The bare arrow has the empty one.
fn strings(alloc: Global, path: &Option<Paths>) -> Result<Paths, AllocError>
    ensures { IfOk result (λ strings. strings ≡ strings_of path.now) }
{
    match path {
        Some(paths) => paths.clone(),
        None => {
            let bare = Path::new(alloc, Vec::new(alloc))?;
            Paths::new(alloc, vec![in alloc; bare]?)
        }
    }
}
