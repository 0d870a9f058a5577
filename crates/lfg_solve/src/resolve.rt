ghost use Rattle.std.specs.Prelude.{◌≡◌, ◌+◌, ◌-◌, ◌^◌, ◌<◌, ◌≤◌, ℕ, [], ◌∷◌, ◌++◌, IfOk, OnOk, MatchOption, length, take, drop, min};
ghost use Rattle.lfg_model.specs.Places.{path_places, val_places, places, schema_places, val_forms, form_count, schema_forms};
ghost use Rattle.lfg_model.specs.Resolve.{edge_at, string_at, string_taken, node_of, strings_of, walk_of, target_of, equation, resolved, schema_literals};
ghost use Rattle.lfg_model.specs.Terms.{annotation_of, schema_of, define, constrain, exists, member};
ghost use Rattle.lfg_solve.specs.Views.{instance_of};

use lfg_terms::{
    Arrow, Check, Des, Edge, Literal, Node, Path, Paths, Schema, Site, Target, Val, Walk,
};
use std::alloc::{AllocError, Global};

/// An annotation at its place: the edges of its two arrows, and the site that tells its forms
/// apart.
#[derive(Clone, Copy)]
pub(crate) struct Instance<'a> {
    pub up: &'a Edge,
    pub down: &'a Edge,
    pub site: &'a Site,
}

/// The first `count` picks, and the others. A count that stopped at the greatest one is past all
/// picks.
fn cut(picks: &[u32], count: usize) -> (&[u32], &[u32])
    ensures own { (n : ℕ) → count ≡ min n (2 ^ 64 - 1) → result.0.now ≡ take n picks.now }
    ensures others { (n : ℕ) → count ≡ min n (2 ^ 64 - 1) → result.1.now ≡ drop n picks.now }
{
    picks.split_at(count.min(picks.len()))
}

/// The first pick and the others, if there is one.
fn first_pick(picks: &[u32]) -> Option<(u32, &[u32])>
    ensures { MatchOption result (picks.now ≡ []) (λ it. picks.now ≡ it.0 ∷ it.1.now) }
{
    match picks {
        [] => None,
        [first, others @ ..] => Some((*first, others)),
    }
}

/// How many numbered places the path of a defining equation has: one, if it has several strings.
fn path_places(path: &Option<Paths>) -> usize
    ensures within { result ≤ 1 }
    ensures value { result ≡ length (path_places path.now) }
{
    let Some(paths) = path else {
        return 0;
    };
    match paths.list() {
        [] | [_] => 0,
        [_, _, ..] => 1,
    }
}

/// How many numbered places the right side of a defining equation has.
fn val_places(val: &Val<Paths>) -> usize
    ensures within { result ≤ 1 }
    ensures value { result ≡ length (val_places val.now) }
{
    match val {
        Val::Des(des) => path_places(&des.path),
        Val::Atom(_) | Val::Form(_) => 0,
    }
}

/// How many numbered places the schemata have, also inside branches that are not taken; the count
/// stops at the greatest one.
#[cycle(places)]
fn places(schemata: &[Schema<Paths>]) -> usize
    ensures { result ≡ min (length (places (annotation_of schemata.now))) (2 ^ 64 - 1) }
{
    let mut count = 0usize;
    for schema in schemata {
        count = count.saturating_add(schema_places(schema));
    }
    count
}

/// How many numbered places the schema has; the count stops at the greatest one.
#[cycle(places)]
fn schema_places(schema: &Schema<Paths>) -> usize
    ensures { result ≡ min (length (schema_places (schema_of schema.now))) (2 ^ 64 - 1) }
{
    match schema {
        Schema::Define { left, right } => path_places(&left.path) + val_places(right),
        Schema::Member { item, set } => path_places(&item.path) + path_places(&set.path),
        Schema::Either(branches) => {
            let mut count = 1usize;
            for branch in branches {
                count = count.saturating_add(places(branch));
            }
            count
        }
        Schema::Maybe(inside) => places(inside).saturating_add(1),
        Schema::Constrain { .. } | Schema::Exists { .. } | Schema::Mark(_) | Schema::Call { .. } =>
            0,
    }
}

/// How many semantic forms the schemata have, also inside branches that are not taken; the count
/// stops at the greatest one.
#[cycle(forms)]
fn forms(schemata: &[Schema<Paths>]) -> u32
    ensures { result ≡ min (form_count (annotation_of schemata.now)) (2 ^ 32 - 1) }
{
    let mut count = 0u32;
    for schema in schemata {
        count = count.saturating_add(schema_forms(schema));
    }
    count
}

/// How many semantic forms the schema has; the count stops at the greatest one.
#[cycle(forms)]
fn schema_forms(schema: &Schema<Paths>) -> u32
    ensures { result ≡ min (schema_forms (schema_of schema.now)) (2 ^ 32 - 1) }
{
    match schema {
        Schema::Define { right, .. } => val_forms(right),
        Schema::Either(branches) => {
            let mut count = 0u32;
            for branch in branches {
                count = count.saturating_add(forms(branch));
            }
            count
        }
        Schema::Maybe(inside) => forms(inside),
        Schema::Constrain { .. }
        | Schema::Exists { .. }
        | Schema::Member { .. }
        | Schema::Mark(_)
        | Schema::Call { .. } => 0,
    }
}

/// Whether the right side of an equation is a semantic form, as a count.
fn val_forms(val: &Val<Paths>) -> u32
    ensures { result ≡ val_forms val.now }
{
    match val {
        Val::Form(_) => 1,
        Val::Des(_) | Val::Atom(_) => 0,
    }
}

impl Instance<'_> {
    /// The edge of the arrow.
    fn edge(&self, arrow: Arrow) -> &Edge
        ensures { result.now ≡ edge_at (instance_of self.now) arrow }
    {
        match arrow {
            Arrow::Up => self.up,
            Arrow::Down => self.down,
        }
    }

    /// The node to which the designator's string leads: its only one, or that of the first pick.
    fn node(&self, alloc: Global, des: &Des<Paths>, picks: &[u32]) -> Result<Node, AllocError>
        ensures { IfOk result (λ node. node ≡ node_of (instance_of self.now) des.now picks.now) }
    {
        Ok(Node::At {
            edge: self.edge(des.arrow).clone()?,
            path: string_taken(alloc, &des.path, picks)?,
        })
    }

    /// The walk along all strings of the designator.
    fn walk(&self, alloc: Global, des: &Des<Paths>) -> Result<Walk, AllocError>
        ensures { IfOk result (λ walk. walk ≡ walk_of (instance_of self.now) des.now) }
    {
        Ok(Walk {
            start: Node::At {
                edge: self.edge(des.arrow).clone()?,
                path: Path::new(alloc, Vec::new(alloc))?,
            },
            paths: strings(alloc, &des.path)?,
        })
    }

    /// What a constraining equation compares with. A form stands in no loaded grammar there; it is
    /// read as its name.
    fn target(&self, alloc: Global, val: &Val<Paths>) -> Result<Target, AllocError>
        ensures { IfOk result (λ target. target ≡ target_of (instance_of self.now) val.now) }
    {
        match val {
            Val::Des(des) => Ok(Target::Walk(self.walk(alloc, des)?)),
            Val::Atom(atom) => Ok(Target::Atom(atom.clone()?)),
            Val::Form(form) => Ok(Target::Atom(form.name.clone()?)),
        }
    }

    /// The literal of a defining equation whose left side is this node. `index` is the number of
    /// its form among those of the annotation, from 0.
    fn equation(
        &self,
        alloc: Global,
        at: Node,
        val: &Val<Paths>,
        picks: &[u32],
        index: u32,
    ) -> Result<Literal, AllocError>
        ensures { IfOk result
            (λ it. it ≡ equation (instance_of self.now) at val.now picks.now index) }
    {
        match val {
            Val::Des(des) => Ok(Literal::Equal {
                a: at,
                b: self.node(alloc, des, picks)?,
            }),
            Val::Atom(atom) => Ok(Literal::Value {
                at,
                atom: atom.clone()?,
            }),
            Val::Form(form) => Ok(Literal::Form {
                at,
                form: form.clone()?,
                site: self.site.clone()?,
                index,
            }),
        }
    }

    /// Appends the literals of the schemata by their picks. `index` is the number of their first
    /// form.
    #[cycle(resolve)]
    pub fn push_resolved(
        &self,
        alloc: Global,
        literals: &mut Vec<Literal>,
        schemata: &[Schema<Paths>],
        picks: &[u32],
        index: u32,
    ) -> Result<(), AllocError>
        ensures { OnOk result (index + form_count (annotation_of schemata.now) < 2 ^ 32 →
            literals.new.items ≡ literals.old.items
            ++ resolved (instance_of self.now) (annotation_of schemata.now) picks.now index) }
    {
        let mut rest = picks;
        let mut next = index;
        for schema in schemata {
            let (own, others) = cut(rest, schema_places(schema));
            self.push_schema(alloc, literals, schema, own, next)?;
            rest = others;
            next = next.saturating_add(schema_forms(schema));
        }
        Ok(())
    }

    /// Appends the literals of the schema by its picks.
    #[cycle(resolve)]
    fn push_schema(
        &self,
        alloc: Global,
        literals: &mut Vec<Literal>,
        schema: &Schema<Paths>,
        picks: &[u32],
        index: u32,
    ) -> Result<(), AllocError>
        ensures { OnOk result (index + schema_forms (schema_of schema.now) < 2 ^ 32 →
            literals.new.items ≡ literals.old.items
            ++ schema_literals (instance_of self.now) (schema_of schema.now) picks.now index) }
    {
        match schema {
            Schema::Define { left, right } => {
                literals.push(self.definition(alloc, left, right, picks, index)?)?;
                Ok(())
            }
            Schema::Constrain {
                negated,
                left,
                right,
            } => {
                literals.push(self.comparison(alloc, *negated, left, right)?)?;
                Ok(())
            }
            Schema::Exists { negated, left } => {
                literals.push(self.existence(alloc, *negated, left)?)?;
                Ok(())
            }
            Schema::Member { item, set } => {
                literals.push(self.membership(alloc, item, set, picks)?)?;
                Ok(())
            }
            Schema::Mark(name) => {
                literals.push(Literal::Mark(name.clone()?))?;
                Ok(())
            }
            Schema::Either(branches) => {
                let Some((taken, others)) = first_pick(picks) else {
                    return Ok(());
                };
                let mut rest = others;
                let mut next = index;
                let mut before = taken;
                for branch in branches {
                    let (own, behind) = cut(rest, places(branch));
                    if before == 0 {
                        return self.push_resolved(alloc, literals, branch, own, next);
                    }
                    rest = behind;
                    next = next.saturating_add(forms(branch));
                    before -= 1;
                }
                Ok(())
            }
            Schema::Maybe(inside) => {
                let Some((taken, others)) = first_pick(picks) else {
                    return Ok(());
                };
                if taken != 0 {
                    return Ok(());
                }
                self.push_resolved(alloc, literals, inside, others, index)
            }
            Schema::Call { .. } => Ok(()),
        }
    }

    /// The literal of a defining equation by its picks.
    fn definition(
        &self,
        alloc: Global,
        left: &Des<Paths>,
        right: &Val<Paths>,
        picks: &[u32],
        index: u32,
    ) -> Result<Literal, AllocError>
        ensures { IfOk result (λ it. it ∷ []
            ≡ schema_literals (instance_of self.now) (define left.now right.now) picks.now index) }
    {
        let (own, others) = cut(picks, path_places(&left.path));
        let at = self.node(alloc, left, own)?;
        self.equation(alloc, at, right, others, index)
    }

    /// The literal of a constraining equation.
    fn comparison(
        &self,
        alloc: Global,
        negated: bool,
        left: &Des<Paths>,
        right: &Val<Paths>,
    ) -> Result<Literal, AllocError>
        ensures { IfOk result (λ it. it ∷ []
            ≡ schema_literals (instance_of self.now) (constrain negated left.now right.now) [] 0) }
    {
        Ok(Literal::Check(Check::Same {
            negated,
            left: self.walk(alloc, left)?,
            right: self.target(alloc, right)?,
        }))
    }

    /// The literal of an existential constraint.
    fn existence(
        &self,
        alloc: Global,
        negated: bool,
        left: &Des<Paths>,
    ) -> Result<Literal, AllocError>
        ensures { IfOk result (λ it. it ∷ []
            ≡ schema_literals (instance_of self.now) (exists negated left.now) [] 0) }
    {
        Ok(Literal::Check(Check::Exists {
            negated,
            left: self.walk(alloc, left)?,
        }))
    }

    /// The literal of a membership by its picks.
    fn membership(
        &self,
        alloc: Global,
        item: &Des<Paths>,
        set: &Des<Paths>,
        picks: &[u32],
    ) -> Result<Literal, AllocError>
        ensures { IfOk result (λ it. it ∷ []
            ≡ schema_literals (instance_of self.now) (member item.now set.now) picks.now 0) }
    {
        let (own, others) = cut(picks, path_places(&item.path));
        Ok(Literal::Member {
            item: self.node(alloc, item, own)?,
            set: self.node(alloc, set, others)?,
        })
    }
}

/// The string that a path takes: its only one, or that of the first pick.
fn string_taken(alloc: Global, path: &Option<Paths>, picks: &[u32]) -> Result<Path, AllocError>
    ensures { IfOk result (λ string. string ≡ string_taken path.now picks.now) }
{
    let Some(paths) = path else {
        return Path::new(alloc, Vec::new(alloc));
    };
    match picks {
        [] => string_at(alloc, paths.list(), 0),
        [pick, ..] => string_at(alloc, paths.list(), *pick as usize),
    }
}

/// The string with this number, from 0, or the empty one.
fn string_at(alloc: Global, paths: &[Path], number: usize) -> Result<Path, AllocError>
    ensures { IfOk result (λ string. string ≡ string_at paths.now number) }
{
    match paths.get(number) {
        Some(string) => string.clone(),
        None => Path::new(alloc, Vec::new(alloc)),
    }
}

/// All strings of a path. The bare arrow has the empty one.
fn strings(alloc: Global, path: &Option<Paths>) -> Result<Paths, AllocError>
    ensures { IfOk result (λ strings. strings ≡ strings_of path.now) }
{
    match path {
        Some(paths) => paths.clone(),
        None => {
            let bare = Path::new(alloc, Vec::new(alloc))?;
            Paths::new(alloc, vec![in alloc; bare]?)
        }
    }
}
