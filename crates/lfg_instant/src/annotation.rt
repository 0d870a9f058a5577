ghost use Rattle.std.specs.Prelude.{◌≡◌, ◌+◌, ◌^◌, ◌<◌, ◌∷◌, ◌++◌, [], IfOk, OnOk, OnErr, length};
ghost use Rattle.lfg_terms.specs.declared.literal.Literal.TheVariants as literal;
ghost use Rattle.lfg_model.specs.Places.{path_places, val_places, places, schema_places, branch_places, form_count, schema_forms};
ghost use Rattle.lfg_model.specs.Resolve.{node_of, equation, resolved, schema_literals};
ghost use Rattle.lfg_model.specs.Terms.{annotation_of, schema_of, define, constrain, exists, member};
ghost use Rattle.lfg_context.specs.Sets.{AreMade, IsMade, IsGrown, HasSamePicks};
ghost use Rattle.lfg_instant.specs.Annotations.{instance_of, arities, ArePicksMade, Appends};
ghost use Rattle.lfg_packed.specs.Sizes.{string_count, val_strings, literal_size, schema_size};

use crate::places::{cut, first_place, forms, path_places, places, schema_forms, schema_places};
use lfg_context::{Contexts, Ctx};
use lfg_terms::{Check, Des, Edge, Form, List, Literal, Node, Paths, Schema, Site, Val};
use std::alloc::{AllocError, Global};

/// An annotation at its place: the edges of its two arrows, and the site that tells its forms
/// apart.
#[derive(Clone, Copy)]
pub(crate) struct Instance<'a> {
    pub up: &'a Edge,
    pub down: &'a Edge,
    pub site: &'a Site,
}

impl Instance<'_> {
    /// Appends the literals of the schemata under all their picks, in written order, each in the
    /// meet of the set and of the picks of the branches, options and strings that it stands in.
    ///
    /// `picks` has, for each numbered place of the schemata, the sets of its alternatives. `index`
    /// is the number of the first form.
    ///
    /// # Errors
    ///
    /// Only for want of memory.
    #[cycle(instances)]
    #[tactic(auto, using(crate::proofs::MadeLaws::making))]
    pub fn push_instances(
        &self,
        alloc: Global,
        literals: &mut Vec<(Literal, Ctx)>,
        schemata: &[Schema<Paths>],
        ctx: &Ctx,
        picks: &[List<Ctx>],
        index: u32,
        contexts: &mut Contexts,
    ) -> Result<(), AllocError>
        requires places { arities picks.now ≡ places (annotation_of schemata.now) }
        requires literals_made { AreMade contexts.old (λ x. x.1) literals.old.items }
        requires ctx_made { IsMade contexts.old ctx.now }
        requires picks_made { ArePicksMade contexts.old picks.now }
        ensures each { OnOk result (index + form_count (annotation_of schemata.now) < 2 ^ 32
            → Appends (places (annotation_of schemata.now))
            (λ ps. resolved (instance_of self.now) (annotation_of schemata.now) ps index)
            picks.now ctx.now literals.old.items literals.new.items) }
        ensures count { OnOk result (length literals.new.items
            ≡ length literals.old.items + literal_size (annotation_of schemata.now)) }
        ensures made { AreMade contexts.new (λ x. x.1) literals.new.items }
        ensures grown { IsGrown contexts.old contexts.new }
        ensures same_picks { HasSamePicks contexts.old contexts.new }
    {
        let mut rest = picks;
        let mut next = index;
        for schema in schemata {
            let (own, others) = cut(rest, schema_places(schema));
            self.push_schema(alloc, literals, schema, ctx, own, next, contexts)?;
            rest = others;
            next = next.saturating_add(schema_forms(schema));
        }
        Ok(())
    }

    /// Appends the literals of the schema under all its picks.
    #[cycle(instances)]
    #[tactic(auto, using(crate::proofs::MadeLaws::making))]
    fn push_schema(
        &self,
        alloc: Global,
        literals: &mut Vec<(Literal, Ctx)>,
        schema: &Schema<Paths>,
        ctx: &Ctx,
        picks: &[List<Ctx>],
        index: u32,
        contexts: &mut Contexts,
    ) -> Result<(), AllocError>
        requires places { arities picks.now ≡ schema_places (schema_of schema.now) }
        requires literals_made { AreMade contexts.old (λ x. x.1) literals.old.items }
        requires ctx_made { IsMade contexts.old ctx.now }
        requires picks_made { ArePicksMade contexts.old picks.now }
        ensures each { OnOk result (index + schema_forms (schema_of schema.now) < 2 ^ 32
            → Appends (schema_places (schema_of schema.now))
            (λ ps. schema_literals (instance_of self.now) (schema_of schema.now) ps index)
            picks.now ctx.now literals.old.items literals.new.items) }
        ensures count { OnOk result (length literals.new.items
            ≡ length literals.old.items + schema_size (schema_of schema.now)) }
        ensures made { AreMade contexts.new (λ x. x.1) literals.new.items }
        ensures grown { IsGrown contexts.old contexts.new }
        ensures same_picks { HasSamePicks contexts.old contexts.new }
    {
        match schema {
            Schema::Define { left, right } => self.push_definition(
                alloc, literals, left, right, ctx, picks, index, contexts,
            ),
            Schema::Constrain {
                negated,
                left,
                right,
            } => push_literal(
                literals,
                self.comparison(alloc, *negated, left, right)?,
                ctx,
            ),
            Schema::Exists { negated, left } => push_literal(
                literals,
                self.existence(alloc, *negated, left)?,
                ctx,
            ),
            Schema::Member { item, set } => self.push_membership(
                alloc, literals, item, set, ctx, picks, contexts,
            ),
            Schema::Mark(name) => push_literal(literals, Literal::Mark(name.clone()?), ctx),
            Schema::Either(branches) => {
                let Some((alternatives, others)) = first_place(picks) else {
                    return Ok(());
                };
                let mut rest = others;
                let mut next = index;
                for (number, branch) in branches.iter().enumerate() {
                    let (own, behind) = cut(rest, places(branch));
                    let met = contexts.and(ctx, &alternatives[number])?;
                    self.push_instances(alloc, literals, branch, &met, own, next, contexts)?;
                    rest = behind;
                    next = next.saturating_add(forms(branch));
                }
                Ok(())
            }
            Schema::Maybe(inside) => {
                let Some((alternatives, others)) = first_place(picks) else {
                    return Ok(());
                };
                let met = contexts.and(ctx, &alternatives[0])?;
                self.push_instances(alloc, literals, inside, &met, others, index, contexts)
            }
            Schema::Call { .. } => Ok(()),
        }
    }

    /// Appends the literals of a defining equation under all its picks.
    #[tactic(auto, using(crate::proofs::MadeLaws::making))]
    fn push_definition(
        &self,
        alloc: Global,
        literals: &mut Vec<(Literal, Ctx)>,
        left: &Des<Paths>,
        right: &Val<Paths>,
        ctx: &Ctx,
        picks: &[List<Ctx>],
        index: u32,
        contexts: &mut Contexts,
    ) -> Result<(), AllocError>
        requires places { arities picks.now ≡ schema_places (define left.now right.now) }
        requires literals_made { AreMade contexts.old (λ x. x.1) literals.old.items }
        requires ctx_made { IsMade contexts.old ctx.now }
        requires picks_made { ArePicksMade contexts.old picks.now }
        ensures each { OnOk result (Appends (schema_places (define left.now right.now))
            (λ ps. schema_literals (instance_of self.now) (define left.now right.now) ps index)
            picks.now ctx.now literals.old.items literals.new.items) }
        ensures count { OnOk result (length literals.new.items
            ≡ length literals.old.items + schema_size (define left.now right.now)) }
        ensures made { AreMade contexts.new (λ x. x.1) literals.new.items }
        ensures grown { IsGrown contexts.old contexts.new }
        ensures same_picks { HasSamePicks contexts.old contexts.new }
    {
        let (own, others) = cut(picks, path_places(&left.path));
        let found = self.nodes(alloc, left, ctx, own, contexts)?;
        for at in &found {
            self.push_equations(
                alloc, literals, &at.0, right, &at.1, others, index, contexts,
            )?;
        }
        Ok(())
    }

    /// Appends the literals of a defining equation whose left side is this node. `index` is the
    /// number of its form among those of the annotation, from 0.
    #[tactic(auto, using(crate::proofs::MadeLaws::making))]
    fn push_equations(
        &self,
        alloc: Global,
        literals: &mut Vec<(Literal, Ctx)>,
        at: &Node,
        right: &Val<Paths>,
        ctx: &Ctx,
        picks: &[List<Ctx>],
        index: u32,
        contexts: &mut Contexts,
    ) -> Result<(), AllocError>
        requires places { arities picks.now ≡ val_places right.now }
        requires literals_made { AreMade contexts.old (λ x. x.1) literals.old.items }
        requires ctx_made { IsMade contexts.old ctx.now }
        requires picks_made { ArePicksMade contexts.old picks.now }
        ensures each { OnOk result (Appends (val_places right.now)
            (λ ps. equation (instance_of self.now) at.now right.now ps index ∷ [])
            picks.now ctx.now literals.old.items literals.new.items) }
        ensures count { OnOk result (length literals.new.items
            ≡ length literals.old.items + val_strings right.now) }
        ensures made { AreMade contexts.new (λ x. x.1) literals.new.items }
        ensures grown { IsGrown contexts.old contexts.new }
        ensures same_picks { HasSamePicks contexts.old contexts.new }
    {
        match right {
            Val::Des(des) => self.push_identities(alloc, literals, at, des, ctx, picks, contexts),
            Val::Atom(atom) => {
                let literal = Literal::Value {
                    at: at.clone()?,
                    atom: atom.clone()?,
                };
                push_literal(literals, literal, ctx)
            }
            Val::Form(form) => {
                let literal = self.form_value(at, form, index)?;
                push_literal(literals, literal, ctx)
            }
        }
    }

    /// That the node has this form as its value.
    fn form_value(&self, at: &Node, form: &Form, index: u32) -> Result<Literal, AllocError>
        ensures { IfOk result
            (λ it. it ≡ literal.Form at.now form.now (instance_of self.now).site index) }
    {
        Ok(Literal::Form {
            at: at.clone()?,
            form: form.clone()?,
            site: self.site.clone()?,
            index,
        })
    }

    /// Appends that the node is one with each to which the designator may lead.
    #[tactic(auto, using(crate::proofs::MadeLaws::making))]
    fn push_identities(
        &self,
        alloc: Global,
        literals: &mut Vec<(Literal, Ctx)>,
        at: &Node,
        des: &Des<Paths>,
        ctx: &Ctx,
        picks: &[List<Ctx>],
        contexts: &mut Contexts,
    ) -> Result<(), AllocError>
        requires places { arities picks.now ≡ path_places des.now.path }
        requires literals_made { AreMade contexts.old (λ x. x.1) literals.old.items }
        requires ctx_made { IsMade contexts.old ctx.now }
        requires picks_made { ArePicksMade contexts.old picks.now }
        ensures each { OnOk result (Appends (path_places des.now.path)
            (λ ps. literal.Equal at.now (node_of (instance_of self.now) des.now ps) ∷ [])
            picks.now ctx.now literals.old.items literals.new.items) }
        ensures count { OnOk result (length literals.new.items
            ≡ length literals.old.items + string_count des.now.path) }
        ensures made { AreMade contexts.new (λ x. x.1) literals.new.items }
        ensures grown { IsGrown contexts.old contexts.new }
        ensures same_picks { HasSamePicks contexts.old contexts.new }
    {
        let found = self.nodes(alloc, des, ctx, picks, contexts)?;
        for node in &found {
            let literal = Literal::Equal {
                a: at.clone()?,
                b: node.0.clone()?,
            };
            push_literal(literals, literal, &node.1)?;
        }
        Ok(())
    }

    /// Appends the literals of a membership under all its picks.
    #[tactic(auto, using(crate::proofs::MadeLaws::making))]
    fn push_membership(
        &self,
        alloc: Global,
        literals: &mut Vec<(Literal, Ctx)>,
        item: &Des<Paths>,
        set: &Des<Paths>,
        ctx: &Ctx,
        picks: &[List<Ctx>],
        contexts: &mut Contexts,
    ) -> Result<(), AllocError>
        requires places { arities picks.now ≡ schema_places (member item.now set.now) }
        requires literals_made { AreMade contexts.old (λ x. x.1) literals.old.items }
        requires ctx_made { IsMade contexts.old ctx.now }
        requires picks_made { ArePicksMade contexts.old picks.now }
        ensures each { OnOk result (Appends (schema_places (member item.now set.now))
            (λ ps. schema_literals (instance_of self.now) (member item.now set.now) ps 0)
            picks.now ctx.now literals.old.items literals.new.items) }
        ensures count { OnOk result (length literals.new.items
            ≡ length literals.old.items + schema_size (member item.now set.now)) }
        ensures made { AreMade contexts.new (λ x. x.1) literals.new.items }
        ensures grown { IsGrown contexts.old contexts.new }
        ensures same_picks { HasSamePicks contexts.old contexts.new }
    {
        let (own, others) = cut(picks, path_places(&item.path));
        let found = self.nodes(alloc, item, ctx, own, contexts)?;
        for at in &found {
            self.push_members(alloc, literals, &at.0, set, &at.1, others, contexts)?;
        }
        Ok(())
    }

    /// Appends that the item is a member of each node to which the designator may lead.
    #[tactic(auto, using(crate::proofs::MadeLaws::making))]
    fn push_members(
        &self,
        alloc: Global,
        literals: &mut Vec<(Literal, Ctx)>,
        item: &Node,
        set: &Des<Paths>,
        ctx: &Ctx,
        picks: &[List<Ctx>],
        contexts: &mut Contexts,
    ) -> Result<(), AllocError>
        requires places { arities picks.now ≡ path_places set.now.path }
        requires literals_made { AreMade contexts.old (λ x. x.1) literals.old.items }
        requires ctx_made { IsMade contexts.old ctx.now }
        requires picks_made { ArePicksMade contexts.old picks.now }
        ensures each { OnOk result (Appends (path_places set.now.path)
            (λ ps. literal.Member item.now (node_of (instance_of self.now) set.now ps) ∷ [])
            picks.now ctx.now literals.old.items literals.new.items) }
        ensures count { OnOk result (length literals.new.items
            ≡ length literals.old.items + string_count set.now.path) }
        ensures made { AreMade contexts.new (λ x. x.1) literals.new.items }
        ensures grown { IsGrown contexts.old contexts.new }
        ensures same_picks { HasSamePicks contexts.old contexts.new }
    {
        let found = self.nodes(alloc, set, ctx, picks, contexts)?;
        for node in &found {
            let literal = Literal::Member {
                item: item.clone()?,
                set: node.0.clone()?,
            };
            push_literal(literals, literal, &node.1)?;
        }
        Ok(())
    }

    /// The literal of a constraining equation.
    fn comparison(
        &self,
        alloc: Global,
        negated: bool,
        left: &Des<Paths>,
        right: &Val<Paths>,
    ) -> Result<Literal, AllocError>
        ensures { IfOk result (λ it. it ∷ []
            ≡ schema_literals (instance_of self.now) (constrain negated left.now right.now) [] 0) }
    {
        Ok(Literal::Check(Check::Same {
            negated,
            left: self.walk(alloc, left)?,
            right: self.target(alloc, right)?,
        }))
    }

    /// The literal of an existential constraint.
    fn existence(
        &self,
        alloc: Global,
        negated: bool,
        left: &Des<Paths>,
    ) -> Result<Literal, AllocError>
        ensures { IfOk result (λ it. it ∷ []
            ≡ schema_literals (instance_of self.now) (exists negated left.now) [] 0) }
    {
        Ok(Literal::Check(Check::Exists {
            negated,
            left: self.walk(alloc, left)?,
        }))
    }
}

/// Appends the literal in the set.
fn push_literal(
    literals: &mut Vec<(Literal, Ctx)>,
    literal: Literal,
    ctx: &Ctx,
) -> Result<(), AllocError>
    ensures pushed { OnOk result
        (literals.new.items ≡ literals.old.items ++ (literal, ctx.now) ∷ []) }
    ensures kept { OnErr result (literals.new.items ≡ literals.old.items) }
{
    literals.push((literal, ctx.share()?))?;
    Ok(())
}
