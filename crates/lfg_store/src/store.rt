ghost use Rattle.std.specs.Prelude.{◌≡◌, ◌≢◌, ℕ, ◌+◌, ◌<◌, ◌≤◌, [], length, filter, slice_get, Some, IfOk, OnOk, OnErr, if◌then◌else◌};
ghost use Rattle.std.specs.Option.{option_copied};
ghost use Rattle.lfg_terms.specs.Order.{fact_cmp};
ghost use Rattle.lfg_terms.specs.declared.node.Fact.{Fact};
ghost use Rattle.lfg_model.specs.Lists.{In, Lists};
ghost use Rattle.lfg_context.specs.Sets.{Assignment, member, IsMade, IsGrown, HasSamePicks};
ghost use Rattle.lfg_store.specs.Facts.{held, facts_at, context_of, with_fact, without_fact, is_of, has_argument, IsStore};
ghost use Rattle.std.specs.Bool.{OnTrue, OnFalse};
ghost use Rattle.lfg_store.specs.Edits.{HasRoom, most, IsEdited};
ghost use Rattle.lfg_store.specs.Packing.{AreMadeBy};

use crate::edit::Edit;
use crate::entries::{collected, copied, copied_entry, edit_entries, find};
use lfg_context::{Contexts, Ctx};
use lfg_terms::{Arg, Fact, Name};
use std::alloc::{AllocError, Global};
use std::marker::Model;
use std::rc::Rc;

/// A finite map from facts to contexts, the sets of assignments at which they stand.
///
/// Contracts see it as the list of its facts with their contexts, in the order of facts. No context
/// is empty: a fact that stands nowhere is not in the map. A store and its snapshots share their
/// list until one of them is changed.
#[derive(Drop)]
pub struct FactStore {
    alloc: Global,
    // `None` is the empty map, which takes no memory.
    entries: Option<Rc<Vec<(Fact, Ctx)>>>,
}

impl Model for FactStore {
    ghost use Rattle.lfg_store.specs.Facts.{Entries, IsStore};
    ghost use Rattle.lfg_store.specs.Kept.{kept};

    ghost Value = { Entries };

    ghost use Rattle.std.specs.Coded.{codes};
    ghost use Rattle.lfg_terms.specs.contracts.node.Fact as fact_type;

    ghost coded = { Prim.hlevel (codes, fact_type.the_row.coded) };

    ghost view = { λ s. kept s.entries };

    ghost invariant = { λ s. IsStore (kept s.entries) };
}

impl FactStore {
    /// The map of no facts. Takes no memory.
    pub fn new(alloc: Global) -> FactStore
        ensures { result ≡ [] }
    {
        FactStore {
            alloc,
            entries: None,
        }
    }

    /// The map of these facts, which come in any order. A fact that comes several times has the
    /// union of its sets, and one whose sets are all empty is left out.
    ///
    /// # Errors
    ///
    /// Only for want of memory.
    #[tactic(auto, using(lfg_context::proofs::Growing::growing))]
    pub fn from_entries(
        alloc: Global,
        entries: Vec<(Fact, Ctx)>,
        contexts: &mut Contexts,
    ) -> Result<FactStore, AllocError>
        requires room { length entries.items ≤ 4294967295 }
        requires made { AreMadeBy contexts.old entries.items }
        ensures ok { IfOk result (λ store. (a : Assignment) → Lists fact_cmp (λ f. In f (facts_at entries.items a)) (facts_at store a)) }
        ensures store { IfOk result IsStore }
        ensures shorter { IfOk result (λ store. length store ≤ length entries.items) }
        ensures made { IfOk result (AreMadeBy contexts.new) }
        ensures grown { IsGrown contexts.old contexts.new }
        ensures picks { HasSamePicks contexts.old contexts.new }
    {
        let mut sorted = entries;
        // Facts in order are each put in at the end.
        sorted.sort_by(|one, other| one.0.cmp(&other.0))?;
        let entries = collected(alloc, sorted.as_slice(), contexts)?;
        let shared = Rc::new(alloc, entries)?;
        Ok(FactStore {
            alloc,
            entries: Some(shared),
        })
    }

    /// The facts with their contexts, in the order of facts. Takes no memory.
    pub fn entries(&self) -> &[(Fact, Ctx)]
        ensures same { result.now ≡ self.now }
        ensures store { IsStore result.now }
    {
        match &self.entries {
            Some(shared) => shared.as_slice(),
            None => &[],
        }
    }

    /// The same map, which later calls on this one do not change.
    ///
    /// # Errors
    ///
    /// Only for want of memory.
    pub fn snapshot(&self) -> Result<FactStore, AllocError>
        ensures { IfOk result (λ store. store ≡ self.now) }
    {
        match &self.entries {
            Some(shared) => {
                let shared = shared.clone()?;
                Ok(FactStore {
                    alloc: self.alloc,
                    entries: Some(shared),
                })
            }
            None => Ok(FactStore {
                alloc: self.alloc,
                entries: None,
            }),
        }
    }

    /// The context of the fact; none exactly where the fact is not in the map. Takes no memory.
    pub fn get(&self, fact: &Fact) -> Option<&Ctx>
        ensures { option_copied result ≡ context_of self.now fact.now }
    {
        let entries = self.entries();
        match find(entries, fact) {
            Ok(place) => Some(&entries[place].1),
            Err(_) => None,
        }
    }
    /// How many facts the map has. Takes no memory.
    pub fn len(&self) -> u32
        ensures value { result ≡ length self.now }
        ensures store { IsStore self.now }
    {
        self.entries().len() as u32
    }

    /// The fact at this place in the order of facts, counted from 0, with its context. Takes no
    /// memory.
    pub fn at(&self, index: u32) -> (&Fact, &Ctx)
        requires { index < length self.now }
        ensures { slice_get self.now index ≡ Some (result.0.now, result.1.now) }
    {
        let entry = &self.entries()[index as usize];
        (&entry.0, &entry.1)
    }

    /// The facts of the relation with their contexts, in order.
    ///
    /// # Errors
    ///
    /// Only for want of memory.
    pub fn by_relation(&self, rel: &Name) -> Result<Vec<(Fact, Ctx)>, AllocError>
        ensures { IfOk result (λ found. found.items ≡ filter (λ e. is_of rel.now e.0) self.now) }
    {
        let entries = self.entries();
        let mut found = Vec::new(self.alloc);
        for entry in entries {
            if is_of(&entry.0, rel) {
                found.push(copied_entry(entry)?)?;
            }
        }
        Ok(found)
    }

    /// The facts of the relation that have the argument at the place, counted from 0, with their
    /// contexts, in order.
    ///
    /// # Errors
    ///
    /// Only for want of memory.
    pub fn by_argument(
        &self,
        rel: &Name,
        place: u32,
        arg: &Arg,
    ) -> Result<Vec<(Fact, Ctx)>, AllocError>
        ensures { IfOk result (λ found. found.items ≡ filter (λ e. has_argument rel.now place arg.now e.0) self.now) }
    {
        let entries = self.entries();
        let mut found = Vec::new(self.alloc);
        for entry in entries {
            if has_argument(&entry.0, rel, place, arg) {
                found.push(copied_entry(entry)?)?;
            }
        }
        Ok(found)
    }

    /// Adds the fact at the assignments of the set: its context becomes the union of the old one
    /// and the set.
    ///
    /// # Errors
    ///
    /// Only for want of memory. The map is then as before.
    #[tactic(auto, using(lfg_context::proofs::Growing::growing))]
    pub fn add_in(
        &mut self,
        fact: &Fact,
        ctx: &Ctx,
        contexts: &mut Contexts,
    ) -> Result<(), AllocError>
        requires room { length self.old < 4294967295 }
        requires made { AreMadeBy contexts.old self.old }
        requires ctx_made { IsMade contexts.old ctx.now }
        ensures ok { OnOk result ((a : Assignment) → facts_at self.new a ≡ (if member ctx.now a then with_fact fact.now (facts_at self.old a) else facts_at self.old a)) }
        ensures others { OnOk result ((g : Fact) → g ≢ fact.now → context_of self.new g ≡ context_of self.old g) }
        ensures refused { OnErr result (self.new ≡ self.old) }
        ensures store { IsStore self.new }
        ensures longer { length self.new ≤ length self.old + 1 }
        ensures made { AreMadeBy contexts.new self.new }
        ensures grown { IsGrown contexts.old contexts.new }
        ensures picks { HasSamePicks contexts.old contexts.new }
    {
        self.edit(Edit::Add, fact, ctx, contexts)
    }

    /// Removes the fact at the assignments of the set: its context becomes the difference of the
    /// old one and the set.
    ///
    /// # Errors
    ///
    /// Only for want of memory. The map is then as before.
    #[tactic(auto, using(lfg_context::proofs::Growing::growing))]
    pub fn remove_in(
        &mut self,
        fact: &Fact,
        ctx: &Ctx,
        contexts: &mut Contexts,
    ) -> Result<(), AllocError>
        requires made { AreMadeBy contexts.old self.old }
        requires ctx_made { IsMade contexts.old ctx.now }
        ensures ok { OnOk result ((a : Assignment) → facts_at self.new a ≡ (if member ctx.now a then without_fact fact.now (facts_at self.old a) else facts_at self.old a)) }
        ensures others { OnOk result ((g : Fact) → g ≢ fact.now → context_of self.new g ≡ context_of self.old g) }
        ensures refused { OnErr result (self.new ≡ self.old) }
        ensures store { IsStore self.new }
        ensures shorter { length self.new ≤ length self.old }
        ensures made { AreMadeBy contexts.new self.new }
        ensures grown { IsGrown contexts.old contexts.new }
        ensures picks { HasSamePicks contexts.old contexts.new }
    {
        self.edit(Edit::Remove, fact, ctx, contexts)
    }

    #[tactic(auto, using(lfg_context::proofs::Growing::growing))]
    fn edit(
        &mut self,
        edit: Edit,
        fact: &Fact,
        ctx: &Ctx,
        contexts: &mut Contexts,
    ) -> Result<(), AllocError>
        requires room { HasRoom edit self.old }
        requires made { AreMadeBy contexts.old self.old }
        requires ctx_made { IsMade contexts.old ctx.now }
        ensures ok { OnOk result (IsEdited edit self.old fact.now ctx.now self.new) }
        ensures refused { OnErr result (self.new ≡ self.old) }
        ensures store { IsStore self.new }
        ensures growth { length self.new ≤ most edit (length self.old) }
        ensures made { AreMadeBy contexts.new self.new }
        ensures grown { IsGrown contexts.old contexts.new }
        ensures picks { HasSamePicks contexts.old contexts.new }
    {
        if let Some(shared) = &mut self.entries {
            if edit_alone(shared, edit, fact, ctx, contexts)? {
                return Ok(());
            }
        }
        let mut copy = copied(self.alloc, self.entries())?;
        edit_entries(edit, &mut copy, fact, ctx, contexts)?;
        let shared = Rc::new(self.alloc, copy)?;
        self.entries = Some(shared);
        Ok(())
    }
}

/// Whether the fact is of the relation.
fn is_of(fact: &Fact, rel: &Name) -> bool
    ensures { result ≡ is_of rel.now fact.now }
{
    fact.rel == *rel
}

/// Whether the fact is of the relation and has the argument at the place.
fn has_argument(fact: &Fact, rel: &Name, place: u32, arg: &Arg) -> bool
    ensures { result ≡ has_argument rel.now place arg.now fact.now }
{
    if !is_of(fact, rel) {
        return false;
    }
    match fact.args.list().get(place as usize) {
        Some(other) => other == arg,
        None => false,
    }
}

/// Edits the list in place where no other store shares it; false where one does.
#[tactic(auto, using(lfg_context::proofs::Growing::growing))]
fn edit_alone(
    shared: &mut Rc<Vec<(Fact, Ctx)>>,
    edit: Edit,
    fact: &Fact,
    ctx: &Ctx,
    contexts: &mut Contexts,
) -> Result<bool, AllocError>
    requires store { IsStore shared.old.value.items }
    requires room { HasRoom edit shared.old.value.items }
    requires made { AreMadeBy contexts.old shared.old.value.items }
    requires ctx_made { IsMade contexts.old ctx.now }
    ensures done { IfOk result (λ done. OnTrue done (IsEdited edit shared.old.value.items fact.now ctx.now shared.new.value.items)) }
    ensures untouched { IfOk result (λ done. OnFalse done (shared.new.value.items ≡ shared.old.value.items)) }
    ensures refused { OnErr result (shared.new.value.items ≡ shared.old.value.items) }
    ensures made { AreMadeBy contexts.new shared.new.value.items }
    ensures grown { IsGrown contexts.old contexts.new }
    ensures picks { HasSamePicks contexts.old contexts.new }
{
    match Rc::get_mut(shared) {
        Some(entries) => {
            edit_entries(edit, entries, fact, ctx, contexts)?;
            Ok(true)
        }
        None => Ok(false),
    }
}
