ghost use Rattle.std.specs.Prelude.{◌≡◌, ◌↔◌, ◌⊎◌, ℕ, ◌+◌, ◌-◌, ◌<◌, ◌≤◌, Some, IfOk, OnOk, length};
ghost use Rattle.lfg_chart.specs.Agenda.{Gathers, Is, IsAgenda, IsDaughter, IsDaughterBy, IsDaughterFrom, IsDaughterOver, KeptSpan, span};
ghost use Rattle.lfg_chart.specs.Filling.{IsLink, IsRule, Ready};
ghost use Rattle.lfg_chart.specs.Tables.{HasRows, Holds, IsRow};
ghost use Rattle.lfg_chart.specs.declared.kept.Span.{Span};
ghost use Rattle.lfg_chart.specs.declared.links.Link.{Link};
ghost use Rattle.lfg_chart.specs.declared.table.Row.{Row};
ghost use Rattle.lfg_chart.specs.declared.table.Row.TheVariants.{Whole, Read, Left};
ghost use Rattle.lfg_model.specs.Lists.{In};

use crate::links::{Link, RuleLinks};
use crate::places::Places;
use crate::table::{Row, Table};
use std::alloc::{AllocError, Global};

/// An edge, with the number of its category.
#[derive(Clone, Copy, Debug, Drop)]
pub(crate) struct Span {
    pub cat: usize,
    pub from: usize,
    pub to: usize,
}

/// Edges that were found, each once.
#[derive(Drop)]
struct Agenda {
    found: Vec<Span>,
    /// The edges that were found, as rows of whole categories.
    seen: Table,
}

impl Agenda {
    /// Adds an edge, if it is new. The table is the one that has its category's row.
    fn add(&mut self, new: Span, table: &Table) -> Result<(), AllocError>
        requires agenda { IsAgenda table.now self.old }
        requires row { IsRow table.now (Whole new.cat) }
        requires from { new.from < table.now.size }
        requires to { new.to < table.now.size }
        ensures agenda { OnOk result (IsAgenda table.now self.new) }
        ensures found { OnOk result (Gathers self.old self.new (Is new)) }
    {
        let row = Row::Whole { cat: new.cat };
        if self.seen.add(row, new.from, Places::one(new.to)) {
            self.found.push(new)?;
        }
        Ok(())
    }

    /// Adds the daughters of an edge over a link from a place.
    fn add_from(
        &mut self,
        rules: &[Option<RuleLinks>],
        table: &Table,
        mother: Span,
        link: Link,
        below: usize,
        at: usize,
    ) -> Result<(), AllocError>
        requires agenda { IsAgenda table.now self.old }
        requires ready { Ready rules.now table.now }
        requires link { IsLink rules.now mother.cat link }
        requires category { link.cat ≡ Some below }
        requires to { mother.to < table.now.size }
        requires read { Holds table.now (Read mother.cat link.before) mother.from at }
        ensures agenda { OnOk result (IsAgenda table.now self.new) }
        ensures found { OnOk result (Gathers self.old self.new (IsDaughterFrom table.now mother link below at table.now.size)) }
    {
        let wholes = table.places(Row::Whole { cat: below }, at);
        let left = Row::Left {
            cat: mother.cat,
            item: link.item,
        };
        for mid in 0..table.size() {
            if wholes.has(mid) && table.places(left, mid).has(mother.to) {
                self.add(
                    Span {
                        cat: below,
                        from: at,
                        to: mid,
                    },
                    table,
                )?;
            }
        }
        Ok(())
    }

    /// Adds the daughters of an edge over a link to a category.
    fn add_over(
        &mut self,
        rules: &[Option<RuleLinks>],
        table: &Table,
        mother: Span,
        link: Link,
        below: usize,
    ) -> Result<(), AllocError>
        requires agenda { IsAgenda table.now self.old }
        requires ready { Ready rules.now table.now }
        requires link { IsLink rules.now mother.cat link }
        requires category { link.cat ≡ Some below }
        requires from { mother.from < table.now.size }
        requires to { mother.to < table.now.size }
        ensures agenda { OnOk result (IsAgenda table.now self.new) }
        ensures found { OnOk result (Gathers self.old self.new (IsDaughterOver table.now mother link below table.now.size)) }
    {
        let reads = table.places(
            Row::Read {
                cat: mother.cat,
                item: link.before,
            },
            mother.from,
        );
        for at in 0..table.size() {
            if reads.has(at) {
                self.add_from(rules, table, mother, link, below, at)?;
            }
        }
        Ok(())
    }

    /// Adds the daughters of an edge over links.
    fn add_by(
        &mut self,
        rules: &[Option<RuleLinks>],
        table: &Table,
        mother: Span,
        links: &[Link],
    ) -> Result<(), AllocError>
        requires agenda { IsAgenda table.now self.old }
        requires ready { Ready rules.now table.now }
        requires links { (link : Link) → In link links.now → IsLink rules.now mother.cat link }
        requires from { mother.from < table.now.size }
        requires to { mother.to < table.now.size }
        ensures agenda { OnOk result (IsAgenda table.now self.new) }
        ensures found { OnOk result (Gathers self.old self.new (IsDaughterBy table.now mother links.now)) }
    {
        for link in links {
            if let Some(below) = link.cat {
                self.add_over(rules, table, mother, *link, below)?;
            }
        }
        Ok(())
    }

    /// Adds the daughters of an edge.
    fn add_daughters(
        &mut self,
        rules: &[Option<RuleLinks>],
        table: &Table,
        mother: Span,
    ) -> Result<(), AllocError>
        requires agenda { IsAgenda table.now self.old }
        requires ready { Ready rules.now table.now }
        requires category { mother.cat < length rules.now }
        requires from { mother.from < table.now.size }
        requires to { mother.to < table.now.size }
        ensures agenda { OnOk result (IsAgenda table.now self.new) }
        ensures found { OnOk result (Gathers self.old self.new (IsDaughter rules.now table.now mother)) }
    {
        if let Some(rule) = &rules[mother.cat] {
            self.add_by(rules, table, mother, &rule.links)?;
        }
        Ok(())
    }
}

/// The edges of whole derivations, each once: the root's over all tokens, if the table has it, and
/// what stands below it. `seen` is an empty table with rows for all categories.
pub(crate) fn kept(
    alloc: Global,
    rules: &[Option<RuleLinks>],
    table: &Table,
    root: usize,
    seen: Table,
) -> Result<Vec<Span>, AllocError>
    requires ready { Ready rules.now table.now }
    requires bounded { (cat from to : ℕ) → Holds table.now (Whole cat) from to → cat < length rules.now }
    requires rows { (cat : ℕ) → IsRow table.now (Whole cat) → IsRow seen (Whole cat) }
    requires root { IsRow table.now (Whole root) }
    requires size { seen.size ≡ table.now.size }
    requires empty { (row : Row) (from to : ℕ) → ¬ Holds seen row from to }
    requires place { 1 ≤ table.now.size }
    ensures { IfOk result (λ found. (x : Span) → In x found.items ↔ KeptSpan rules.now table.now root (table.now.size - 1) x) }
{
    let mut agenda = Agenda {
        found: Vec::new(alloc),
        seen,
    };
    let tokens = table.size() - 1;
    let row = Row::Whole { cat: root };
    if tokens > 0 && table.places(row, 0).has(tokens) {
        agenda.add(
            Span {
                cat: root,
                from: 0,
                to: tokens,
            },
            table,
        )?;
    }
    let mut next = 0;
    while next < agenda.found.len() {
        let mother = agenda.found[next];
        agenda.add_daughters(rules, table, mother)?;
        next += 1;
    }
    Ok(agenda.found)
}
