ghost use Rattle.std.specs.Prelude.{◌≡◌, ◌↔◌, ℕ, IfOk, OnOk, ◌≤◌, ◌+◌, ◌*◌, ◌<◌, ◌^◌};
ghost use Rattle.lfg_chart.specs.Cells.{Grown, item_of, part_of};
ghost use Rattle.lfg_chart.specs.Places.{Has};
ghost use Rattle.lfg_chart.specs.Tables.{Adds, GrownBy, HasRows, Holds, IsRow};
ghost use Rattle.lfg_chart.specs.declared.table.Row.{Row};

use crate::links::RuleLinks;
use crate::places::Places;
use std::alloc::{AllocError, Global};

/// What a row of a table tells of two places.
#[derive(Clone, Copy, Debug)]
pub(crate) enum Row {
    /// The category covers what is between them.
    Whole { cat: usize },
    /// From the first on the category's rule may reach the second with this item, or 0, behind it.
    Read { cat: usize, item: u32 },
    /// With this item, or 0, behind the first the category's rule may come to its end at the second.
    Left { cat: usize, item: u32 },
}

impl Row {
    /// The part of a table in which the row stands, of three for each category.
    fn part(self) -> usize
        requires { part_of self < 2 ^ 63 }
        ensures { result ≡ part_of self }
    {
        match self {
            Row::Whole { cat } => cat * 3,
            Row::Read { cat, .. } => cat * 3 + 1,
            Row::Left { cat, .. } => cat * 3 + 2,
        }
    }

    /// Its place among the rows of that part.
    fn item(self) -> usize
        ensures { result ≡ item_of self }
    {
        match self {
            Row::Whole { .. } => 0,
            Row::Read { item, .. } | Row::Left { item, .. } => item as usize,
        }
    }
}

/// For each row and each place the places to which the row leads.
#[derive(Drop)]
pub(crate) struct Table {
    size: usize,
    parts: Vec<Vec<Places>>,
}

impl Table {
    /// How many places there are.
    pub fn size(&self) -> usize
        ensures { result ≡ self.now.size }
    {
        self.size
    }

    /// Where the row leads from a place.
    pub fn places(&self, row: Row, from: usize) -> Places
        requires row { IsRow self.now row }
        requires within { from < self.now.size }
        ensures { (to : ℕ) → to < self.now.size → Has result to ↔ Holds self.now row from to }
    {
        let cells = &self.parts[row.part()];
        cells[row.item() * self.size + from]
    }

    /// Lets the row lead from a place to these, and answers whether one of them is new.
    pub fn add(&mut self, row: Row, from: usize, places: Places) -> bool
        requires row { IsRow self.old row }
        requires within { from < self.old.size }
        ensures { Adds self.old self.new row from places result }
    {
        let part = row.part();
        let index = row.item() * self.size + from;
        let old = self.parts[part][index];
        let new = old.join(places);
        if new.same(old) {
            return false;
        }
        self.parts[part][index] = new;
        true
    }
}

/// Adds a part of this number of empty cells.
fn push_part(alloc: Global, parts: &mut Vec<Vec<Places>>, count: usize) -> Result<(), AllocError>
    ensures { OnOk result (Grown parts.old.items parts.new.items count) }
{
    parts.push(vec![in alloc; Places::none(); count]?)?;
    Ok(())
}

/// Adds the three parts of a category with this rule, if it has one.
fn push_category(
    alloc: Global,
    parts: &mut Vec<Vec<Places>>,
    rule: &Option<RuleLinks>,
    size: usize,
) -> Result<(), AllocError>
    requires { size ≤ 128 }
    ensures { OnOk result (GrownBy parts.old.items parts.new.items size rule.now) }
{
    let items = match rule {
        Some(rule) => rule.size as usize + 1,
        None => 0,
    };
    push_part(alloc, parts, size)?;
    push_part(alloc, parts, items * size)?;
    push_part(alloc, parts, items * size)?;
    Ok(())
}

impl Table {
    /// The empty table for the rules of the categories and this number of places.
    pub fn new(alloc: Global, rules: &[Option<RuleLinks>], size: usize) -> Result<Table, AllocError>
        requires few { size ≤ 128 }
        ensures size { IfOk result (λ table. table.size ≡ size) }
        ensures rows { IfOk result (HasRows rules.now) }
        ensures empty { IfOk result (λ table. (row : Row) (from to : ℕ) → ¬ Holds table row from to) }
    {
        let mut parts = Vec::new(alloc);
        for rule in rules {
            push_category(alloc, &mut parts, rule, size)?;
        }
        Ok(Table { size, parts })
    }

    /// The empty table with the same rows and places.
    pub fn cleared(&self, alloc: Global) -> Result<Table, AllocError>
        ensures size { IfOk result (λ table. table.size ≡ self.now.size) }
        ensures rows { IfOk result (λ table. (row : Row) → IsRow self.now row → IsRow table row) }
        ensures empty { IfOk result (λ table. (row : Row) (from to : ℕ) → ¬ Holds table row from to) }
    {
        let mut parts = Vec::new(alloc);
        for part in &self.parts {
            push_part(alloc, &mut parts, part.len())?;
        }
        Ok(Table {
            size: self.size,
            parts,
        })
    }
}
