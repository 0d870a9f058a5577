ghost use Rattle.std.specs.Prelude.{◌↔◌, IfNone, IfOk, IfSome, IsTrue};
ghost use Rattle.lfg_model.specs.Lists.{In};
ghost use Rattle.lfg_model.specs.Literals.{checks};
ghost use Rattle.lfg_model.specs.Readings.{IsPairOf, solution_of};
ghost use Rattle.lfg_model.specs.Solve as model;
ghost use Rattle.lfg_model.specs.Solve.{Holds, IsWellFormed};
ghost use Rattle.lfg_model.specs.Terms.{tree_of};
ghost use Rattle.lfg_model.specs.Trees.{literals};
ghost use Rattle.lfg_terms.specs.declared.literal.Check.{Check};
ghost use Rattle.lfg_solve.specs.Fits.{Fits};
ghost use Rattle.lfg_solve.specs.Printable.{ArePrintable};
ghost use Rattle.lfg_solve.specs.Solves.{Solves};

use crate::derivation::{literals, tree_facts};
use crate::solution::Solution;
use lfg_model::Pair;
use lfg_terms::{Derivation, Grammar, List, Literal, TokenForms};
use std::alloc::{AllocError, Global};

/// The pair of tree and f-structure of the derivation, or `None` where its equations clash, its
/// f-structure is cyclic, incomplete or incoherent, or one of its constraints is false. Nothing is
/// said of a derivation whose tokens, or whose annotations' forms, 32 bits cannot count.
///
/// # Errors
///
/// Only for want of memory.
pub fn assigned_pair(
    alloc: Global,
    grammar: &Grammar,
    tokens: &[TokenForms],
    derivation: &Derivation,
) -> Result<Option<Pair>, AllocError>
    ensures well_formed { Fits grammar.now (tree_of derivation.now) → IfOk result (λ found. IfSome found (λ pair.
        IsWellFormed (solution_of grammar.now (tree_of derivation.now)) grammar.now.governable (checks (literals grammar.now (tree_of derivation.now) 0)))) }
    ensures pair { Fits grammar.now (tree_of derivation.now) → IfOk result (λ found. IfSome found (IsPairOf grammar.now tokens.now (tree_of derivation.now))) }
    ensures none { Fits grammar.now (tree_of derivation.now) → IfOk result (λ found. IfNone found (
        ¬ IsWellFormed (solution_of grammar.now (tree_of derivation.now)) grammar.now.governable (checks (literals grammar.now (tree_of derivation.now) 0)))) }
    ensures printable { Fits grammar.now (tree_of derivation.now) → IfOk result (λ found. IfSome found (λ pair. ArePrintable pair.facts)) }
{
    let literals = literals(alloc, grammar, derivation)?;
    let solution = Solution::new(alloc, &literals)?;
    if !is_well_formed(alloc, grammar, &literals, &solution)? {
        return Ok(None);
    }
    Ok(Some(Pair {
        tree: List::new(alloc, tree_facts(alloc, tokens, derivation)?)?,
        facts: List::new(alloc, solution.facts(alloc)?)?,
    }))
}

/// Whether the solution of the literals meets all conditions on an f-structure.
fn is_well_formed(
    alloc: Global,
    grammar: &Grammar,
    literals: &[Literal],
    solution: &Solution,
) -> Result<bool, AllocError>
    ensures { Solves literals.now solution.now → IfOk result (λ met.
        IsTrue met ↔ IsWellFormed (model.solution literals.now) grammar.now.governable (checks literals.now)) }
{
    if solution.has_clash() {
        return Ok(false);
    }
    if !solution.is_complete() {
        return Ok(false);
    }
    if !solution.is_coherent(grammar.governable.list()) {
        return Ok(false);
    }
    if solution.has_cycle(alloc)? {
        return Ok(false);
    }
    satisfies_all(alloc, literals, solution)
}

/// Whether the solution satisfies all checks among the literals.
fn satisfies_all(
    alloc: Global,
    literals: &[Literal],
    solution: &Solution,
) -> Result<bool, AllocError>
    ensures { Solves literals.now solution.now
        → IfOk result (λ all. IsTrue all ↔ ((c : Check) → In c (checks literals.now) → Holds (model.solution literals.now) c)) }
{
    for literal in literals {
        let meets = solution.meets(alloc, literal)?;
        if !meets {
            return Ok(false);
        }
    }
    Ok(true)
}
