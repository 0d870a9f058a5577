use crate::sizes::{literal_count, place_arities};
use lfg_terms::{Name, Paths, Schema};
use std::alloc::{AllocError, Global};
use std::test::Fail;

/// A mark.
fn mark(alloc: Global) -> Result<Schema<Paths>, AllocError> {
    Ok(Schema::Mark(Name::new(alloc, "good")?))
}

/// The annotation of one mark.
fn one_mark(alloc: Global) -> Result<Vec<Schema<Paths>>, AllocError> {
    Ok(vec![in alloc; Schema::Mark(Name::new(alloc, "good")?)]?)
}

/// An option with one mark.
fn option(alloc: Global) -> Result<Schema<Paths>, AllocError> {
    Ok(Schema::Maybe(one_mark(alloc)?))
}

/// A disjunction of one mark, one mark and nothing.
fn disjunction(alloc: Global) -> Result<Schema<Paths>, AllocError> {
    let branches = vec![in alloc; one_mark(alloc)?, one_mark(alloc)?, Vec::new(alloc)]?;
    Ok(Schema::Either(branches))
}

#[test]
fn literals_and_places_are_counted(rt: HostRuntime) -> Result<(), Fail> {
    let alloc = rt.alloc();
    let schemata = vec![in alloc; mark(alloc)?, option(alloc)?, disjunction(alloc)?]?;
    assert_eq!(rt; literal_count(schemata.as_slice()), 4);
    let arities = place_arities(alloc, schemata.as_slice())?;
    assert!(rt; arities.as_slice() == [2, 3].as_slice());
    Ok(())
}
