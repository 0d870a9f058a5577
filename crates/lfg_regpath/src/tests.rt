use crate::*;
use lfg_terms::{Name, Path, PathExpr};
use std::alloc::Global;
use std::process::Abort;
use std::test::Fail;

/// The path of these attributes with spaces between.
fn attributes(alloc: Global, text: &str) -> Result<Vec<PathExpr>, Fail> {
    let mut parts = Vec::new(alloc);
    for name in text.split(' ') {
        parts.push(PathExpr::Attr(Name::new(alloc, name)?))?;
    }
    Ok(parts)
}

fn row(alloc: Global, text: &str) -> Result<PathExpr, Fail> {
    Ok(PathExpr::Row(attributes(alloc, text)?))
}

fn one_of(alloc: Global, text: &str) -> Result<PathExpr, Fail> {
    Ok(PathExpr::OneOf(attributes(alloc, text)?))
}

fn star(alloc: Global, inside: PathExpr) -> Result<PathExpr, Fail> {
    Ok(PathExpr::Star(Box::new(alloc, inside)?))
}

fn plus(alloc: Global, inside: PathExpr) -> Result<PathExpr, Fail> {
    Ok(PathExpr::Plus(Box::new(alloc, inside)?))
}

/// The paths, each with a space before each attribute and a bar behind it.
fn text_of(alloc: Global, paths: &[Path]) -> Result<String, Fail> {
    let mut text = String::new(alloc);
    for path in paths {
        for name in path.list() {
            text.push(' ')?;
            text.push_str(name.text())?;
        }
        text.push('|')?;
    }
    Ok(text)
}

/// The strings of the path, or its fault.
fn shown(rt: &impl Abort, alloc: Global, path: PathExpr, depth: u8) -> Result<String, Fail> {
    assert!(rt; 1 <= depth && depth <= 8);
    match paths_to(alloc, &path, depth) {
        Ok(paths) => text_of(alloc, paths.list()),
        Err(fault) => Ok(format!(in alloc; "{fault}")?),
    }
}

/// How many strings the path has, or its fault.
fn counted(rt: &impl Abort, alloc: Global, path: PathExpr, depth: u8) -> Result<String, Fail> {
    assert!(rt; 1 <= depth && depth <= 8);
    match paths_to(alloc, &path, depth) {
        Ok(paths) => Ok(format!(in alloc; "{}", paths.list().len())?),
        Err(fault) => Ok(format!(in alloc; "{fault}")?),
    }
}

#[test]
fn stars_and_pluses_repeat(rt: HostRuntime) -> Result<(), Fail> {
    let alloc = rt.alloc();
    let any = star(alloc, PathExpr::Attr(Name::new(alloc, "A")?))?;
    assert_eq!(rt; shown(&rt, alloc, any, 2)?.as_str(), "| A| A A|");
    let some = plus(alloc, row(alloc, "A B")?)?;
    assert_eq!(rt; shown(&rt, alloc, some, 4)?.as_str(), " A B| A B A B|");
    let long = plus(alloc, row(alloc, "A B C D")?)?;
    assert_eq!(rt; shown(&rt, alloc, long, 3)?.as_str(), "no path");
    Ok(())
}

#[test]
fn strings_are_counted(rt: HostRuntime) -> Result<(), Fail> {
    let alloc = rt.alloc();
    for (depth, wanted) in [(7, "255"), (8, "more than 256 paths")] {
        let path = star(alloc, one_of(alloc, "A B")?)?;
        assert_eq!(rt; counted(&rt, alloc, path, depth)?.as_str(), wanted);
    }
    Ok(())
}

#[test]
fn rows_alone_have_any_length(rt: HostRuntime) -> Result<(), Fail> {
    let alloc = rt.alloc();
    assert_eq!(rt;
        shown(&rt, alloc, row(alloc, "A B C")?, 1)?.as_str(),
        " A B C|"
    );
    assert_eq!(rt;
        shown(&rt, alloc, PathExpr::Row(Vec::new(alloc)), 1)?.as_str(),
        "|"
    );
    let branch = vec![in alloc; row(alloc, "A B C")?]?;
    assert_eq!(rt;
        shown(&rt, alloc, PathExpr::OneOf(branch), 2)?.as_str(),
        "no path"
    );
    assert_eq!(rt;
        shown(&rt, alloc, PathExpr::OneOf(Vec::new(alloc)), 8)?.as_str(),
        "no path"
    );
    Ok(())
}

/// A part of a row is cut by what the other parts leave, before its strings are counted.
#[test]
fn parts_are_cut_by_what_is_left(rt: HostRuntime) -> Result<(), Fail> {
    let alloc = rt.alloc();
    let mut parts = vec![in alloc; star(alloc, one_of(alloc, "A B C D E F G H")?)?]?;
    parts.push(row(alloc, "X X X X X X X")?)?;
    assert_eq!(rt; counted(&rt, alloc, PathExpr::Row(parts), 8)?.as_str(), "9");
    let parts = vec![in alloc; one_of(alloc, "BB A")?, star(alloc, row(alloc, "C")?)?]?;
    assert_eq!(rt;
        shown(&rt, alloc, PathExpr::Row(parts), 2)?.as_str(),
        " A| BB| A C| BB C|"
    );
    Ok(())
}

#[test]
fn deep_paths_are_read(rt: HostRuntime) -> Result<(), Fail> {
    let alloc = rt.alloc();
    let mut path = PathExpr::Attr(Name::new(alloc, "A")?);
    for _ in 0..1000 {
        path = PathExpr::Row(vec![in alloc; path]?);
    }
    let path = plus(alloc, path)?;
    assert_eq!(rt; shown(&rt, alloc, path, 2)?.as_str(), " A| A A|");
    Ok(())
}
