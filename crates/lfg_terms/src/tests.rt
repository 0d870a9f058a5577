use crate::*;
use std::alloc::Global;
use std::process::Abort;
use std::test::Fail;

fn name(alloc: Global, text: &str) -> Result<Name, Fail> {
    Ok(Name::new(alloc, text)?)
}

/// The path of attributes with a slash between each two.
fn path(alloc: Global, text: &str) -> Result<Path, Fail> {
    let mut names = Vec::new(alloc);
    if !text.is_empty() {
        for attribute in text.split('/') {
            names.push(name(alloc, attribute)?)?;
        }
    }
    Ok(Path::new(alloc, names)?)
}

/// The node that has this category and this text behind its category and a colon.
fn node(alloc: Global, cat: &str, places: &str) -> Result<Node, Fail> {
    let (from, behind) = places.split_once(':').ok_or("a node has two places")?;
    let (to, attributes) = behind.split_once('/').unwrap_or((behind, ""));
    let edge = Edge {
        cat: name(alloc, cat)?,
        from: from.parse::<u32>()?,
        to: to.parse::<u32>()?,
    };
    Ok(Node::At {
        edge,
        path: path(alloc, attributes)?,
    })
}

/// The argument with this text, where no name has a byte with a backquote.
fn arg(alloc: Global, text: &str) -> Result<Arg, Fail> {
    match text.split_once(':') {
        Some((cat, places)) => Ok(Arg::Node(node(alloc, cat, places)?)),
        None => Ok(Arg::Atom(name(alloc, text)?)),
    }
}

/// The fact with this text, where it has an argument and no name has a byte with a backquote.
fn fact(alloc: Global, text: &str) -> Result<Fact, Fail> {
    let (rel, behind) = text.split_once('(').ok_or("a fact has a bracket")?;
    let inside = behind
        .strip_suffix(')')
        .ok_or("a fact ends with a bracket")?;
    let mut args = Vec::new(alloc);
    for piece in inside.split(',') {
        args.push(arg(alloc, piece)?)?;
    }
    fact_of(alloc, rel, args)
}

fn fact_of(alloc: Global, rel: &str, args: Vec<Arg>) -> Result<Fact, Fail> {
    Ok(Fact {
        rel: name(alloc, rel)?,
        args: List::new(alloc, args)?,
    })
}

/// The node has the time `pres`.
fn fact_of_node(alloc: Global, node: Node) -> Result<Fact, Fail> {
    let mut args = Vec::new(alloc);
    args.push(Arg::Node(node))?;
    args.push(arg(alloc, "pres")?)?;
    fact_of(alloc, "TIME", args)
}

/// The arguments with these texts.
fn args(alloc: Global, texts: &[&str]) -> Result<Vec<Arg>, Fail> {
    let mut args = Vec::new(alloc);
    for text in texts {
        args.push(arg(alloc, text)?)?;
    }
    Ok(args)
}

/// The facts with these texts.
fn facts(alloc: Global, texts: &[&str]) -> Result<Vec<Fact>, Fail> {
    let mut facts = Vec::new(alloc);
    for text in texts {
        facts.push(fact(alloc, text)?)?;
    }
    Ok(facts)
}

/// The new node of a rule for a variable, by these values of the others.
fn new_node(alloc: Global, rule: u32, var: &str, values: Vec<Arg>) -> Result<Node, Fail> {
    Ok(Node::New {
        rule,
        var: name(alloc, var)?,
        binding: Shared::new(alloc, values)?,
    })
}

/// The new node whose binding is one node.
fn nested(alloc: Global, rule: u32, var: &str, inner: Node) -> Result<Node, Fail> {
    let mut values = Vec::new(alloc);
    values.push(Arg::Node(inner))?;
    new_node(alloc, rule, var, values)
}

fn edge(alloc: Global, cat: &str, from: u32, to: u32) -> Result<Edge, Fail> {
    Ok(Edge {
        cat: name(alloc, cat)?,
        from,
        to,
    })
}

/// The fact's text.
fn shown(alloc: Global, fact: &Fact, table: &[Node]) -> Result<String, Fail> {
    if !is_listed(fact, table) {
        Err("a new node is not in the table")?;
    }
    Ok(String::from_utf8(fact_text(alloc, fact, table)?)?)
}

#[test]
fn names_have_backquotes(rt: HostRuntime) -> Result<(), Fail> {
    let alloc = rt.alloc();
    let cases = [
        ("", ""),
        ("NP", "NP"),
        ("in_set", "in_set"),
        ("x1", "x1"),
        ("3", "3"),
        ("a-b", "a-b"),
        ("a-b-c", "a-b-c"),
        ("-a", "`-a"),
        ("a-", "a`-"),
        ("-", "`-"),
        ("a--b", "a`-`-b"),
        ("a b", "a` b"),
        ("a:b", "a`:b"),
        ("schläft", "schl`äft"),
        ("日本", "`日`本"),
        ("`", "``"),
    ];
    for (plain, shown) in cases {
        let text = name_text(alloc, &name(alloc, plain)?)?;
        assert_eq!(rt; text.as_slice(), shown.as_bytes(), "of {plain}");
    }
    Ok(())
}

#[test]
fn facts_are_shown(rt: HostRuntime) -> Result<(), Fail> {
    let alloc = rt.alloc();
    let cases = [
        "DEF(NP:0:2,yes)",
        "SUBJ(S:0:3,NP:0:2)",
        "in_set(PP:4:7,NP:2:7/ADJUNCT)",
        "arg(S:0:7/COMP/OBJ,12,SUBJ)",
        "under(N:0:4294967295)",
    ];
    for text in cases {
        assert_eq!(rt; shown(alloc, &fact(alloc, text)?, &[])?.as_str(), text);
    }
    let quoted = fact_of(alloc, "is a", args(alloc, &["x-:0:1/-", "("])?)?;
    assert_eq!(rt;
        shown(alloc, &quoted, &[])?.as_str(),
        "is` a(x`-:0:1/`-,`()"
    );
    let bare = fact_of(alloc, "DEF", Vec::new(alloc))?;
    assert_eq!(rt; shown(alloc, &bare, &[])?.as_str(), "DEF()");
    Ok(())
}

#[test]
fn new_nodes_are_numbered(rt: HostRuntime) -> Result<(), Fail> {
    let alloc = rt.alloc();
    let event = new_node(alloc, 1, "E", args(alloc, &["S:0:3", "pres"])?)?;
    let time = nested(alloc, 2, "E", event.clone()?)?;
    let timed = fact_of_node(alloc, time.clone()?)?;
    let table = [event, time];
    assert!(rt; !is_listed(&timed, &table[..1]));
    assert_eq!(rt; shown(alloc, &timed, &table)?.as_str(), "TIME(#2,pres)");
    Ok(())
}

/// A call that appends does so behind what stands there.
#[test]
fn texts_are_appended(rt: HostRuntime) -> Result<(), Fail> {
    let alloc = rt.alloc();
    let bare = fact_of(alloc, "DEF", Vec::new(alloc))?;
    assert!(rt; is_listed(&bare, &[]));
    let mut text = Vec::new(alloc);
    push_name(&mut text, &bare.rel)?;
    push_number(alloc, &mut text, 10)?;
    push_fact(alloc, &mut text, &bare, &[])?;
    push_edge(alloc, &mut text, &edge(alloc, "NP", 0, 2)?)?;
    assert_eq!(rt; text.as_slice(), "DEF10DEF()NP:0:2".as_bytes());
    assert_eq!(rt;
        edge_text(alloc, &edge(alloc, "N P", 0, 10)?)?.as_slice(),
        "N` P:0:10".as_bytes()
    );
    Ok(())
}

/// Each of the values is before each later one, and equal to itself alone.
fn assert_ascending<T: Ord>(rt: &impl Abort, values: &[T]) {
    for (i, one) in values.iter().enumerate() {
        for (j, other) in values.iter().enumerate() {
            assert_eq!(rt; one.cmp(other), i.cmp(&j), "at {i} and {j}");
            assert_eq!(rt; one == other, i == j, "at {i} and {j}");
        }
    }
}

#[test]
fn facts_of_analyses_ascend(rt: HostRuntime) -> Result<(), Fail> {
    let walks = [
        "DEF(NP:0:2,yes)",
        "NUM(NP:0:2,sg)",
        "PRED(S:0:3,walk)",
        "PRED(NP:0:2,man)",
        "SUBJ(S:0:3,NP:0:2)",
        "arg(S:0:3,1,SUBJ)",
    ];
    assert_ascending(&rt, &facts(rt.alloc(), &walks)?);
    let whom = [
        "COMP(S:0:7,C:3:7)",
        "COMP(C:3:7,C:5:7)",
        "OBJ(C:5:7,W:0:1)",
        "PRED(S:0:7,say)",
        "PRED(W:0:1,who)",
        "PRED(N:1:2,kim)",
        "PRED(C:3:7,say)",
        "PRED(N:3:4,kim)",
        "PRED(C:5:7,see)",
        "PRED(N:5:6,kim)",
        "arg(S:0:7,1,SUBJ)",
        "arg(S:0:7,2,COMP)",
        "arg(C:3:7,1,SUBJ)",
    ];
    assert_ascending(&rt, &facts(rt.alloc(), &whom)?);
    Ok(())
}

#[test]
fn facts_with_sets_ascend(rt: HostRuntime) -> Result<(), Fail> {
    let park = [
        "ADJUNCT(NP:2:7,NP:2:7/ADJUNCT)",
        "DEF(NP:2:7,yes)",
        "DEF(NP:5:7,yes)",
        "OBJ(S:0:7,NP:2:7)",
        "OBJ(PP:4:7,NP:5:7)",
        "PERS(NP:0:1,3)",
        "arg(PP:4:7,1,OBJ)",
        "in_set(PP:4:7)",
        "in_set(NP:2:7,NP:2:7/ADJUNCT)",
        "in_set(PP:4:7,NP:2:7/ADJUNCT)",
    ];
    assert_ascending(&rt, &facts(rt.alloc(), &park)?);
    Ok(())
}

#[test]
fn names_paths_and_edges_ascend(rt: HostRuntime) -> Result<(), Fail> {
    let alloc = rt.alloc();
    let mut names = Vec::new(alloc);
    for text in ["", "A", "AB", "B", "a"] {
        names.push(name(alloc, text)?)?;
    }
    assert_ascending(&rt, &names);
    let mut paths = Vec::new(alloc);
    for text in ["", "Z", "A/Z", "B/A", "A/A/A", "A/A/A/A/A"] {
        paths.push(path(alloc, text)?)?;
    }
    assert_ascending(&rt, &paths);
    let mut edges = Vec::new(alloc);
    for (cat, from, to) in [
        ("S", 0, 7),
        ("VP", 0, 7),
        ("A", 0, 1),
        ("A", 1, 9),
        ("A", 1, 2),
    ] {
        edges.push(edge(alloc, cat, from, to)?)?;
    }
    assert_ascending(&rt, &edges);
    Ok(())
}

#[test]
fn nodes_and_arguments_ascend(rt: HostRuntime) -> Result<(), Fail> {
    let alloc = rt.alloc();
    let shown = [
        "a",
        "b",
        "Z:0:2",
        "A:0:1",
        "A:1:2",
        "Z:0:2/A",
        "Z:0:2/B",
        "A:0:1/A",
        "Z:0:2/A/A",
    ];
    let mut all = args(alloc, &shown)?;
    let bindings = [
        (1, "E", [].as_slice()),
        (1, "E", ["b"].as_slice()),
        (1, "E", ["b", "b"].as_slice()),
        (1, "E", ["A:0:1"].as_slice()),
        (1, "F", [].as_slice()),
        (2, "A", [].as_slice()),
    ];
    for (rule, var, texts) in bindings {
        all.push(Arg::Node(new_node(alloc, rule, var, args(alloc, texts)?)?))?;
    }
    let inner = new_node(alloc, 2, "A", Vec::new(alloc))?;
    all.push(Arg::Node(nested(alloc, 1, "A", inner)?))?;
    assert_ascending(&rt, &all);
    Ok(())
}

fn assert_clones<T: Clone + PartialEq + Drop>(rt: &impl Abort, value: &T) -> Result<(), Fail> {
    assert!(rt; value.clone()? == *value);
    Ok(())
}

#[test]
fn clones_are_equal(rt: HostRuntime) -> Result<(), Fail> {
    let alloc = rt.alloc();
    assert_clones(&rt, &name(alloc, "man")?)?;
    assert_clones(&rt, &Name::default())?;
    assert_clones(&rt, &path(alloc, "A/B/C/D/E")?)?;
    assert_clones(&rt, &edge(alloc, "NP", 0, 2)?)?;
    let node = new_node(alloc, 1, "E", args(alloc, &["S:0:3", "pres"])?)?;
    assert_clones(&rt, &node)?;
    assert_clones(&rt, &Arg::Node(node))?;
    assert_clones(&rt, &arg(alloc, "man")?)?;
    assert_clones(&rt, &fact(alloc, "arg(S:0:3,1,SUBJ)")?)?;
    assert_clones(&rt, &List::new(alloc, args(alloc, &["a", "S:0:3"])?)?)?;
    Ok(())
}

#[test]
fn lists_have_their_items(rt: HostRuntime) -> Result<(), Fail> {
    let alloc = rt.alloc();
    let texts = ["a", "S:0:3"];
    let wanted = args(alloc, &texts)?;
    assert_eq!(rt;
        List::new(alloc, args(alloc, &texts)?)?.list(),
        wanted.as_slice()
    );
    let shared = Shared::new(alloc, args(alloc, &texts)?)?;
    assert_eq!(rt; shared.list(), wanted.as_slice());
    assert_eq!(rt; shared.clone()?.list(), wanted.as_slice());
    assert_eq!(rt; path(alloc, "A/B")?.list().len(), 2);
    Ok(())
}

#[test]
fn names_have_their_text(rt: HostRuntime) -> Result<(), Fail> {
    let word = name(rt.alloc(), "a man")?;
    assert_eq!(rt; word.text(), "a man");
    assert_eq!(rt; format!(in rt.alloc(); "{word}")?.as_str(), "a man");
    assert_eq!(rt; Name::default().text(), "");
    Ok(())
}
