//! Whole grammar files: their grammars as texts, and the first fault of those that have one.

use crate::load_grammar;
use lfg_terms::{Arrow, Des, Grammar, Graph, Item, Lex, List, Name, Path, Rule, Schema, Val};
use std::alloc::{AllocError, Global};
use std::process::Abort;
use std::test::Fail;

/// The strings of a path.
type Paths = List<Path>;

fn push(out: &mut String, text: &str) -> Result<(), AllocError> {
    out.push_str(text)?;
    Ok(())
}

/// Names with a space before each.
fn push_names(out: &mut String, names: &[Name]) -> Result<(), AllocError> {
    for name in names {
        push(out, " ")?;
        push(out, name.text())?;
    }
    Ok(())
}

/// The strings of the path, each as names between `<` and `>`.
fn push_des(out: &mut String, des: &Des<Paths>) -> Result<(), AllocError> {
    push(
        out,
        match des.arrow {
            Arrow::Up => "^",
            Arrow::Down => "!",
        },
    )?;
    let Some(paths) = &des.path else {
        return Ok(());
    };
    for path in paths.list() {
        push(out, "<")?;
        push_names(out, path.list())?;
        push(out, " >")?;
    }
    Ok(())
}

fn push_val(out: &mut String, val: &Val<Paths>) -> Result<(), AllocError> {
    match val {
        Val::Des(des) => push_des(out, des),
        Val::Atom(name) => push(out, name.text()),
        Val::Form(form) => {
            push(out, "'")?;
            push(out, form.name.text())?;
            push_names(out, form.inner.list())?;
            push(out, ";")?;
            push_names(out, form.outer.list())?;
            push(out, "'")
        }
    }
}

fn push_schema(out: &mut String, schema: &Schema<Paths>) -> Result<(), AllocError> {
    match schema {
        Schema::Define { left, right } => {
            push_des(out, left)?;
            push(out, "=")?;
            push_val(out, right)
        }
        Schema::Constrain {
            negated,
            left,
            right,
        } => {
            push_des(out, left)?;
            push(out, if *negated { "~=" } else { "=c" })?;
            push_val(out, right)
        }
        Schema::Exists { negated, left } => {
            push(out, if *negated { "no " } else { "some " })?;
            push_des(out, left)
        }
        Schema::Member { item, set } => {
            push_des(out, item)?;
            push(out, "$")?;
            push_des(out, set)
        }
        Schema::Mark(name) => {
            push(out, "mark ")?;
            push(out, name.text())
        }
        Schema::Either(branches) => {
            push(out, "{")?;
            for branch in branches {
                push(out, "|")?;
                for schema in branch {
                    push(out, " ")?;
                    push_schema(out, schema)?;
                }
            }
            push(out, "}")
        }
        Schema::Maybe(schemata) => {
            push(out, "(")?;
            for schema in schemata {
                push(out, " ")?;
                push_schema(out, schema)?;
            }
            push(out, ")")
        }
        Schema::Call { name, args } => {
            push(out, "@")?;
            push(out, name.text())?;
            push_names(out, args.list())
        }
    }
}

/// Schemata between brackets, with a space before each.
fn push_schemata(out: &mut String, schemata: &[Schema<Paths>]) -> Result<(), AllocError> {
    push(out, " [")?;
    for schema in schemata {
        push(out, " ")?;
        push_schema(out, schema)?;
    }
    push(out, " ]")
}

fn push_item(out: &mut String, item: &Item) -> Result<(), AllocError> {
    push(out, " ")?;
    match &item.cat {
        Some(cat) => push(out, cat.text())?,
        None => push(out, "e")?,
    }
    push_schemata(out, item.schemata.list())
}

/// The number of places; then the start, which is 0, and each place with those that may come next.
fn push_graph(out: &mut String, alloc: Global, graph: &Graph) -> Result<(), AllocError> {
    push(out, format!(in alloc; "{} places; 0", graph.size)?.as_str())?;
    for place in graph.first.list() {
        push(out, format!(in alloc; " {place}")?.as_str())?;
    }
    for (number, (next, last)) in graph
        .next
        .list()
        .iter()
        .zip(graph.last.list().iter())
        .enumerate()
    {
        push(out, format!(in alloc; "; {}", number + 1)?.as_str())?;
        for place in next.list() {
            push(out, format!(in alloc; " {place}")?.as_str())?;
        }
        if *last {
            push(out, " end")?;
        }
    }
    push(out, "\n")
}

fn push_rule(out: &mut String, alloc: Global, rule: &Rule) -> Result<(), AllocError> {
    push(out, rule.cat.text())?;
    push(out, " ->")?;
    for item in rule.items.list() {
        push_item(out, item)?;
    }
    push(out, "\n")?;
    push_graph(out, alloc, &rule.graph)
}

fn push_word(out: &mut String, word: &Lex) -> Result<(), AllocError> {
    push(out, word.form.text())?;
    push(out, " ")?;
    push(out, word.cat.text())?;
    push_schemata(out, word.schemata.list())?;
    push(out, "\n")
}

/// The whole grammar as a text.
fn text_of(alloc: Global, grammar: &Grammar) -> Result<String, AllocError> {
    let root = grammar.root.text();
    let mut out = format!(in alloc; "{root} {} {}\ngoverned", grammar.gensize, grammar.maxfacts)?;
    push_names(&mut out, grammar.governable.list())?;
    push(&mut out, "\ncategories")?;
    push_names(&mut out, grammar.cats.list())?;
    push(&mut out, "\n")?;
    for rule in grammar.rules.list() {
        push_rule(&mut out, alloc, rule)?;
    }
    for word in grammar.lexicon.list() {
        push_word(&mut out, word)?;
    }
    Ok(out)
}

/// The grammar of the file as a text, or its fault.
fn shown(rt: &impl Abort, alloc: Global, bytes: &[u8]) -> Result<String, Fail> {
    assert!(rt; bytes.len() <= 4_194_304);
    match load_grammar(alloc, bytes) {
        Ok(grammar) => Ok(text_of(alloc, &grammar)?),
        Err(fault) => Ok(format!(in alloc; "{fault}")?),
    }
}

/// A grammar of noun phrases and intransitive verbs.
const P: &str = "TOY P CONFIG (1.0)
ROOTCAT S.
----
TOY P RULES (1.0)
S --> NP: (^ SUBJ)=!; VP.
NP --> D N.
VP --> V.
----
TOY P LEXICON (1.0)
the D * (^ DEF)=yes.
man N * (^ NUM)=sg.
walks V * (^ SUBJ NUM)=sg (^ TENSE)=pres.
----
";

/// A grammar with options and two readings of a word.
const A: &str = "TOY A CONFIG (1.0)
ROOTCAT S.
GOVERNABLERELATIONS SUBJ OBJ.
----
TOY A RULES (1.0)
S --> NP: (^ SUBJ)=!; VP.
NP --> (D) N.
VP --> V (NP: (^ OBJ)=!).
----
TOY A LEXICON (1.0)
the D * (^ DEF)=yes.
man N * (^ PRED)='man' (^ NUM)=sg.
deer N * (^ PRED)='deer'.
sheep N * (^ PRED)='sheep' (^ NUM)=sg;
      N * (^ PRED)='sheep' (^ NUM)=pl.
walks V * (^ PRED)='walk<(^ SUBJ)>' (^ SUBJ NUM)=sg.
runs V * (^ PRED)='run<(^ SUBJ)>' (^ SUBJ NUM)=c sg.
slept V * (^ PRED)='sleep<(^ SUBJ)>'.
sees V * (^ PRED)='see<(^ SUBJ)(^ OBJ)>' (^ SUBJ NUM)=sg.
----
";

/// What `A` says.
const A_SHOWN: &str = "S 60 200000
governed SUBJ OBJ
categories D N NP S V VP
S -> NP [ ^< SUBJ >=! ] VP [ ^=! ]
2 places; 0 1; 1 2; 2 end
NP -> D [ ^=! ] N [ ^=! ]
2 places; 0 1 2; 1 2; 2 end
VP -> V [ ^=! ] NP [ ^< OBJ >=! ]
2 places; 0 1; 1 2 end; 2 end
the D [ ^< DEF >=yes ]
man N [ ^< PRED >='man;' ^< NUM >=sg ]
deer N [ ^< PRED >='deer;' ]
sheep N [ ^< PRED >='sheep;' ^< NUM >=sg ]
sheep N [ ^< PRED >='sheep;' ^< NUM >=pl ]
walks V [ ^< PRED >='walk SUBJ;' ^< SUBJ NUM >=sg ]
runs V [ ^< PRED >='run SUBJ;' ^< SUBJ NUM >=csg ]
slept V [ ^< PRED >='sleep SUBJ;' ]
sees V [ ^< PRED >='see SUBJ OBJ;' ^< SUBJ NUM >=sg ]
";

/// A grammar with alternatives, repetition, memberships, templates and their calls.
const EN: &str = "DEMO ENGLISH CONFIG (1.0)
ROOTCAT S.
GOVERNABLERELATIONS SUBJ OBJ.
----
DEMO ENGLISH RULES (1.0)
S --> NP: (^ SUBJ)=!; VP.
NP --> {PN | D N} PP*: ! $ (^ ADJUNCT).
VP --> V (NP: (^ OBJ)=!) PP*: ! $ (^ ADJUNCT).
PP --> P NP: (^ OBJ)=!.
----
DEMO ENGLISH TEMPLATES (1.0)
PRES = (^ TENSE)=pres (^ SUBJ NUM)=sg (^ SUBJ PERS)=3.
NOUN(P) = (^ PRED)='P' (^ NUM)=sg (^ PERS)=3.
INTRANS(P) = (^ PRED)='P<(^ SUBJ)>'.
TRANS(P) = (^ PRED)='P<(^ SUBJ)(^ OBJ)>'.
----
DEMO ENGLISH LEXICON (1.0)
Mary PN * @(NOUN Mary) (^ GEND)=fem.
man N * @(NOUN man).
park N * @(NOUN park).
the D * (^ DEF)=yes.
in P * (^ PRED)='in<(^ OBJ)>'.
sleeps V * @(INTRANS sleep) @PRES.
sees V * @(TRANS see) @PRES.
----
";

/// What `EN` says.
const EN_SHOWN: &str = "S 60 200000
governed SUBJ OBJ
categories D N NP P PN PP S V VP
S -> NP [ ^< SUBJ >=! ] VP [ ^=! ]
2 places; 0 1; 1 2; 2 end
NP -> PN [ ^=! ] D [ ^=! ] N [ ^=! ] PP [ !$^< ADJUNCT > ]
4 places; 0 1 2; 1 4 end; 2 3; 3 4 end; 4 4 end
VP -> V [ ^=! ] NP [ ^< OBJ >=! ] PP [ !$^< ADJUNCT > ]
3 places; 0 1; 1 2 3 end; 2 3 end; 3 3 end
PP -> P [ ^=! ] NP [ ^< OBJ >=! ]
2 places; 0 1; 1 2; 2 end
Mary PN [ ^< PRED >='Mary;' ^< NUM >=sg ^< PERS >=3 ^< GEND >=fem ]
man N [ ^< PRED >='man;' ^< NUM >=sg ^< PERS >=3 ]
park N [ ^< PRED >='park;' ^< NUM >=sg ^< PERS >=3 ]
the D [ ^< DEF >=yes ]
in P [ ^< PRED >='in OBJ;' ]
sleeps V [ ^< PRED >='sleep SUBJ;' ^< TENSE >=pres ^< SUBJ NUM >=sg ^< SUBJ PERS >=3 ]
sees V [ ^< PRED >='see SUBJ OBJ;' ^< TENSE >=pres ^< SUBJ NUM >=sg ^< SUBJ PERS >=3 ]
";

#[test]
fn whole_files_have_their_grammars(rt: HostRuntime) -> Result<(), Fail> {
    for (text, wanted) in [(A, A_SHOWN), (EN, EN_SHOWN)] {
        let seen = shown(&rt, rt.alloc(), text.as_bytes())?;
        assert_eq!(rt; seen.as_str(), wanted);
    }
    Ok(())
}

/// A grammar with a path of several strings.
const Q: &str = "TOY Q CONFIG (1.0)
ROOTCAT S.
UNCERTAINTYDEPTH 3.
GOVERNABLERELATIONS SUBJ OBJ COMP.
----
TOY Q RULES (1.0)
S --> W: (^ COMP* OBJ)=!; C.
C --> N: (^ SUBJ)=!; V (C: (^ COMP)=!).
----
TOY Q LEXICON (1.0)
whom W * (^ PRED)='who'.
kim N * (^ PRED)='kim'.
says V * (^ PRED)='say<(^ SUBJ)(^ COMP)>'.
sees V * (^ PRED)='see<(^ SUBJ)(^ OBJ)>'.
----
";

/// A grammar whose only rule calls itself, and the same for generation.
const L: &str = "TOY L CONFIG (1.0)
ROOTCAT L.
----
TOY L RULES (1.0)
L --> W: (^ FIRST)=!; (L: (^ REST)=!).
----
TOY L LEXICON (1.0)
w W * (^ K)=a; W * (^ K)=b.
----
";

const M: &str = "TOY L CONFIG (1.0)
ROOTCAT L.
GENSIZE 120.
----
TOY L RULES (1.0)
L --> W: (^ FIRST)=!; (L: (^ REST)=!).
----
TOY L LEXICON (1.0)
v W * (^ K)= c.
----
";

/// German grammars.
const DE: &str = "DEMO GERMAN CONFIG (1.0)
ROOTCAT S.
GOVERNABLERELATIONS SUBJ OBJ.
----
DEMO GERMAN RULES (1.0)
S --> NP: (^ SUBJ)=!; VP.
NP --> PN.
VP --> V.
----
DEMO GERMAN LEXICON (1.0)
Maria PN * (^ PRED)='Maria' (^ NUM)=sg (^ PERS)=3.
schl\u{e4}ft V * (^ PRED)='schlafen<(^ SUBJ)>' (^ TENSE)=pres
  (^ SUBJ NUM)=sg (^ SUBJ PERS)=3.
----
";

const PT: &str = "TOY P CONFIG (1.0)
ROOTCAT S.
GENSIZE 60.
----
TOY P RULES (1.0)
S --> NP: (^ SUBJ)=!; VP.
NP --> D N.
VP --> V.
----
TOY P LEXICON (1.0)
der D * (^ DEF)=yes.
ein D * (^ DEF)=no.
mann N * (^ NUM)=sg.
geht V * (^ SUBJ NUM)=sg (^ TENSE)=pres.
----
";

/// `P` with a tense of another path.
const PE: &str = "TOY P CONFIG (1.0)
ROOTCAT S.
----
TOY P RULES (1.0)
S --> NP: (^ SUBJ)=!; VP.
NP --> D N.
VP --> V.
----
TOY P LEXICON (1.0)
der D * (^ DEF)=yes.
ein D * (^ DEF)=no.
mann N * (^ NUM)=sg.
geht V * (^ SUBJ NUM)=sg (^ EVENT TIME)=pres.
----
";

#[test]
fn files_without_a_fault_are_accepted(rt: HostRuntime) -> Result<(), Fail> {
    for (text, first) in [
        (P, "S 60 200000"),
        (PT, "S 60 200000"),
        (PE, "S 60 200000"),
        (Q, "S 60 200000"),
        (L, "L 60 200000"),
        (M, "L 120 200000"),
        (DE, "S 60 200000"),
    ] {
        let seen = shown(&rt, rt.alloc(), text.as_bytes())?;
        assert_eq!(rt; seen.as_str().lines().next(), Some(first));
    }
    Ok(())
}

/// Asserts what `P` gives with each of these texts in the place of another.
fn assert_changed(
    rt: &(impl Abort + AllocGlobal),
    rows: &[(&str, &str, &str)],
) -> Result<(), Fail> {
    for (old, new, wanted) in rows {
        let text = P.replace(rt.alloc(), old, new)?;
        let seen = shown(rt, rt.alloc(), text.as_bytes())?;
        assert_eq!(rt; seen.as_str(), *wanted);
    }
    Ok(())
}

/// The divider behind the rules, and the beginning of the lexicon.
const LEXICON: &str = "----\nTOY P LEXICON (1.0)";

#[test]
fn files_with_a_fault_are_refused_by_it(rt: HostRuntime) -> Result<(), Fail> {
    assert_changed(
        &rt,
        &[
            ("TOY P CONFIG", "#TOY P CONFIG", "NoToken 0"),
            ("pres.\n----", "pres.", "Section 3"),
            ("NP --> D N", "NP --> D. N", "Entry 4"),
            ("ROOTCAT S", "GENSIZE 5", "Config 0"),
            ("ROOTCAT S.", "ROOTCAT S. GENSIZE 401.", "Config 2"),
            ("ROOTCAT S.", "ROOTCAT S. GENSIZE 0.", "Config 2"),
            ("ROOTCAT S.", "ROOTCAT S. UNCERTAINTYDEPTH 9.", "Config 2"),
            ("ROOTCAT S.", "ROOTCAT S. MAXFACTS 200001.", "Config 2"),
            ("ROOTCAT S.", "ROOTCAT S. ROOTCAT NP.", "Config 2"),
            ("VP --> V.", "VP --> V. VP --> V D.", "Repeated VP"),
            ("man N", "the N *. man N", "Repeated the"),
            (
                LEXICON,
                "---- TOY P TEMPLATES (1.0) T(X X) = (^ X)=b. ---- TOY P LEXICON (1.0)",
                "Repeated T",
            ),
            ("walks V *", "walks V * @(X sg)", "Undefined X"),
            (
                LEXICON,
                "---- TOY P TEMPLATES (1.0) T = @(T x). ---- TOY P LEXICON (1.0)",
                "Arity T",
            ),
            (
                LEXICON,
                "---- TOY P TEMPLATES (1.0) T = @T. ---- TOY P LEXICON (1.0)",
                "TemplateCycle T",
            ),
            ("(^ NUM)=sg.", "(^ [A B C D]+)=x.", "NoPath 6"),
            (
                "(^ NUM)=sg.",
                "(^ {A | B | C | D | E | F | G} {A | B | C | D | E | F | G} {A | B | C | D | E | F | G})=x.",
                "TooManyPaths 6",
            ),
            ("VP --> V.", "VP --> V e*.", "EmptyStar VP"),
            ("VP --> V.", "VP --> (V).", "EmptyRule VP"),
            ("walks", "x VP * (^ A)=b. walks", "Both VP"),
            ("VP --> V.", "VP --> V: (^ TENSE)=pres.", "Unlinked VP"),
            ("VP --> V.", "VP --> V: { ^=! | (^ A)=b }.", "Unlinked VP"),
            ("VP --> V.", "VP --> V: ( ^=! ).", "Unlinked VP"),
        ],
    )?;
    let seen = shown(&rt, rt.alloc(), b"\xff")?;
    assert_eq!(rt; seen.as_str(), "NotUtf8 0");
    Ok(())
}

#[test]
fn the_first_of_several_faults_is_told(rt: HostRuntime) -> Result<(), Fail> {
    assert_changed(
        &rt,
        &[
            ("NP --> D N.", "# NP --> D. N.", "NoToken 79"),
            ("(^ TENSE)=pres.\n----", "x. y", "Section 3"),
            (
                "ROOTCAT S.\n----\nTOY P RULES (1.0)\nS",
                "GENSIZE 0.\n----\nTOY P RULES (1.0)\nS S",
                "Entry 2",
            ),
            ("ROOTCAT S.", "GENSIZE 0. GENSIZE 401.", "Config 1"),
            ("ROOTCAT S.", "GENSIZE 60. GENSIZE 60.", "Config 2"),
            ("the D *", "the D * @X. the N *", "Repeated the"),
            (
                LEXICON,
                "---- TOY P TEMPLATES (1.0) T = @T @X. ---- TOY P LEXICON (1.0)",
                "Undefined X",
            ),
            (
                LEXICON,
                "---- TOY P TEMPLATES (1.0) T = @(T x). U = @U. ---- TOY P LEXICON (1.0)",
                "Arity T",
            ),
            (
                "V.\n----",
                "V: (^ [A B C D]+)=!. D --> e*.\n----",
                "NoPath 4",
            ),
            ("VP --> V.", "VP --> (V). NP2 --> V e*.", "EmptyRule VP"),
            ("VP --> V.", "VP --> V e*. D --> N.", "EmptyStar VP"),
            ("VP --> V.", "VP --> VP. D --> N.", "Both D"),
            ("VP --> V.", "VP --> VP: (^ A)=b.", "UnaryCycle VP"),
            (
                "VP --> V.",
                "VP --> V: (^ A)=b. X --> V: (^ A)=b.",
                "Unlinked VP",
            ),
            (
                "VP --> V.",
                "X --> V: (^ A)=b. VP --> V: (^ A)=b.",
                "Unlinked X",
            ),
        ],
    )
}

#[test]
fn only_daughters_lead_to_unary_cycles(rt: HostRuntime) -> Result<(), Fail> {
    let rules = "S --> NP: (^ SUBJ)=!; VP.\nNP --> D N.\nVP --> V.";
    assert_changed(
        &rt,
        &[
            (rules, "S --> B. B --> A. A --> B (C).", "UnaryCycle B"),
            (
                rules,
                "S --> B. B --> A. A --> C. C --> (e) {B | D}.",
                "UnaryCycle B",
            ),
        ],
    )
}

#[test]
fn grammars_next_to_a_fault_are_accepted(rt: HostRuntime) -> Result<(), Fail> {
    let rules = "S --> NP: (^ SUBJ)=!; VP.\nNP --> D N.\nVP --> V.";
    for (old, new) in [
        (rules, "S --> B. B --> A. A --> B C."),
        (
            "ROOTCAT S.",
            "ROOTCAT S. UNCERTAINTYDEPTH 8. GENSIZE 60. MAXFACTS 200000.",
        ),
        ("VP --> V.", "VP --> e (VP) V."),
        (
            "VP --> V.",
            "VP --> V: { (^ A)=! | ! $ (^ A) | ! $ ^ | !=^ | !=(^ A) }.",
        ),
        ("VP --> V.", "VP --> V: (^=!) (^ A)=!."),
        ("(^ NUM)=sg.", "(^ [A B C]+)=x."),
    ] {
        let text = P.replace(rt.alloc(), old, new)?;
        let seen = shown(&rt, rt.alloc(), text.as_bytes())?;
        assert_eq!(rt; seen.as_str().lines().next(), Some("S 60 200000"));
    }
    Ok(())
}

/// Templates of which each is two calls of the next.
const DOUBLED: &str = "---- TOY P TEMPLATES (1.0)
T = @A @A. A = @B @B. B = @C @C. C = @D @D. D = @E @E. E = @F @F. F = @G @G. G = @H @H.
H = @I @I. I = @J @J. J = @K @K. K = @L @L. L = @M @M. M = @N @N. N = @O @O. O = @P @P.
P = @Q @Q. Q = @R @R. R = @S @S. S = (^ A)=b.
---- TOY P LEXICON (1.0) a D * @T.";

#[test]
fn too_many_schemata_are_refused(rt: HostRuntime) -> Result<(), Fail> {
    assert_changed(&rt, &[(LEXICON, DOUBLED, "TooMuch 25")])
}
