//! Drafts of whole files and of single entries, as texts, and the faults of files that are none.

use super::*;
use lfg_terms::{Arrow, Des, Draft, Name, PathExpr, Rhs, Schema, Val};
use std::alloc::{AllocError, Global};
use std::process::Abort;
use std::test::Fail;

fn push(out: &mut String, text: &str) -> Result<(), AllocError> {
    out.push_str(text)?;
    Ok(())
}

/// Names with a space before each.
fn push_names(out: &mut String, names: &[Name]) -> Result<(), AllocError> {
    for name in names {
        push(out, " ")?;
        push(out, name.text())?;
    }
    Ok(())
}

fn push_path(out: &mut String, path: &PathExpr) -> Result<(), AllocError> {
    match path {
        PathExpr::Attr(name) => push(out, name.text()),
        PathExpr::Row(parts) => {
            push(out, "<")?;
            for part in parts {
                push(out, " ")?;
                push_path(out, part)?;
            }
            push(out, ">")
        }
        PathExpr::OneOf(branches) => {
            push(out, "{")?;
            for branch in branches {
                push(out, " ")?;
                push_path(out, branch)?;
            }
            push(out, "}")
        }
        PathExpr::Star(inside) => {
            push_path(out, inside)?;
            push(out, "*")
        }
        PathExpr::Plus(inside) => {
            push_path(out, inside)?;
            push(out, "+")
        }
    }
}

fn push_des(out: &mut String, des: &Des<PathExpr>) -> Result<(), AllocError> {
    match des.arrow {
        Arrow::Up => push(out, "^")?,
        Arrow::Down => push(out, "!")?,
    }
    match &des.path {
        Some(path) => push_path(out, path),
        None => Ok(()),
    }
}

fn push_val(out: &mut String, val: &Val<PathExpr>) -> Result<(), AllocError> {
    match val {
        Val::Des(des) => push_des(out, des),
        Val::Atom(name) => push(out, name.text()),
        Val::Form(form) => {
            push(out, "'")?;
            push(out, form.name.text())?;
            push_names(out, form.inner.list())?;
            push(out, ";")?;
            push_names(out, form.outer.list())?;
            push(out, "'")
        }
    }
}

fn push_schema(out: &mut String, schema: &Schema<PathExpr>) -> Result<(), AllocError> {
    match schema {
        Schema::Define { left, right } => {
            push_des(out, left)?;
            push(out, "=")?;
            push_val(out, right)
        }
        Schema::Constrain {
            negated,
            left,
            right,
        } => {
            push_des(out, left)?;
            push(out, if *negated { "~=" } else { "=c" })?;
            push_val(out, right)
        }
        Schema::Exists { negated, left } => {
            push(out, if *negated { "no " } else { "some " })?;
            push_des(out, left)
        }
        Schema::Member { item, set } => {
            push_des(out, item)?;
            push(out, "$")?;
            push_des(out, set)
        }
        Schema::Mark(name) => {
            push(out, "mark ")?;
            push(out, name.text())
        }
        Schema::Either(branches) => {
            push(out, "{")?;
            for branch in branches {
                push(out, "|")?;
                for schema in branch {
                    push(out, " ")?;
                    push_schema(out, schema)?;
                }
            }
            push(out, "}")
        }
        Schema::Maybe(schemata) => {
            push(out, "(")?;
            for schema in schemata {
                push(out, " ")?;
                push_schema(out, schema)?;
            }
            push(out, ")")
        }
        Schema::Call { name, args } => {
            push(out, "@")?;
            push(out, name.text())?;
            push_names(out, args.list())
        }
    }
}

/// Schemata with a space before each.
fn push_schemata(out: &mut String, schemata: &[Schema<PathExpr>]) -> Result<(), AllocError> {
    for schema in schemata {
        push(out, " ")?;
        push_schema(out, schema)?;
    }
    Ok(())
}

fn push_item(
    out: &mut String,
    cat: &Name,
    schemata: &Option<Vec<Schema<PathExpr>>>,
) -> Result<(), AllocError> {
    push(out, cat.text())?;
    let Some(schemata) = schemata else {
        return Ok(());
    };
    push(out, ":[")?;
    push_schemata(out, schemata)?;
    push(out, "]")
}

fn push_side(out: &mut String, side: &Rhs) -> Result<(), AllocError> {
    match side {
        Rhs::Item { cat, schemata } => push_item(out, cat, schemata),
        Rhs::Row(parts) => {
            push(out, "<")?;
            for part in parts {
                push(out, " ")?;
                push_side(out, part)?;
            }
            push(out, ">")
        }
        Rhs::OneOf(branches) => {
            push(out, "{")?;
            for branch in branches {
                push(out, " ")?;
                push_side(out, branch)?;
            }
            push(out, "}")
        }
        Rhs::Maybe(inside) => {
            push(out, "(")?;
            push_side(out, inside)?;
            push(out, ")")
        }
        Rhs::Star(inside) => {
            push_side(out, inside)?;
            push(out, "*")
        }
        Rhs::Plus(inside) => {
            push_side(out, inside)?;
            push(out, "+")
        }
    }
}

fn push_number(out: &mut String, alloc: Global, number: u32) -> Result<(), AllocError> {
    let text = format!(in alloc; "{number} ")?;
    push(out, text.as_str())
}

fn push_settings(out: &mut String, alloc: Global, draft: &Draft) -> Result<(), AllocError> {
    for setting in draft.settings.list() {
        push_number(out, alloc, setting.entry)?;
        push(out, setting.key.text())?;
        push_names(out, setting.words.list())?;
        push(out, "\n")?;
    }
    Ok(())
}

fn push_rules(out: &mut String, alloc: Global, draft: &Draft) -> Result<(), AllocError> {
    for rule in draft.rules.list() {
        push_number(out, alloc, rule.entry)?;
        push(out, rule.cat.text())?;
        push(out, " -> ")?;
        push_side(out, &rule.rhs)?;
        push(out, "\n")?;
    }
    Ok(())
}

fn push_templates(out: &mut String, alloc: Global, draft: &Draft) -> Result<(), AllocError> {
    for template in draft.templates.list() {
        push_number(out, alloc, template.entry)?;
        push(out, template.name.text())?;
        push_names(out, template.params.list())?;
        push(out, " =")?;
        push_schemata(out, template.body.list())?;
        push(out, "\n")?;
    }
    Ok(())
}

fn push_words(out: &mut String, alloc: Global, draft: &Draft) -> Result<(), AllocError> {
    for word in draft.entries.list() {
        push_number(out, alloc, word.entry)?;
        push(out, word.form.text())?;
        push(out, " ")?;
        push(out, word.cat.text())?;
        push(out, " *")?;
        push_schemata(out, word.schemata.list())?;
        push(out, "\n")?;
    }
    Ok(())
}

/// The draft of the bytes as a text, or the fault.
fn shown(rt: &impl Abort, alloc: Global, bytes: &[u8]) -> Result<String, Fail> {
    assert!(rt; bytes.len() <= 4_194_304);
    let draft = match read_grammar_text(alloc, bytes) {
        Ok(draft) => draft,
        Err(fault) => return Ok(format!(in alloc; "{fault}")?),
    };
    let mut out = String::new(alloc);
    push_settings(&mut out, alloc, &draft)?;
    push_rules(&mut out, alloc, &draft)?;
    push_templates(&mut out, alloc, &draft)?;
    push_words(&mut out, alloc, &draft)?;
    Ok(out)
}

#[test]
fn bytes_that_are_no_file_have_their_first_fault(rt: HostRuntime) -> Result<(), Fail> {
    for (bytes, wanted) in [
        (b"".as_slice(), "section 1 is none"),
        (b"\xffTOY P CONFIG (1.0)", "not UTF-8 at byte 0"),
        (b"A\xc3", "not UTF-8 at byte 1"),
        (b"#", "no token begins at byte 0"),
        (b"A \"b", "no token begins at byte 2"),
        (b"A # \xff", "not UTF-8 at byte 4"),
    ] {
        let seen = shown(&rt, rt.alloc(), bytes)?;
        assert_eq!(rt; seen.as_str(), wanted);
    }
    Ok(())
}

/// A grammar with options, two readings of a word and forms.
const A: &str = "TOY A CONFIG (1.0)
ROOTCAT S.
GOVERNABLERELATIONS SUBJ OBJ.
----
TOY A RULES (1.0)
S --> NP: (^ SUBJ)=!; VP.
NP --> (D) N.
VP --> V (NP: (^ OBJ)=!).
----
TOY A LEXICON (1.0)
the D * (^ DEF)=yes.
man N * (^ PRED)='man' (^ NUM)=sg.
deer N * (^ PRED)='deer'.
sheep N * (^ PRED)='sheep' (^ NUM)=sg;
      N * (^ PRED)='sheep' (^ NUM)=pl.
walks V * (^ PRED)='walk<(^ SUBJ)>' (^ SUBJ NUM)=sg.
runs V * (^ PRED)='run<(^ SUBJ)>' (^ SUBJ NUM)=c sg.
slept V * (^ PRED)='sleep<(^ SUBJ)>'.
sees V * (^ PRED)='see<(^ SUBJ)(^ OBJ)>' (^ SUBJ NUM)=sg.
----
";

/// What `A` says.
const A_SHOWN: &str = "1 ROOTCAT S
2 GOVERNABLERELATIONS SUBJ OBJ
3 S -> < NP:[ ^< SUBJ>=!] VP>
4 NP -> < (< D>) N>
5 VP -> < V (< NP:[ ^< OBJ>=!]>)>
6 the D * ^< DEF>=yes
7 man N * ^< PRED>='man;' ^< NUM>=sg
8 deer N * ^< PRED>='deer;'
9 sheep N * ^< PRED>='sheep;' ^< NUM>=sg
9 sheep N * ^< PRED>='sheep;' ^< NUM>=pl
10 walks V * ^< PRED>='walk SUBJ;' ^< SUBJ NUM>=sg
11 runs V * ^< PRED>='run SUBJ;' ^< SUBJ NUM>=csg
12 slept V * ^< PRED>='sleep SUBJ;'
13 sees V * ^< PRED>='see SUBJ OBJ;' ^< SUBJ NUM>=sg
";

/// A grammar with alternatives, repetition, memberships, templates and their calls.
const EN: &str = "DEMO ENGLISH CONFIG (1.0)
ROOTCAT S.
GOVERNABLERELATIONS SUBJ OBJ.
----
DEMO ENGLISH RULES (1.0)
S --> NP: (^ SUBJ)=!; VP.
NP --> {PN | D N} PP*: ! $ (^ ADJUNCT).
VP --> V (NP: (^ OBJ)=!) PP*: ! $ (^ ADJUNCT).
PP --> P NP: (^ OBJ)=!.
----
DEMO ENGLISH TEMPLATES (1.0)
PRES = (^ TENSE)=pres (^ SUBJ NUM)=sg (^ SUBJ PERS)=3.
NOUN(P) = (^ PRED)='P' (^ NUM)=sg (^ PERS)=3.
INTRANS(P) = (^ PRED)='P<(^ SUBJ)>'.
TRANS(P) = (^ PRED)='P<(^ SUBJ)(^ OBJ)>'.
----
DEMO ENGLISH LEXICON (1.0)
Mary PN * @(NOUN Mary) (^ GEND)=fem.
man N * @(NOUN man).
park N * @(NOUN park).
the D * (^ DEF)=yes.
in P * (^ PRED)='in<(^ OBJ)>'.
sleeps V * @(INTRANS sleep) @PRES.
sees V * @(TRANS see) @PRES.
----
";

/// What `EN` says.
const EN_SHOWN: &str = "1 ROOTCAT S
2 GOVERNABLERELATIONS SUBJ OBJ
3 S -> < NP:[ ^< SUBJ>=!] VP>
4 NP -> < { < PN> < D N>} PP:[ !$^< ADJUNCT>]*>
5 VP -> < V (< NP:[ ^< OBJ>=!]>) PP:[ !$^< ADJUNCT>]*>
6 PP -> < P NP:[ ^< OBJ>=!]>
7 PRES = ^< TENSE>=pres ^< SUBJ NUM>=sg ^< SUBJ PERS>=3
8 NOUN P = ^< PRED>='P;' ^< NUM>=sg ^< PERS>=3
9 INTRANS P = ^< PRED>='P SUBJ;'
10 TRANS P = ^< PRED>='P SUBJ OBJ;'
11 Mary PN * @NOUN Mary ^< GEND>=fem
12 man N * @NOUN man
13 park N * @NOUN park
14 the D * ^< DEF>=yes
15 in P * ^< PRED>='in OBJ;'
16 sleeps V * @INTRANS sleep @PRES
17 sees V * @TRANS see @PRES
";

#[test]
fn whole_files_have_their_drafts(rt: HostRuntime) -> Result<(), Fail> {
    for (text, wanted) in [(A, A_SHOWN), (EN, EN_SHOWN)] {
        let seen = shown(&rt, rt.alloc(), text.as_bytes())?;
        assert_eq!(rt; seen.as_str(), wanted);
    }
    Ok(())
}

#[test]
fn texts_are_cut_into_sections_and_entries(rt: HostRuntime) -> Result<(), Fail> {
    for (text, wanted) in [
        // no divider, no heading, a kind again, no CONFIG
        ("A B CONFIG (1.0) ROOTCAT S.", "section 1 is none"),
        (
            "A B CONFIG (1.0) ---- A B RULES (1.0) S --> A. ---- x",
            "section 3 is none",
        ),
        ("A B CONFIG (1.1) ----", "section 1 is none"),
        ("A B CONFIG (2.0) ----", "section 1 is none"),
        ("A CONFIG (1.0) ----", "section 1 is none"),
        ("A B config (1.0) ----", "section 1 is none"),
        ("A B CONFIG 1.0 ----", "section 1 is none"),
        ("A B CONFIG (1 0) ----", "section 1 is none"),
        ("----", "section 1 is none"),
        (
            "A B CONFIG (1.0) ---- A B CONFIG (1.0) ----",
            "section 2 is none",
        ),
        (
            "A B RULES (1.0) ---- A B LEXICON (1.0) ----",
            "section 3 is none",
        ),
        // a fault of a section comes before one of an entry
        (
            "A B CONFIG (1.0) X. ---- A B CONFIG (1.0) ----",
            "section 2 is none",
        ),
        ("A B CONFIG (1.0) X. ----", "entry 1 is none"),
        // sections in any order, entries numbered on
        (
            "A B LEXICON (1.0) a N *. ---- in_set e CONFIG (1.0) ROOTCAT S. ----",
            "2 ROOTCAT S\n1 a N *\n",
        ),
        ("A B CONFIG (1.0) ----", ""),
        ("A B C`O`N`F`I`G (`1.0) ROOTCAT `S. ----", "1 ROOTCAT S\n"),
        // an entry that is not ended, and an empty one
        (
            "A B CONFIG (1.0) ROOTCAT S. GENSIZE 5 ----",
            "entry 2 is none",
        ),
        ("A B CONFIG (1.0) ROOTCAT S.. ----", "entry 2 is none"),
        (
            "A B LEXICON (1.0) . ---- A B CONFIG (1.0) X. ----",
            "entry 1 is none",
        ),
    ] {
        let seen = shown(&rt, rt.alloc(), text.as_bytes())?;
        assert_eq!(rt; seen.as_str(), wanted);
    }
    Ok(())
}

#[test]
fn settings_are_read(rt: HostRuntime) -> Result<(), Fail> {
    for (entry, wanted) in [
        ("ROOTCAT S", "1 ROOTCAT S\n"),
        ("ROOTCAT", "entry 1 is none"),
        ("ROOTCAT S T", "entry 1 is none"),
        ("ROOTCAT e", "entry 1 is none"),
        ("ROOTCAT in_set", "entry 1 is none"),
        ("UNCERTAINTYDEPTH 3", "1 UNCERTAINTYDEPTH 3\n"),
        ("GENSIZE 0099", "1 GENSIZE 0099\n"),
        ("MAXFACTS 200001", "1 MAXFACTS 200001\n"),
        ("MAXFACTS 2a", "entry 1 is none"),
        ("GENSIZE", "entry 1 is none"),
        ("GENSIZE +", "entry 1 is none"),
        ("GOVERNABLERELATIONS SUBJ", "1 GOVERNABLERELATIONS SUBJ\n"),
        ("GOVERNABLERELATIONS", "entry 1 is none"),
        ("GOVERNABLERELATIONS A (B)", "entry 1 is none"),
        ("SEMANTICFUNCTIONS A B", "1 SEMANTICFUNCTIONS A B\n"),
        ("SEMANTICFUNCTIONS", "entry 1 is none"),
        ("RULES (A B)", "1 RULES A B\n"),
        ("TEMPLATES (A B) (C D)", "1 TEMPLATES A B C D\n"),
        ("LEXENTRIES (A B)", "1 LEXENTRIES A B\n"),
        ("RULES", "entry 1 is none"),
        ("RULES (A B) C", "entry 1 is none"),
        ("RULES (A)", "entry 1 is none"),
        ("EPSILON e", "1 EPSILON e\n"),
        ("EPSILON f", "entry 1 is none"),
        ("CHARACTERENCODING utf-8", "1 CHARACTERENCODING utf-8\n"),
        ("CHARACTERENCODING utf8", "entry 1 is none"),
        ("OTHER A", "entry 1 is none"),
    ] {
        let text = format!(in rt.alloc(); "A B CONFIG (1.0) {entry}. ----")?;
        let seen = shown(&rt, rt.alloc(), text.as_str().as_bytes())?;
        assert_eq!(rt; seen.as_str(), wanted);
    }
    Ok(())
}

#[test]
fn rules_are_read(rt: HostRuntime) -> Result<(), Fail> {
    for (entry, wanted) in [
        ("S --> A", "1 S -> < A>\n"),
        ("S --> A* B+ e;", "1 S -> < A* B+ e>\n"),
        (
            "S --> A: ^=!; B: (^ X)=!",
            "1 S -> < A:[ ^=!] B:[ ^< X>=!]>\n",
        ),
        ("S --> A+: ^=!;", "1 S -> < A:[ ^=!]+>\n"),
        ("S --> (A B); C", "1 S -> < (< A B>) C>\n"),
        (
            "S --> {A: ^=! | B C: !=^ | (D)}* E",
            "1 S -> < { < A:[ ^=!]> < B C:[ !=^]> < (< D>)>}* E>\n",
        ),
        ("S --> {A}", "1 S -> < { < A>}>\n"),
        ("S --> [A [B: ^=!]]+; C", "1 S -> < < A < B:[ ^=!]>>+ C>\n"),
        ("S --> A: ^=! B", "entry 1 is none"),
        ("S --> A: ^=! (B)", "entry 1 is none"),
        ("S --> A: ^=!;;", "entry 1 is none"),
        ("S --> A:", "entry 1 is none"),
        ("S --> A:;", "entry 1 is none"),
        ("S --> A**", "entry 1 is none"),
        ("S --> A:^=!*", "entry 1 is none"),
        ("S -->", "entry 1 is none"),
        ("S --> ;", "entry 1 is none"),
        ("S --> ()", "entry 1 is none"),
        ("S --> (A)*", "entry 1 is none"),
        ("S --> (A", "entry 1 is none"),
        ("S --> A)", "entry 1 is none"),
        ("S --> {A | }", "entry 1 is none"),
        ("S --> {A B", "entry 1 is none"),
        ("S --> {| A}", "entry 1 is none"),
        ("S --> [A}", "entry 1 is none"),
        ("S --> 'A'", "entry 1 is none"),
        ("S ==> A", "entry 1 is none"),
        ("S T --> A", "entry 1 is none"),
        ("e --> A", "entry 1 is none"),
        ("--> A", "entry 1 is none"),
        ("S --> in_set", "entry 1 is none"),
        ("S --> A: (^ in_set)=!", "entry 1 is none"),
    ] {
        let text = format!(in rt.alloc(); "A B RULES (1.0) {entry}. ---- A B CONFIG (1.0) ----")?;
        let seen = shown(&rt, rt.alloc(), text.as_str().as_bytes())?;
        assert_eq!(rt; seen.as_str(), wanted);
    }
    Ok(())
}

#[test]
fn templates_are_read(rt: HostRuntime) -> Result<(), Fail> {
    for (entry, wanted) in [
        ("T = ^=!", "1 T = ^=!\n"),
        ("T() = ^=!", "1 T = ^=!\n"),
        ("T(A B) = (^ A)=B @(U A B)", "1 T A B = ^< A>=B @U A B\n"),
        ("T(A A) = ^=!", "1 T A A = ^=!\n"),
        ("e = ^=!", "1 e = ^=!\n"),
        ("T(e) = ^=!", "entry 1 is none"),
        ("T(A PRED) = ^=!", "entry 1 is none"),
        ("T(A+) = ^=!", "entry 1 is none"),
        ("T(A B = ^=!", "entry 1 is none"),
        ("T A = ^=!", "entry 1 is none"),
        ("T =", "entry 1 is none"),
        ("T", "entry 1 is none"),
        ("T(A)", "entry 1 is none"),
        ("T = ^=!;", "entry 1 is none"),
        ("T(in_set) = ^=!", "entry 1 is none"),
    ] {
        let text = format!(in rt.alloc();
            "A B TEMPLATES (1.0) {entry}. ---- A B CONFIG (1.0) ----"
        )?;
        let seen = shown(&rt, rt.alloc(), text.as_str().as_bytes())?;
        assert_eq!(rt; seen.as_str(), wanted);
    }
    Ok(())
}

#[test]
fn words_are_read(rt: HostRuntime) -> Result<(), Fail> {
    for (entry, wanted) in [
        ("a N *", "1 a N *\n"),
        ("a N *;", "1 a N *\n"),
        ("a N *; V * ^=!;", "1 a N *\n1 a V * ^=!\n"),
        ("e N *", "1 e N *\n"),
        ("in`-to`., N *", "entry 1 is none"),
        ("in`-to`. N *", "1 in-to. N *\n"),
        ("a`\u{a0}b N *", "entry 1 is none"),
        ("a` b N *", "entry 1 is none"),
        ("a", "entry 1 is none"),
        ("a ;", "entry 1 is none"),
        ("a N", "entry 1 is none"),
        ("a N *;;", "entry 1 is none"),
        ("a N * V *", "entry 1 is none"),
        ("a N +", "entry 1 is none"),
        ("a e *", "entry 1 is none"),
        ("a N *; e *", "entry 1 is none"),
        ("in_set N *", "entry 1 is none"),
        ("a in_set *", "entry 1 is none"),
    ] {
        let text = format!(in rt.alloc(); "A B LEXICON (1.0) {entry}. ---- A B CONFIG (1.0) ----")?;
        let seen = shown(&rt, rt.alloc(), text.as_str().as_bytes())?;
        assert_eq!(rt; seen.as_str(), wanted);
    }
    Ok(())
}

#[test]
fn schemata_are_read(rt: HostRuntime) -> Result<(), Fail> {
    for (schemata, wanted) in [
        // equations
        ("^=!", "1 a N * ^=!\n"),
        ("(! A)=(^ B C)", "1 a N * !< A>=^< B C>\n"),
        (
            "(^ A)=+ (^ A)=- (^ A)=3",
            "1 a N * ^< A>=+ ^< A>=- ^< A>=3\n",
        ),
        (
            "(^ A)=c x (^ A)=c ! ^ =c +",
            "1 a N * ^< A>=cx ^< A>=c! ^=c+\n",
        ),
        ("(^ A)= c", "1 a N * ^< A>=c\n"),
        ("(^ A)~=x ! ~= (^ B)", "1 a N * ^< A>~=x !~=^< B>\n"),
        (
            "(^ A) (! B) ~(^ A)",
            "1 a N * some ^< A> some !< B> no ^< A>\n",
        ),
        ("! $ (^ A) (^ A)$^", "1 a N * !$^< A> ^< A>$^\n"),
        ("A $ o::* B$`o::*", "1 a N * mark A mark B\n"),
        // disjunctions, options and calls
        (
            "{^=! | (^ A) !=^ | {^=!}}",
            "1 a N * {| ^=!| some ^< A> !=^| {| ^=!}}\n",
        ),
        (
            "((^ A)=b) (^=!) (^ $ !)",
            "1 a N * ( ^< A>=b) ( ^=!) ( ^$!)\n",
        ),
        ("(((^ A)) A $ o::*)", "1 a N * ( ( some ^< A>) mark A)\n"),
        ("@T @(T) @(T a + - b) ^=!", "1 a N * @T @T @T a + - b ^=!\n"),
        // paths
        (
            "(^ A* B+ {C | D E}* [F G] [H]+)",
            "1 a N * some ^< A* B+ { < C> < D E>}* < F G> < H>+>\n",
        ),
        ("(^ {A})", "1 a N * some ^< { < A>}>\n"),
        // forms
        ("(^ PRED)='p'", "1 a N * ^< PRED>='p;'\n"),
        (
            "(! A PRED)='+<(^ A)(^ B)>(^ C)'",
            "1 a N * !< A PRED>='+ A B; C'\n",
        ),
        ("(^ PRED)='-<>'", "1 a N * ^< PRED>='-;'\n"),
    ] {
        let text = format!(in rt.alloc();
            "A B LEXICON (1.0) a N * {schemata}. ---- A B CONFIG (1.0) ----"
        )?;
        let seen = shown(&rt, rt.alloc(), text.as_str().as_bytes())?;
        assert_eq!(rt; seen.as_str(), wanted);
    }
    Ok(())
}

#[test]
fn what_is_no_schema_is_refused(rt: HostRuntime) -> Result<(), Fail> {
    for (schemata, wanted) in [
        ("(^ A)='p'", "entry 1 is none"),
        ("^='p'", "entry 1 is none"),
        ("(^ PRED A)='p'", "entry 1 is none"),
        ("(^ PRED*)='p'", "entry 1 is none"),
        ("(^ [PRED])='p'", "entry 1 is none"),
        ("(^ {PRED})='p'", "entry 1 is none"),
        ("(^ PRED)=c 'p'", "entry 1 is none"),
        ("(^ PRED)~='p'", "entry 1 is none"),
        ("(^ PRED)='p<(^ A)'", "entry 1 is none"),
        ("(^ PRED)='p(^ A)'", "entry 1 is none"),
        ("(^ PRED)='p<(! A)>'", "entry 1 is none"),
        ("(^ PRED)='p<(^ A B)>'", "entry 1 is none"),
        ("(^ PRED)='<(^ A)>'", "entry 1 is none"),
        ("(^ PRED)=''", "entry 1 is none"),
        ("(^ PRED)='p<(^ A)>", "entry 1 is none"),
        ("^", "entry 1 is none"),
        ("~^", "entry 1 is none"),
        ("~~(^ A)", "entry 1 is none"),
        ("~((^ A))", "entry 1 is none"),
        ("^=", "entry 1 is none"),
        ("=!", "entry 1 is none"),
        ("(^ A)=(^)", "entry 1 is none"),
        ("(^ A)=@T", "entry 1 is none"),
        ("(^ A", "entry 1 is none"),
        ("(^ A*+)", "entry 1 is none"),
        ("(^ {A | })", "entry 1 is none"),
        ("(^ {A |})", "entry 1 is none"),
        ("(^ [A)", "entry 1 is none"),
        ("(^ [])", "entry 1 is none"),
        ("(^ (A))", "entry 1 is none"),
        ("()", "entry 1 is none"),
        ("(A)", "entry 1 is none"),
        ("{}", "entry 1 is none"),
        ("{^=! ; ^=!}", "entry 1 is none"),
        ("{^=!", "entry 1 is none"),
        ("{^=! |}", "entry 1 is none"),
        ("! $ A", "entry 1 is none"),
        ("A $ ^", "entry 1 is none"),
        ("A $ x::*", "entry 1 is none"),
        ("A $ o:*", "entry 1 is none"),
        ("A", "entry 1 is none"),
        ("+ $ o::*", "entry 1 is none"),
        ("@", "entry 1 is none"),
        ("@()", "entry 1 is none"),
        ("@(T (^ A))", "entry 1 is none"),
        ("@(+ a)", "entry 1 is none"),
        ("@(T a", "entry 1 is none"),
        ("(^ A)=in_set", "entry 1 is none"),
        ("%x", "entry 1 is none"),
    ] {
        let text = format!(in rt.alloc();
            "A B LEXICON (1.0) a N * {schemata}. ---- A B CONFIG (1.0) ----"
        )?;
        let seen = shown(&rt, rt.alloc(), text.as_str().as_bytes())?;
        assert_eq!(rt; seen.as_str(), wanted);
    }
    Ok(())
}

/// A file in which the middle stands inside a thousand pairs of brackets.
fn nested(
    alloc: Global,
    before: &str,
    open: &str,
    middle: &str,
    close: &str,
    after: &str,
) -> Result<String, AllocError> {
    let mut text = String::new(alloc);
    push(&mut text, before)?;
    for _ in 0..1_000 {
        push(&mut text, open)?;
    }
    push(&mut text, middle)?;
    for _ in 0..1_000 {
        push(&mut text, close)?;
    }
    push(&mut text, after)?;
    push(&mut text, ". ---- A B CONFIG (1.0) ----")?;
    Ok(text)
}

#[test]
fn a_thousand_brackets_are_read(rt: HostRuntime) -> Result<(), Fail> {
    for (before, open, middle, close, after) in [
        ("A B RULES (1.0) S --> ", "[", "A", "]", ""),
        ("A B RULES (1.0) S --> ", "(", "A: ^=!", ")", ""),
        ("A B RULES (1.0) S --> ", "{A | ", "A", "}*;", ""),
        ("A B LEXICON (1.0) a N * (^ ", "[", "A", "]", ")"),
        ("A B LEXICON (1.0) a N * ", "(", "^=!", ")", ""),
        ("A B LEXICON (1.0) a N * ", "{^=! | ", "^=!", "}", ""),
    ] {
        let text = nested(rt.alloc(), before, open, middle, close, after)?;
        let bytes = text.as_str().as_bytes();
        assert!(rt; bytes.len() <= 4_194_304);
        assert!(rt; read_grammar_text(rt.alloc(), bytes).is_ok());
    }
    Ok(())
}
