use lfg_io::{MemShelf, MemSink};
use lfg_terms::Name;
use std::alloc::{AllocError, Global};
use std::test::Fail;
use xle_run::{exit_status, run};

/// A small grammar of noun phrases and verbs.
const P: &str = "TOY P CONFIG (1.0)
ROOTCAT S.
----
TOY P RULES (1.0)
S --> NP: (^ SUBJ)=!; VP.
NP --> D N.
VP --> V.
----
TOY P LEXICON (1.0)
the D * (^ DEF)=yes.
man N * (^ NUM)=sg.
walks V * (^ SUBJ NUM)=sg (^ TENSE)=pres.
----
";

/// The same with German words and a path of two attributes.
const PE: &str = "TOY P CONFIG (1.0)
ROOTCAT S.
----
TOY P RULES (1.0)
S --> NP: (^ SUBJ)=!; VP.
NP --> D N.
VP --> V.
----
TOY P LEXICON (1.0)
der D * (^ DEF)=yes.
ein D * (^ DEF)=no.
mann N * (^ NUM)=sg.
geht V * (^ SUBJ NUM)=sg (^ EVENT TIME)=pres.
----
";

/// The same with a limit of size.
const PT: &str = "TOY P CONFIG (1.0)
ROOTCAT S.
GENSIZE 60.
----
TOY P RULES (1.0)
S --> NP: (^ SUBJ)=!; VP.
NP --> D N.
VP --> V.
----
TOY P LEXICON (1.0)
der D * (^ DEF)=yes.
ein D * (^ DEF)=no.
mann N * (^ NUM)=sg.
geht V * (^ SUBJ NUM)=sg (^ TENSE)=pres.
----
";

/// Semantic forms, options and constraints.
const A: &str = "TOY A CONFIG (1.0)
ROOTCAT S.
GOVERNABLERELATIONS SUBJ OBJ.
----
TOY A RULES (1.0)
S --> NP: (^ SUBJ)=!; VP.
NP --> (D) N.
VP --> V (NP: (^ OBJ)=!).
----
TOY A LEXICON (1.0)
the D * (^ DEF)=yes.
man N * (^ PRED)='man' (^ NUM)=sg.
deer N * (^ PRED)='deer'.
sheep N * (^ PRED)='sheep' (^ NUM)=sg;
      N * (^ PRED)='sheep' (^ NUM)=pl.
walks V * (^ PRED)='walk<(^ SUBJ)>' (^ SUBJ NUM)=sg.
runs V * (^ PRED)='run<(^ SUBJ)>' (^ SUBJ NUM)=c sg.
slept V * (^ PRED)='sleep<(^ SUBJ)>'.
sees V * (^ PRED)='see<(^ SUBJ)(^ OBJ)>' (^ SUBJ NUM)=sg.
----
";

/// Functional uncertainty.
const Q: &str = "TOY Q CONFIG (1.0)
ROOTCAT S.
UNCERTAINTYDEPTH 3.
GOVERNABLERELATIONS SUBJ OBJ COMP.
----
TOY Q RULES (1.0)
S --> W: (^ COMP* OBJ)=!; C.
C --> N: (^ SUBJ)=!; V (C: (^ COMP)=!).
----
TOY Q LEXICON (1.0)
whom W * (^ PRED)='who'.
kim N * (^ PRED)='kim'.
says V * (^ PRED)='say<(^ SUBJ)(^ COMP)>'.
sees V * (^ PRED)='see<(^ SUBJ)(^ OBJ)>'.
----
";

/// A list of words with two readings.
const L: &str = "TOY L CONFIG (1.0)
ROOTCAT L.
----
TOY L RULES (1.0)
L --> W: (^ FIRST)=!; (L: (^ REST)=!).
----
TOY L LEXICON (1.0)
w W * (^ K)=a; W * (^ K)=b.
----
";

/// The same with a limit of size and one reading.
const M: &str = "TOY L CONFIG (1.0)
ROOTCAT L.
GENSIZE 120.
----
TOY L RULES (1.0)
L --> W: (^ FIRST)=!; (L: (^ REST)=!).
----
TOY L LEXICON (1.0)
v W * (^ K)= c.
----
";

/// Branches, stars, sets and templates.
const EN: &str = "DEMO ENGLISH CONFIG (1.0)
ROOTCAT S.
GOVERNABLERELATIONS SUBJ OBJ.
----
DEMO ENGLISH RULES (1.0)
S --> NP: (^ SUBJ)=!; VP.
NP --> {PN | D N} PP*: ! $ (^ ADJUNCT).
VP --> V (NP: (^ OBJ)=!) PP*: ! $ (^ ADJUNCT).
PP --> P NP: (^ OBJ)=!.
----
DEMO ENGLISH TEMPLATES (1.0)
PRES = (^ TENSE)=pres (^ SUBJ NUM)=sg (^ SUBJ PERS)=3.
NOUN(P) = (^ PRED)='P' (^ NUM)=sg (^ PERS)=3.
INTRANS(P) = (^ PRED)='P<(^ SUBJ)>'.
TRANS(P) = (^ PRED)='P<(^ SUBJ)(^ OBJ)>'.
----
DEMO ENGLISH LEXICON (1.0)
Mary PN * @(NOUN Mary) (^ GEND)=fem.
man N * @(NOUN man).
park N * @(NOUN park).
the D * (^ DEF)=yes.
in P * (^ PRED)='in<(^ OBJ)>'.
sleeps V * @(INTRANS sleep) @PRES.
sees V * @(TRANS see) @PRES.
----
";

/// Letters past ASCII.
const DE: &str = "DEMO GERMAN CONFIG (1.0)
ROOTCAT S.
GOVERNABLERELATIONS SUBJ OBJ.
----
DEMO GERMAN RULES (1.0)
S --> NP: (^ SUBJ)=!; VP.
NP --> PN.
VP --> V.
----
DEMO GERMAN LEXICON (1.0)
Maria PN * (^ PRED)='Maria' (^ NUM)=sg (^ PERS)=3.
schl\u{e4}ft V * (^ PRED)='schlafen<(^ SUBJ)>' (^ TENSE)=pres
  (^ SUBJ NUM)=sg (^ SUBJ PERS)=3.
----
";

/// The file with this name and text.
fn file(alloc: Global, name: &str, text: &str) -> Result<(Name, Vec<u8>), AllocError> {
    Ok((
        Name::new(alloc, name)?,
        Vec::from_slice(alloc, text.as_bytes())?,
    ))
}

/// The exit status of `readings` over the grammar and a sentence, and its line for a fault.
fn outcome_of(alloc: Global, grammar: &str) -> Result<(u8, Vec<u8>), AllocError> {
    let files = vec![in alloc;
        file(alloc, "g", grammar)?,
        file(alloc, "s", "the man walks\n")?,
    ]?;
    let mut shelf = MemShelf::new(alloc, files, Vec::new(alloc))?;
    let mut out = MemSink::new(alloc, Vec::new(alloc), 1_000)?;
    let mut err = MemSink::new(alloc, Vec::new(alloc), 1_000)?;
    let words = vec![in alloc;
        String::from_str(alloc, "readings")?,
        String::from_str(alloc, "g")?,
        String::from_str(alloc, "s")?,
    ]?;
    let status = run(alloc, &words, &mut shelf, &mut out, &mut err);
    Ok((exit_status(&status), Vec::from_slice(alloc, err.written())?))
}

#[test]
fn each_sample_grammar_is_well_formed(rt: HostRuntime) -> Result<(), Fail> {
    for (grammar, wanted, line) in [
        (P, 0, ""),
        (PE, 0, ""),
        (PT, 5, "xle: g: Entry 0\n"),
        (A, 5, "xle: g: Entry 0\n"),
        (Q, 5, "xle: g: Entry 0\n"),
        (L, 5, "xle: g: Entry 0\n"),
        (M, 5, "xle: g: Entry 0\n"),
        (EN, 5, "xle: g: Entry 0\n"),
        (DE, 5, "xle: g: Entry 0\n"),
    ] {
        let (status, err) = outcome_of(rt.alloc(), grammar)?;
        assert_eq!(rt; status, wanted);
        assert_eq!(rt; err.as_slice(), line.as_bytes());
    }
    Ok(())
}
