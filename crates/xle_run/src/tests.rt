use crate::run;
use lfg_io::{MemShelf, MemSink};
use lfg_model::{GrammarFault, Status};
use lfg_terms::Name;
use std::alloc::{AllocError, Global};
use std::process::Abort;
use std::test::Fail;

/// A grammar of noun phrases and intransitive verbs.
const TOY: &str = "TOY P CONFIG (1.0)
ROOTCAT S.
----
TOY P RULES (1.0)
S --> NP: (^ SUBJ)=!; VP.
NP --> D N.
VP --> V.
----
TOY P LEXICON (1.0)
the D * (^ DEF)=yes.
man N * (^ NUM)=sg.
walks V * (^ SUBJ NUM)=sg (^ TENSE)=pres.
----
";

/// The section of `the man walks` behind its heading.
const MAN_WALKS: &str = "tree [S [NP [D the] [N man]] [VP [V walks]]]
DEF(NP:0:2,yes)
NUM(NP:0:2,sg)
SUBJ(S:0:3,NP:0:2)
TENSE(S:0:3,pres)

";

/// What a run answered and wrote.
#[derive(Drop)]
struct Outcome {
    status: Status,
    out: Vec<u8>,
    err: Vec<u8>,
}

/// The words of a command line.
fn words(alloc: Global, words: &[&str]) -> Result<Vec<String>, AllocError> {
    let mut list = Vec::new(alloc);
    for word in words {
        list.push(String::from_str(alloc, word)?)?;
    }
    Ok(list)
}

/// The file with this name and text.
fn file(alloc: Global, name: &str, text: &str) -> Result<(Name, Vec<u8>), AllocError> {
    Ok((
        Name::new(alloc, name)?,
        Vec::from_slice(alloc, text.as_bytes())?,
    ))
}

/// Runs the command over these two files, `p.lfg` and `s.txt`, with an output that fails the listed
/// calls.
fn outcome_of(
    alloc: Global,
    command: &[&str],
    grammar: &str,
    sentences: &str,
    fails: Vec<(u64, usize)>,
) -> Result<Outcome, AllocError> {
    let files = vec![in alloc;
        file(alloc, "p.lfg", grammar)?,
        file(alloc, "s.txt", sentences)?,
    ]?;
    let mut shelf = MemShelf::new(alloc, files, Vec::new(alloc))?;
    let mut out = MemSink::new(alloc, fails, 10_000)?;
    let mut err = MemSink::new(alloc, Vec::new(alloc), 1_000)?;
    let command = words(alloc, command)?;
    let status = run(alloc, &command, &mut shelf, &mut out, &mut err);
    Ok(Outcome {
        status,
        out: Vec::from_slice(alloc, out.written())?,
        err: Vec::from_slice(alloc, err.written())?,
    })
}

/// Asserts what a run of `readings p.lfg s.txt` over these two files writes.
fn assert_readings(
    rt: &(impl Abort + AllocGlobal),
    grammar: &str,
    sentences: &str,
    wanted: &str,
) -> Result<(), AllocError> {
    let alloc = rt.alloc();
    let command = ["readings", "p.lfg", "s.txt"];
    let found = outcome_of(alloc, &command, grammar, sentences, Vec::new(alloc))?;
    assert_eq!(rt; found.status, Status::Done);
    assert_eq!(rt; found.out.as_slice(), wanted.as_bytes());
    assert_eq!(rt; found.err.as_slice(), b"".as_slice());
    Ok(())
}

/// Asserts with what status and what line a run over these two files ends that writes nothing.
fn assert_refused(
    rt: &(impl Abort + AllocGlobal),
    command: &[&str],
    grammar: &str,
    sentences: &str,
    status: Status,
    line: &str,
) -> Result<(), AllocError> {
    let alloc = rt.alloc();
    let found = outcome_of(alloc, command, grammar, sentences, Vec::new(alloc))?;
    assert_eq!(rt; found.status, status);
    assert_eq!(rt; found.out.as_slice(), b"".as_slice());
    assert_eq!(rt; found.err.as_slice(), line.as_bytes());
    Ok(())
}

/// The text with one part in place of another.
fn with_part(alloc: Global, text: &str, old: &str, new: &str) -> Result<String, AllocError> {
    text.replace(alloc, old, new)
}

#[test]
fn writes_the_reading_of_a_sentence(rt: HostRuntime) -> Result<(), Fail> {
    let wanted = format!(in rt.alloc(); "# 1 the man walks\n{MAN_WALKS}")?;
    assert_readings(&rt, TOY, "the man walks\n", wanted.as_str())?;
    Ok(())
}

#[test]
fn writes_an_empty_section_for_a_sentence_without_readings(rt: HostRuntime) -> Result<(), Fail> {
    assert_readings(&rt, TOY, "man the walks\n", "# 1 man the walks\n\n")?;
    let plural = with_part(rt.alloc(), TOY, "(^ SUBJ NUM)=sg", "(^ SUBJ NUM)=pl")?;
    assert_readings(
        &rt,
        plural.as_str(),
        "the man walks\n",
        "# 1 the man walks\n\n",
    )?;
    Ok(())
}

#[test]
fn numbers_the_sentences(rt: HostRuntime) -> Result<(), Fail> {
    let wanted = format!(in rt.alloc(); "# 1 the man\n\n# 2 the man walks\n{MAN_WALKS}")?;
    assert_readings(&rt, TOY, "the man\n\nthe man walks", wanted.as_str())?;
    assert_readings(&rt, TOY, "", "")?;
    Ok(())
}

#[test]
fn refuses_a_file_that_is_not_thin(rt: HostRuntime) -> Result<(), Fail> {
    let command = ["readings", "p.lfg", "s.txt"];
    let grammar = with_part(rt.alloc(), TOY, "NP --> D N", "NP --> (D) N")?;
    let bad_grammar = Status::BadGrammar {
        name: Name::new(rt.alloc(), "p.lfg")?,
        fault: GrammarFault::Entry { number: 0 },
    };
    let bad_text = Status::BadGrammar {
        name: Name::new(rt.alloc(), "s.txt")?,
        fault: GrammarFault::Entry { number: 0 },
    };
    assert_refused(
        &rt,
        &command,
        grammar.as_str(),
        "the Man walks",
        bad_grammar,
        "xle: p.lfg: Entry 0\n",
    )?;
    assert_refused(
        &rt,
        &command,
        TOY,
        "the Man walks",
        bad_text,
        "xle: s.txt: Entry 0\n",
    )?;
    Ok(())
}

/// The status of a grammar file with this fault.
fn bad_grammar(alloc: Global, fault: GrammarFault) -> Result<Status, AllocError> {
    Ok(Status::BadGrammar {
        name: Name::new(alloc, "p.lfg")?,
        fault,
    })
}

/// Asserts with what fault and what line a run ends over the grammar with one part in place of
/// another.
fn assert_fault(
    rt: &(impl Abort + AllocGlobal),
    old: &str,
    new: &str,
    fault: GrammarFault,
    line: &str,
) -> Result<(), AllocError> {
    let grammar = with_part(rt.alloc(), TOY, old, new)?;
    let status = bad_grammar(rt.alloc(), fault)?;
    let command = ["readings", "p.lfg", "s.txt"];
    assert_refused(
        rt,
        &command,
        grammar.as_str(),
        "the man walks\n",
        status,
        line,
    )
}

#[test]
fn tells_the_first_fault_of_a_grammar_file(rt: HostRuntime) -> Result<(), Fail> {
    let alloc = rt.alloc();
    let token = GrammarFault::NoToken { at: 0 };
    assert_fault(
        &rt,
        "TOY P CONFIG",
        "#TOY P CONFIG",
        token,
        "xle: p.lfg: NoToken 0\n",
    )?;
    let section = GrammarFault::Section { number: 3 };
    assert_fault(
        &rt,
        "pres.\n----",
        "pres.\n",
        section,
        "xle: p.lfg: Section 3\n",
    )?;
    let entry = GrammarFault::Entry { number: 4 };
    assert_fault(
        &rt,
        "NP --> D N",
        "NP --> D. N",
        entry,
        "xle: p.lfg: Entry 4\n",
    )?;
    let name = Name::new(alloc, "the")?;
    let repeated = GrammarFault::Repeated { name };
    assert_fault(
        &rt,
        "man N",
        "the N *. man N",
        repeated,
        "xle: p.lfg: Repeated the\n",
    )?;
    let path = GrammarFault::NoPath { entry: 6 };
    assert_fault(
        &rt,
        "(^ NUM)=sg.",
        "(^ [A B C D]+)=x.",
        path,
        "xle: p.lfg: NoPath 6\n",
    )?;
    let rules = "S --> NP: (^ SUBJ)=!; VP.\nNP --> D N.\nVP --> V.";
    let changed = "S --> B. B --> A. A --> B (C).";
    let category = Name::new(alloc, "B")?;
    let cycle = GrammarFault::UnaryCycle { category };
    assert_fault(&rt, rules, changed, cycle, "xle: p.lfg: UnaryCycle B\n")?;
    let accepted = GrammarFault::Entry { number: 0 };
    let changed = "S --> B. B --> A. A --> B C.";
    assert_fault(&rt, rules, changed, accepted, "xle: p.lfg: Entry 0\n")?;
    Ok(())
}

#[test]
fn refuses_a_file_that_is_too_long(rt: HostRuntime) -> Result<(), Fail> {
    let alloc = rt.alloc();
    let long = "x".repeat(alloc, 4_194_305)?;
    let status = Status::FileTooLong {
        name: Name::new(alloc, "p.lfg")?,
    };
    assert_refused(
        &rt,
        &["readings", "p.lfg", "s.txt"],
        long.as_str(),
        "the man walks\n",
        status,
        "xle: too long: p.lfg\n",
    )?;
    Ok(())
}

#[test]
fn refuses_words_and_files_that_are_not_there(rt: HostRuntime) -> Result<(), Fail> {
    let missing = Status::ReadFault {
        name: Name::new(rt.alloc(), "x")?,
    };
    let text = "the man walks\n";
    assert_refused(
        &rt,
        &["readings", "p.lfg"],
        TOY,
        text,
        Status::Usage,
        "xle: usage\n",
    )?;
    assert_refused(
        &rt,
        &["reading", "p.lfg", "s.txt"],
        TOY,
        text,
        Status::Usage,
        "xle: usage\n",
    )?;
    assert_refused(
        &rt,
        &["readings", "x", "s.txt"],
        TOY,
        text,
        missing,
        "xle: cannot read x\n",
    )?;
    Ok(())
}

#[test]
fn leaves_a_prefix_where_the_output_fails(rt: HostRuntime) -> Result<(), Fail> {
    let alloc = rt.alloc();
    let command = ["readings", "p.lfg", "s.txt"];
    let fails = vec![in alloc; (2u64, 5usize)]?;
    let found = outcome_of(alloc, &command, TOY, "the man\nthe man walks\n", fails)?;
    assert_eq!(rt; found.status, Status::WriteFault);
    assert_eq!(rt; found.out.as_slice(), b"# 1 the man\n\n# 2 t".as_slice());
    assert_eq!(rt; found.err.as_slice(), b"xle: cannot write\n".as_slice());
    Ok(())
}
