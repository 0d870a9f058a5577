//! Grammar files, each whole.

/// Noun phrases of a determiner and a noun, and intransitive verbs.
pub(crate) const P: &str = "TOY P CONFIG (1.0)
ROOTCAT S.
----
TOY P RULES (1.0)
S --> NP: (^ SUBJ)=!; VP.
NP --> D N.
VP --> V.
----
TOY P LEXICON (1.0)
the D * (^ DEF)=yes.
man N * (^ NUM)=sg.
walks V * (^ SUBJ NUM)=sg (^ TENSE)=pres.
----
";

/// Options, and a word with two readings.
pub(crate) const A: &str = "TOY A CONFIG (1.0)
ROOTCAT S.
GOVERNABLERELATIONS SUBJ OBJ.
----
TOY A RULES (1.0)
S --> NP: (^ SUBJ)=!; VP.
NP --> (D) N.
VP --> V (NP: (^ OBJ)=!).
----
TOY A LEXICON (1.0)
the D * (^ DEF)=yes.
man N * (^ PRED)='man' (^ NUM)=sg.
deer N * (^ PRED)='deer'.
sheep N * (^ PRED)='sheep' (^ NUM)=sg;
      N * (^ PRED)='sheep' (^ NUM)=pl.
walks V * (^ PRED)='walk<(^ SUBJ)>' (^ SUBJ NUM)=sg.
runs V * (^ PRED)='run<(^ SUBJ)>' (^ SUBJ NUM)=c sg.
slept V * (^ PRED)='sleep<(^ SUBJ)>'.
sees V * (^ PRED)='see<(^ SUBJ)(^ OBJ)>' (^ SUBJ NUM)=sg.
----
";

/// A list of words: the one rule can have its own category as a daughter, and the one word has two
/// readings.
pub(crate) const L: &str = "TOY L CONFIG (1.0)
ROOTCAT L.
----
TOY L RULES (1.0)
L --> W: (^ FIRST)=!; (L: (^ REST)=!).
----
TOY L LEXICON (1.0)
w W * (^ K)=a; W * (^ K)=b.
----
";

/// Alternatives, repetition, memberships, and templates with their calls.
pub(crate) const EN: &str = "DEMO ENGLISH CONFIG (1.0)
ROOTCAT S.
GOVERNABLERELATIONS SUBJ OBJ.
----
DEMO ENGLISH RULES (1.0)
S --> NP: (^ SUBJ)=!; VP.
NP --> {PN | D N} PP*: ! $ (^ ADJUNCT).
VP --> V (NP: (^ OBJ)=!) PP*: ! $ (^ ADJUNCT).
PP --> P NP: (^ OBJ)=!.
----
DEMO ENGLISH TEMPLATES (1.0)
PRES = (^ TENSE)=pres (^ SUBJ NUM)=sg (^ SUBJ PERS)=3.
NOUN(P) = (^ PRED)='P' (^ NUM)=sg (^ PERS)=3.
INTRANS(P) = (^ PRED)='P<(^ SUBJ)>'.
TRANS(P) = (^ PRED)='P<(^ SUBJ)(^ OBJ)>'.
----
DEMO ENGLISH LEXICON (1.0)
Mary PN * @(NOUN Mary) (^ GEND)=fem.
man N * @(NOUN man).
park N * @(NOUN park).
the D * (^ DEF)=yes.
in P * (^ PRED)='in<(^ OBJ)>'.
sleeps V * @(INTRANS sleep) @PRES.
sees V * @(TRANS see) @PRES.
----
";

/// A disjunction within a branch of another.
pub(crate) const B: &str = "TOY B CONFIG (1.0)
ROOTCAT S.
----
TOY B RULES (1.0)
S --> W: (^ X)=!.
----
TOY B LEXICON (1.0)
w W * {(^ A)=a {(^ B)=b | (^ C)=k} | (^ D)=d}.
----
";

/// A disjunction of one branch, and one of two.
pub(crate) const O: &str = "TOY O CONFIG (1.0)
ROOTCAT S.
----
TOY O RULES (1.0)
S --> W: (^ X)=!.
----
TOY O LEXICON (1.0)
w W * {(^ A)=a} {(^ B)=b | (^ C)=k}.
----
";

/// A path with three strings.
pub(crate) const U: &str = "TOY U CONFIG (1.0)
ROOTCAT S.
UNCERTAINTYDEPTH 3.
----
TOY U RULES (1.0)
S --> W: (^ COMP* OBJ)=!.
----
TOY U LEXICON (1.0)
w W * (^ K)=a.
----
";
