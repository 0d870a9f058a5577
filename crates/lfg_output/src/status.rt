use lfg_model::GrammarFault;
use lfg_terms::Name;

/// A stage of the work on a sentence, as the line for a fault names it.
#[derive(Debug, Clone, Copy, Drop, PartialEq, Eq)]
pub enum StageName {
    /// The packed parse.
    Parse,
    /// The rewriting of the packed parse.
    Transfer,
}

/// How a run of the program ended.
#[derive(Debug, Drop, PartialEq, Eq)]
pub enum Status {
    /// Everything was written.
    Done,
    /// The words of the command line are no command.
    Usage,
    /// The file of this name could not be read.
    ReadFault {
        name: Name,
    },
    /// The file of this name has more than 4,194,304 bytes.
    FileTooLong {
        name: Name,
    },
    /// The grammar file of this name is not loaded.
    BadGrammar {
        name: Name,
        fault: GrammarFault,
    },
    /// The sentence file is UTF-8 up to byte `at`, counted from 0, and not from there on.
    BadText {
        at: u32,
    },
    /// The sentence with this number, counted from 1, has more than 64 tokens; `tokens` is how many.
    TooLong {
        sentence: u32,
        tokens: u32,
    },
    /// The sentence with this number, counted from 1, has more at this stage than the grammar's
    /// limit on facts; `count` is the limit and 1.
    TooLarge {
        sentence: u32,
        stage: StageName,
        count: u32,
    },
    /// The output took no more.
    WriteFault,
    /// There was not enough memory.
    Memory,
}
