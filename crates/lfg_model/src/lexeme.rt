use lfg_terms::Name;

/// A token of a grammar file or of a rule file: a name, or one of the symbols.
#[derive(Debug, Drop)]
pub enum Lexeme {
    /// A name.
    Word(Name),
    /// `(`
    Open,
    /// `)`
    Close,
    /// `[`
    OpenBracket,
    /// `]`
    CloseBracket,
    /// `{`
    OpenBrace,
    /// `}`
    CloseBrace,
    /// `<`
    Less,
    /// `>`
    Greater,
    /// `|`
    Bar,
    /// `'`
    Quote,
    /// `^`
    Up,
    /// `!`
    Down,
    /// `=`
    Equals,
    /// `=c`
    Constrains,
    /// `~=`
    Differs,
    /// `~`
    Not,
    /// `$`
    Dollar,
    /// `@`
    At,
    /// `*`
    Star,
    /// `+`
    Plus,
    /// `-`
    Minus,
    /// `,`
    Comma,
    /// `;`
    Semicolon,
    /// `:`
    Colon,
    /// `::`
    DoubleColon,
    /// `.`
    Stop,
    /// `%`
    Percent,
    /// `-->`
    Arrow,
    /// `==>`
    DoubleArrow,
    /// `?=>`
    OptionalArrow,
    /// `:=`
    Becomes,
    /// `----`
    Divider,
}
