ghost use Rattle.std.specs.Prelude.{◌≡◌, ◌++◌, ◌⊎◌, Some, List, ℕ};
ghost use Rattle.lfg_model.specs.Pieces.{piece_at, token};
ghost use Rattle.lfg_model.specs.Tokens.{Tokens, Stuck, IsToken, LongestToken, GivesToken};
ghost use Rattle.lfg_model.specs.declared.token.Token.{Token};
ghost use Rattle.lfg_model.specs.declared.token.TokenKind.{TokenKind};

use lfg_terms::Name;

/// What kind of token stands at a place.
#[derive(Clone, Copy, Debug, PartialEq, Eq, Drop)]
pub enum TokenKind {
    /// One or more pieces of name characters, joined by single hyphens.
    Name,
    /// One of the signs of the notation.
    Symbol,
}

/// A token of the notation and where it stands.
#[derive(Debug, PartialEq, Eq, Drop)]
pub struct Token {
    pub kind: TokenKind,
    /// The symbol, or the name without its backquotes.
    pub text: Name,
    /// The byte at which it begins, counted from 0.
    pub at: u32,
    /// The byte behind its last, counted from 0.
    pub to: u32,
}

/// A text has exactly one reading: one row of tokens, or one place at which nothing begins.
pub fn one_reading()
    ensures some { (cs : List ℕ)
        → ((ts : List Token) × Tokens 0 cs ts) ⊎ ((stop : ℕ) × Stuck 0 cs stop) }
    ensures rows { (cs : List ℕ) (ts us : List Token)
        → Tokens 0 cs ts → Tokens 0 cs us → ts ≡ us }
    ensures places { (cs : List ℕ) (stop other : ℕ)
        → Stuck 0 cs stop → Stuck 0 cs other → stop ≡ other }
    ensures never_both { (cs : List ℕ) (ts : List Token) (stop : ℕ)
        → Tokens 0 cs ts → Stuck 0 cs stop → ⊥ }
{}

/// Where a token begins, one is read, and a token that is read is the longest that begins there:
/// a name is as long as possible, and of symbols the longest is taken.
pub fn longest_tokens()
    ensures begins { (kind : TokenKind) (written text rest : List ℕ)
        → IsToken kind written text rest → GivesToken (piece_at (written ++ rest)) }
    ensures longest { (kind : TokenKind) (cs text rest : List ℕ)
        → piece_at cs ≡ Some (token kind text, rest) → LongestToken kind cs text rest }
{}
