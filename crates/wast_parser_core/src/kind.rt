//! Kinds of tokens.
ghost use Rattle.std.specs.Prelude.{◌≡◌, true};
ghost use Rattle.wast_lexer.specs.declared.token.TokenKind.TheVariants as kinds;
ghost use Rattle.wast_lexer.specs.Tiling.{is_annotation};
ghost use Rattle.wast_grammar.specs.Significant.{is_trivia, is_lparen};
ghost use Rattle.wast_parser_core.specs.Kinds.{is_rparen, is_keyword, is_identifier, is_string, is_number, shape_of, wanted};
ghost use Rattle.wast_grammar.specs.Look.{same_shape};

use wast_lexer::TokenKind;

/// Whether a token is white space or a comment.
pub fn is_trivia(kind: TokenKind) -> bool
    ensures { result ≡ is_trivia kind }
{
    matches!(
        kind,
        TokenKind::Whitespace | TokenKind::LineComment | TokenKind::BlockComment
    )
}

/// Whether a token is a parenthesis that opens.
pub fn is_lparen(kind: TokenKind) -> bool
    ensures { result ≡ is_lparen kind }
{
    matches!(kind, TokenKind::LParen)
}

/// Whether a token is a parenthesis that closes.
pub fn is_rparen(kind: TokenKind) -> bool
    ensures { result ≡ is_rparen kind }
{
    matches!(kind, TokenKind::RParen)
}

/// Whether a token is a word.
pub fn is_keyword(kind: TokenKind) -> bool
    ensures { result ≡ is_keyword kind }
{
    matches!(kind, TokenKind::Keyword)
}

/// Whether a token is the name of an annotation.
pub fn is_annotation(kind: TokenKind) -> bool
    ensures same { result ≡ is_annotation kind }
    ensures is { result ≡ true → kind ≡ kinds.Annotation }
{
    matches!(kind, TokenKind::Annotation)
}

/// Whether a token is an identifier.
pub fn is_id(kind: TokenKind) -> bool
    ensures same { result ≡ is_identifier kind }
    ensures is { result ≡ true → kind ≡ kinds.Id }
{
    matches!(kind, TokenKind::Id)
}

/// Whether a token is a string.
pub fn is_string(kind: TokenKind) -> bool
    ensures same { result ≡ is_string kind }
    ensures is { result ≡ true → kind ≡ kinds.String }
{
    matches!(kind, TokenKind::String)
}

/// Whether a token may stand for a float.
pub fn is_number(kind: TokenKind) -> bool
    ensures { result ≡ is_number kind }
{
    matches!(kind, TokenKind::Integer(_) | TokenKind::Float(_))
}

/// Kinds of tokens that are looked for and taken.
#[derive(Clone, Copy)]
pub enum Wanted {
    RParen,
    Id,
    Keyword,
    Annotation,
    Integer,
    Float,
    String,
    Reserved,
}

/// Whether a token is of the kind that is wanted.
pub fn is_wanted(kind: TokenKind, want: Wanted) -> bool
    ensures { result ≡ same_shape (wanted want) (shape_of kind) }
{
    match want {
        Wanted::RParen => matches!(kind, TokenKind::RParen),
        Wanted::Id => matches!(kind, TokenKind::Id),
        Wanted::Keyword => matches!(kind, TokenKind::Keyword),
        Wanted::Annotation => matches!(kind, TokenKind::Annotation),
        Wanted::Integer => matches!(kind, TokenKind::Integer(_)),
        Wanted::Float => matches!(kind, TokenKind::Float(_)),
        Wanted::String => matches!(kind, TokenKind::String),
        Wanted::Reserved => matches!(kind, TokenKind::Reserved),
    }
}
