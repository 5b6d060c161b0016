//! What the keywords and the marks stand for.

ghost use Rattle.std.specs.Prelude.{◌≡◌};
ghost use Rattle.std.specs.Str.{bytes_eq};
ghost use Rattle.c_grammar.specs.Words.{keyword_sign, mark_sign, sign_by, sign_of_word, word_of};

use c_tree::TokenKind;

/// A keyword or a mark of the grammar (C11 6.4.1 and 6.4.6).
#[derive(Clone, Copy, PartialEq, Eq, Debug)]
pub enum Sign {
    Break,
    Case,
    Char,
    Continue,
    Default,
    Do,
    Else,
    For,
    If,
    Int,
    Return,
    Signed,
    Switch,
    Unsigned,
    Void,
    While,
    /// `<<=`
    AssignShiftLeft,
    /// `>>=`
    AssignShiftRight,
    /// `+=`
    AssignAdd,
    /// `-=`
    AssignSubtract,
    /// `*=`
    AssignMultiply,
    /// `/=`
    AssignDivide,
    /// `%=`
    AssignRemainder,
    /// `&=`
    AssignAnd,
    /// `|=`
    AssignOr,
    /// `^=`
    AssignXor,
    /// `<<`
    ShiftLeft,
    /// `>>`
    ShiftRight,
    /// `<=`
    LessEqual,
    /// `>=`
    GreaterEqual,
    /// `==`
    Equal,
    /// `!=`
    NotEqual,
    /// `&&`
    LogicalAnd,
    /// `||`
    LogicalOr,
    /// `++`
    Increment,
    /// `--`
    Decrement,
    /// `(`
    LeftParen,
    /// `)`
    RightParen,
    /// `[`
    LeftBracket,
    /// `]`
    RightBracket,
    /// `{`
    LeftBrace,
    /// `}`
    RightBrace,
    /// `;`
    Semicolon,
    /// `,`
    Comma,
    /// `:`
    Colon,
    /// `?`
    Question,
    /// `=`
    Assign,
    /// `+`
    Plus,
    /// `-`
    Minus,
    /// `*`
    Star,
    /// `/`
    Slash,
    /// `%`
    Percent,
    /// `&`
    Ampersand,
    /// `|`
    Bar,
    /// `^`
    Caret,
    /// `<`
    Less,
    /// `>`
    Greater,
    /// `~`
    Tilde,
    /// `!`
    Exclamation,
    /// The line `#include <stdio.h>`.
    Include,
    /// The end of the text.
    End,
    /// A name, a constant, or a keyword that stands in no program.
    Other,
}

const KEYWORDS: [(&[u8], Sign); 16] = [
    (b"break", Sign::Break),
    (b"case", Sign::Case),
    (b"char", Sign::Char),
    (b"continue", Sign::Continue),
    (b"default", Sign::Default),
    (b"do", Sign::Do),
    (b"else", Sign::Else),
    (b"for", Sign::For),
    (b"if", Sign::If),
    (b"int", Sign::Int),
    (b"return", Sign::Return),
    (b"signed", Sign::Signed),
    (b"switch", Sign::Switch),
    (b"unsigned", Sign::Unsigned),
    (b"void", Sign::Void),
    (b"while", Sign::While),
];

const MARKS: [(&[u8], Sign); 43] = [
    (b"<<=", Sign::AssignShiftLeft),
    (b">>=", Sign::AssignShiftRight),
    (b"+=", Sign::AssignAdd),
    (b"-=", Sign::AssignSubtract),
    (b"*=", Sign::AssignMultiply),
    (b"/=", Sign::AssignDivide),
    (b"%=", Sign::AssignRemainder),
    (b"&=", Sign::AssignAnd),
    (b"|=", Sign::AssignOr),
    (b"^=", Sign::AssignXor),
    (b"<<", Sign::ShiftLeft),
    (b">>", Sign::ShiftRight),
    (b"<=", Sign::LessEqual),
    (b">=", Sign::GreaterEqual),
    (b"==", Sign::Equal),
    (b"!=", Sign::NotEqual),
    (b"&&", Sign::LogicalAnd),
    (b"||", Sign::LogicalOr),
    (b"++", Sign::Increment),
    (b"--", Sign::Decrement),
    (b"(", Sign::LeftParen),
    (b")", Sign::RightParen),
    (b"[", Sign::LeftBracket),
    (b"]", Sign::RightBracket),
    (b"{", Sign::LeftBrace),
    (b"}", Sign::RightBrace),
    (b";", Sign::Semicolon),
    (b",", Sign::Comma),
    (b":", Sign::Colon),
    (b"?", Sign::Question),
    (b"=", Sign::Assign),
    (b"+", Sign::Plus),
    (b"-", Sign::Minus),
    (b"*", Sign::Star),
    (b"/", Sign::Slash),
    (b"%", Sign::Percent),
    (b"&", Sign::Ampersand),
    (b"|", Sign::Bar),
    (b"^", Sign::Caret),
    (b"<", Sign::Less),
    (b">", Sign::Greater),
    (b"~", Sign::Tilde),
    (b"!", Sign::Exclamation),
];

fn sign_in(table: &[(&[u8], Sign)], text: &[u8]) -> Sign
    ensures { result ≡ sign_by (λ entry. bytes_eq entry.0.now text.now) (λ entry. entry.1) table.now }
{
    for (spelling, sign) in table {
        if *spelling == text {
            return *sign;
        }
    }
    Sign::Other
}

fn keyword(text: &[u8]) -> Sign
    ensures { result ≡ keyword_sign text.now }
{
    sign_in(&KEYWORDS, text)
}

fn mark(text: &[u8]) -> Sign
    ensures { result ≡ mark_sign text.now }
{
    sign_in(&MARKS, text)
}

/// The sign of a token.
pub fn sign_of(kind: &TokenKind) -> Sign
    ensures { result ≡ sign_of_word (word_of kind.now) }
{
    match kind {
        TokenKind::Keyword(text) => keyword(text.as_slice()),
        TokenKind::Mark(text) => mark(text.as_slice()),
        TokenKind::Include => Sign::Include,
        TokenKind::End => Sign::End,
        _ => Sign::Other,
    }
}
