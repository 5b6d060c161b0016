//! The word with which a line begins.

ghost use Rattle.std.specs.Prelude.{◌≡◌, IfSome, IfNone};
ghost use Rattle.md_parser.specs.declared.keywords.Keyword.{Keyword as Begun};
ghost use Rattle.md_parser.specs.Keywords.{Begins, keyword_text};

use md_lines::after_word;

/// The word with which a line begins.
#[derive(Clone, Copy, Debug, PartialEq, Eq)]
pub enum Keyword {
    Version,
    MachineName,
    WordBits,
    MemorySize,
    DataBegin,
    StackSize,
    Register,
    Flag,
    Class,
    Mode,
    Row,
}

/// The word with its space, or for the version the whole line.
fn text_of(keyword: Keyword) -> &'static [u8]
    ensures { result.now ≡ keyword_text keyword }
{
    match keyword {
        Keyword::Version => b"vpo 1",
        Keyword::MachineName => b"name ",
        Keyword::WordBits => b"word ",
        Keyword::MemorySize => b"memory ",
        Keyword::DataBegin => b"data ",
        Keyword::StackSize => b"stack ",
        Keyword::Register => b"reg ",
        Keyword::Flag => b"flag ",
        Keyword::Class => b"class ",
        Keyword::Mode => b"mode ",
        Keyword::Row => b"row ",
    }
}

/// All keywords.
const KEYWORDS: [Keyword; 11] = [
    Keyword::Version,
    Keyword::MachineName,
    Keyword::WordBits,
    Keyword::MemorySize,
    Keyword::DataBegin,
    Keyword::StackSize,
    Keyword::Register,
    Keyword::Flag,
    Keyword::Class,
    Keyword::Mode,
    Keyword::Row,
];

/// The keyword with which the line begins.
pub fn first_word(line: &[u8]) -> Option<Keyword>
    ensures found { IfSome result (λ keyword. Begins line.now keyword) }
    ensures none { IfNone result ((keyword : Begun) → Begins line.now keyword → ⊥) }
{
    for keyword in KEYWORDS {
        if let Some(_rest) = after_word(line, text_of(keyword)) {
            return Some(keyword);
        }
    }
    None
}
