//! Keywords and marks.

ghost use Rattle.std.specs.Prelude.{◌≡◌};
ghost use Rattle.std.specs.List.{list_any};
ghost use Rattle.std.specs.Str.{bytes_eq};
ghost use Rattle.c_lexer.specs.Words.{is_one_of, keywords, marks};

/// C11 6.4.1.
const KEYWORDS: [&[u8]; 44] = [
    b"auto",
    b"break",
    b"case",
    b"char",
    b"const",
    b"continue",
    b"default",
    b"do",
    b"double",
    b"else",
    b"enum",
    b"extern",
    b"float",
    b"for",
    b"goto",
    b"if",
    b"inline",
    b"int",
    b"long",
    b"register",
    b"restrict",
    b"return",
    b"short",
    b"signed",
    b"sizeof",
    b"static",
    b"struct",
    b"switch",
    b"typedef",
    b"union",
    b"unsigned",
    b"void",
    b"volatile",
    b"while",
    b"_Alignas",
    b"_Alignof",
    b"_Atomic",
    b"_Bool",
    b"_Complex",
    b"_Generic",
    b"_Imaginary",
    b"_Noreturn",
    b"_Static_assert",
    b"_Thread_local",
];

const MARKS: [&[u8]; 43] = [
    b"<<=", b">>=", b"+=", b"-=", b"*=", b"/=", b"%=", b"&=", b"|=", b"^=", b"<<", b">>", b"<=",
    b">=", b"==", b"!=", b"&&", b"||", b"++", b"--", b"(", b")", b"[", b"]", b"{", b"}", b";",
    b",", b":", b"?", b"=", b"+", b"-", b"*", b"/", b"%", b"&", b"|", b"^", b"<", b">", b"~", b"!",
];

fn contains(words: &[&[u8]], bytes: &[u8]) -> bool
    ensures { result ≡ list_any (λ word. bytes_eq word.now bytes.now) words.now }
{
    words.iter().any(|word| *word == bytes)
}

pub(crate) fn is_keyword(bytes: &[u8]) -> bool
    ensures { result ≡ is_one_of keywords bytes.now }
{
    contains(&KEYWORDS, bytes)
}

pub(crate) fn is_mark(bytes: &[u8]) -> bool
    ensures { result ≡ is_one_of marks bytes.now }
{
    contains(&MARKS, bytes)
}
