//! Names that are compared with a word.

ghost use Rattle.std.specs.Prelude.{◌≡◌};
ghost use Rattle.std.specs.Str.{bytes_eq};
ghost use Rattle.c_typing.specs.Expressions.{is_macro};

/// A name is this word.
pub fn is_word(name: &[u8], word: &[u8]) -> bool
    ensures { result ≡ bytes_eq name.now word.now }
{
    name == word
}

/// A name stands for the macro `EOF`.
pub fn is_macro(included: bool, name: &[u8]) -> bool
    ensures { result ≡ is_macro included name.now }
{
    included && is_word(name, b"EOF")
}
