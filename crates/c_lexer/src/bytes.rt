//! Classes of bytes.

ghost use Rattle.std.specs.Prelude.{◌≡◌, ◌≤◌, length};
ghost use Rattle.std.specs.List.{list_all, prefix_len};
ghost use Rattle.c_lexer.specs.Bytes.{is_in};

#[derive(Clone, Copy, PartialEq, Eq, Debug)]
pub(crate) enum ByteClass {
    /// Space, tab, line feed, vertical tab, form feed and carriage return.
    Blank,
    /// A blank that doesn't end a line.
    LineBlank,
    /// A letter or `_`.
    Letter,
    Digit,
    Octal,
    Hexadecimal,
    NameByte,
    /// A byte of a numeral behind its first digit.
    NumberByte,
}

impl ByteClass {
    pub(crate) fn has(self, byte: u8) -> bool
        ensures { result ≡ is_in self byte }
    {
        match self {
            ByteClass::Blank => matches!(byte, b' ' | b'\t'..=b'\r'),
            ByteClass::LineBlank => matches!(byte, b' ' | b'\t' | 11..=b'\r'),
            ByteClass::Letter => matches!(byte, b'a'..=b'z' | b'A'..=b'Z' | b'_'),
            ByteClass::Digit => matches!(byte, b'0'..=b'9'),
            ByteClass::Octal => matches!(byte, b'0'..=b'7'),
            ByteClass::Hexadecimal => matches!(byte, b'0'..=b'9' | b'a'..=b'f' | b'A'..=b'F'),
            ByteClass::NameByte => matches!(byte, b'a'..=b'z' | b'A'..=b'Z' | b'_' | b'0'..=b'9'),
            ByteClass::NumberByte => {
                matches!(byte, b'a'..=b'z' | b'A'..=b'Z' | b'_' | b'0'..=b'9' | b'.')
            }
        }
    }

    /// The length of the longest front whose bytes are all of the class.
    pub(crate) fn run_len(self, bytes: &[u8]) -> usize
        ensures exact { result ≡ prefix_len (is_in self) bytes.now }
        ensures within { result ≤ length bytes.now }
    {
        bytes.iter().take_while(|b| self.has(**b)).count()
    }

    pub(crate) fn has_all(self, bytes: &[u8]) -> bool
        ensures { result ≡ list_all (is_in self) bytes.now }
    {
        bytes.iter().all(|b| self.has(*b))
    }
}
