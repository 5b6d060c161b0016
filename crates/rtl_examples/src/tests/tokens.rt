//! The longest token of an assembly line, and the bytes of tokens.

use super::table::{Row, check};
use asm_token::token::{Token, push_token, token_at};
use std::alloc::Global;

/// A text with the token at its front and that one's length.
struct Front(&'static [u8], Option<(Token<'static>, usize)>);

impl Row for Front {
    fn holds(&self, _: Global) -> bool {
        token_at(self.0) == self.1
    }
}

const TOKENS: [Front; 13] = [
    Front(b"mov #1,r1", Some((Token::Name(b"mov"), 3))),
    Front(b"_x$1.y+", Some((Token::Name(b"_x$1.y"), 6))),
    Front(b"#1", Some((Token::Mark(b'#'), 1))),
    Front(b"::", Some((Token::Mark(b':'), 1))),
    Front(b"00", Some((Token::Number(0), 1))),
    Front(b"12345678901", Some((Token::Number(1_234_567_890), 10))),
    Front(b"-9999999999", Some((Token::Number(-9_999_999_999), 11))),
    Front(b"9abc", Some((Token::Number(9), 1))),
    Front(b"-0", None),
    Front(b"- 1", None),
    Front(b" x", None),
    Front(b"%", None),
    Front(b"", None),
];

#[test]
fn tokens_of_lines(rt: HostRuntime) {
    check(&rt, rt.alloc(), "tokens", &TOKENS);
    let mut line = Vec::new(rt.alloc());
    let is_whole = push_token(&mut line, Token::Name(b"add")).is_ok()
        & push_token(&mut line, Token::Mark(b'#')).is_ok()
        & push_token(&mut line, Token::Number(-12)).is_ok();
    assert!(rt; is_whole && line.as_slice() == b"add#-12".as_slice());
}
