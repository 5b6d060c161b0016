//! Calls of the crates below, each with what it gives by the format of descriptions.

use asm_token::token::Token;
use md_lines::{
    Kind, Line, Lines, Piece, Range, Slot, before_word, is_name, number, read_lines, read_names,
    read_pieces, role, split_at_bar,
};
use md_match::{fits, fits_at};
use md_rows::{Bound, Hole, RawDescription, Role, number_of_word};
use md_shapes::{Pattern, Shape, pattern_of, shapes};
use md_verdict::verdict_line;
use rtl_tree::{BinOp, Cell, Lab, NoMemory};
use rtl_word::Rel;
use sqlite_items::Items;
use std::alloc::Global;

fn has_lines(lines: &Lines, expected: &[Line], last: u32) -> bool {
    lines.kept.as_slice() == expected && lines.last == last
}

fn reads_lines(alloc: Global) -> bool {
    let Ok(lines) = read_lines(alloc, b"vpo 1\n\n* a note\nname tiny\n\n") else {
        return false;
    };
    let first = Line {
        number: 1,
        bytes: b"vpo 1",
    };
    let second = Line {
        number: 4,
        bytes: b"name tiny",
    };
    has_lines(&lines, &[first, second], 5)
}

fn reads_names(alloc: Global) -> bool {
    let Ok(names) = read_names(alloc, b" r0 $1 sp") else {
        return false;
    };
    let expected = [b"r0".as_slice(), b"$1", b"sp"];
    names.as_slice() == expected.as_slice()
}

#[test]
fn lines_and_names(rt: HostRuntime) {
    assert!(rt; reads_lines(rt.alloc()));
    assert!(rt; reads_names(rt.alloc()));
}

#[test]
fn fields(rt: HostRuntime) {
    assert!(rt; number(b"-32768") == Some(-32768));
    assert!(rt; number(b"9999999999") == Some(9_999_999_999));
    assert!(rt; role(b"link") == Some(Role::Link));
    assert!(rt; role(b"linked").is_none());
    assert!(rt; is_name(b"_x$.9"));
    assert!(rt; !is_name(b"9x"));
}

#[test]
fn splits(rt: HostRuntime) {
    let parts = (b"a b".as_slice(), b"c | d".as_slice());
    assert!(rt; split_at_bar(b"a b | c | d") == Some(parts));
    assert!(rt; split_at_bar(b"a| b | c").is_none());
    assert!(rt; before_word(b"r[0] ", b" ") == Some(b"r[0]".as_slice()));
}

// The pieces of `mov  #<n:!-1..7>,$0<a:word><b:sym>-5<c:label><d:r.1>`.
const PIECES: [Piece; 10] = [
    Piece::Literal(Token::Name(b"mov")),
    Piece::Literal(Token::Mark(b'#')),
    Piece::Hole(Slot {
        name: b"n",
        kind: Kind::Numbers {
            inverted: true,
            range: Range::Between(-1, 7),
        },
    }),
    Piece::Literal(Token::Mark(b',')),
    Piece::Literal(Token::Name(b"$0")),
    Piece::Hole(Slot {
        name: b"a",
        kind: Kind::Numbers {
            inverted: false,
            range: Range::OfWord,
        },
    }),
    Piece::Hole(Slot {
        name: b"b",
        kind: Kind::Symbols,
    }),
    Piece::Literal(Token::Number(-5)),
    Piece::Hole(Slot {
        name: b"c",
        kind: Kind::Labels,
    }),
    Piece::Hole(Slot {
        name: b"d",
        kind: Kind::Named(b"r.1"),
    }),
];

fn reads_pieces(alloc: Global) -> bool {
    let text = b"mov  #<n:!-1..7>,$0<a:word><b:sym>-5<c:label><d:r.1>";
    let Ok(pieces) = read_pieces(alloc, text) else {
        return false;
    };
    pieces.as_slice() == PIECES.as_slice()
}

#[test]
fn pieces_of_a_text(rt: HostRuntime) {
    assert!(rt; reads_pieces(rt.alloc()));
}

const GENERAL: u64 = 0b1110;

const FITTING: [(Hole, Bound, bool); 9] = [
    (Hole::Reg(0b0110), Bound::Reg(Cell::Hard(1)), true),
    (Hole::Reg(0b0110), Bound::Reg(Cell::Hard(3)), false),
    (Hole::Reg(0b0110), Bound::Reg(Cell::Temp(7)), false),
    (Hole::Reg(0b1111), Bound::Reg(Cell::Temp(7)), true),
    (Hole::Sym, Bound::Sym(3), true),
    (Hole::Sym, Bound::Label(Lab::Block(3)), false),
    (Hole::Label, Bound::Label(Lab::Function(3)), true),
    (
        Hole::Num {
            low: -2,
            high: 5,
            inverted: false,
        },
        Bound::Num(65534),
        true,
    ),
    (
        Hole::Num {
            low: -2,
            high: 5,
            inverted: true,
        },
        Bound::Num(65534),
        true,
    ),
];

#[test]
fn numbers_of_words(rt: HostRuntime) {
    assert!(rt; number_of_word(16, -32768, 32767, false, 65535) == Some(-1));
    assert!(rt; number_of_word(16, 0, 65535, false, 65535) == Some(65535));
    assert!(rt; number_of_word(16, -32768, 32767, true, 65534) == Some(1));
    assert!(rt; number_of_word(16, 1, 3, false, 3) == Some(3));
    assert!(rt; number_of_word(16, 1, 3, false, 4).is_none());
    assert!(rt; number_of_word(32, -32768, -1, false, 4_294_967_295) == Some(-1));
    assert!(rt; number_of_word(32, -32768, -1, false, 1).is_none());
}

#[test]
fn values_in_holes(rt: HostRuntime) {
    for (hole, bound, answer) in FITTING {
        assert!(rt; fits(16, GENERAL, hole, bound) == answer);
    }
    assert!(rt; !fits_at(16, GENERAL, &[Hole::Sym], 1, Bound::Sym(0)));
}

fn shape(number: u8, form: u8, relation: Rel, flag: u8) -> Shape {
    Shape {
        number,
        form,
        relation,
        flag,
    }
}

// Shapes by their places in the list: the number, the form, the relation and the flag.
const SHAPES: [(usize, u8, u8, Rel, u8); 7] = [
    (0, 1, 0, Rel::Eq, 0),
    (18, 18, 1, Rel::Eq, 0),
    (29, 20, 0, Rel::Geu, 0),
    (30, 20, 1, Rel::Eq, 0),
    (47, 20, 2, Rel::Ne, 1),
    (118, 21, 0, Rel::Eq, 0),
    (136, 39, 0, Rel::Eq, 0),
];

fn is_at(list: &[Shape], place: usize, shape: Shape) -> bool {
    match list.get(place) {
        Some(other) => *other == shape,
        None => false,
    }
}

#[test]
fn places_of_shapes(rt: HostRuntime) {
    let table = shapes();
    for (place, number, form, relation, flag) in &SHAPES {
        let shape = shape(*number, *form, *relation, *flag);
        assert!(rt; is_at(&table.list, *place, shape), "{place}");
    }
}

// What shapes do, each by its number, its form, its relation and its flag.
const PATTERNS: [(u8, u8, Rel, u8, &Pattern); 8] = [
    (3, 0, Rel::Eq, 0, &Pattern::SetSymbol),
    (18, 0, Rel::Eq, 0, &Pattern::Operate(BinOp::And)),
    (18, 1, Rel::Eq, 0, &Pattern::Clear),
    (20, 0, Rel::Lt, 0, &Pattern::Branch(Rel::Lt)),
    (20, 1, Rel::Eq, 5, &Pattern::Compare(5)),
    (20, 2, Rel::Gt, 5, &Pattern::BranchByFlag(Rel::Gt, 5)),
    (34, 0, Rel::Eq, 0, &Pattern::Operate(BinOp::Remu)),
    (39, 0, Rel::Eq, 0, &Pattern::ExtendByte),
];

#[test]
fn patterns_of_shapes(rt: HostRuntime) {
    for (number, form, relation, flag, pattern) in &PATTERNS {
        let shape = shape(*number, *form, *relation, *flag);
        assert!(rt; pattern_of(shape) == Some(**pattern), "{number} {form}");
    }
    assert!(rt; pattern_of(shape(40, 0, Rel::Eq, 0)).is_none());
}

fn without_rows(alloc: Global) -> Result<RawDescription, NoMemory> {
    Ok(RawDescription {
        name: Items::from_slice(alloc, b"bare")?,
        word: 32,
        memory: 4096,
        base: 0,
        stack: 1024,
        registers: Items::new(alloc),
        flags: Items::new(alloc),
        rows: Items::new(alloc),
        last: 6,
    })
}

fn has_line(alloc: Global, d: &RawDescription, expected: &[u8]) -> bool {
    let Ok(line) = verdict_line(alloc, d) else {
        return false;
    };
    line.as_slice() == expected
}

fn tells_name_word_and_rows(alloc: Global) -> bool {
    let Ok(d) = without_rows(alloc) else {
        return false;
    };
    has_line(alloc, &d, b"accepted bare word 32 rows 0\n")
}

#[test]
fn a_line_tells_name_word_and_rows(rt: HostRuntime) {
    assert!(rt; tells_name_word_and_rows(rt.alloc()));
}
