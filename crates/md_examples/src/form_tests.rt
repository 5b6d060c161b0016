//! What lines say by the format of descriptions, on words of 16 bits.

use md_forms::{Form, Kind, OpenTransfer, OpenTree, Piece, Range, Said, Slot};
use md_parser::{FormFault, read_form};
use md_rows::Role;
use rtl_tree::{BinOp, Cell, Expr, Place, Width};
use rtl_word::Rel;
use sqlite_items::Items;
use std::alloc::Global;

// A piece of a text; a hole by its name, and what it takes.
#[derive(Clone, Copy)]
enum Part {
    Name(&'static [u8]),
    Number(i64),
    Mark(u8),
    Named(&'static [u8], &'static [u8]),
    Numbers(&'static [u8], bool, Range),
    Symbol(&'static [u8]),
    Label(&'static [u8]),
}

// What a line says. Of the last three the tree or the transfer is one of those below.
#[derive(Clone, Copy)]
enum Expected {
    Version,
    MachineName(&'static [u8]),
    WordBits(i64),
    MemorySize(i64),
    DataBegin(i64),
    StackSize(i64),
    Register(i64, &'static [u8], Role),
    Flag(i64, &'static [u8]),
    Class(&'static [u8], &'static [&'static [u8]]),
    IndexMode(&'static [u8], &'static [Part]),
    AddRow(&'static [Part]),
    BranchRow(&'static [Part]),
}

// `-2(<x:r>)<n:!-8..7>`
const INDEX: [Part; 5] = [
    Part::Number(-2),
    Part::Mark(b'('),
    Part::Named(b"x", b"r"),
    Part::Mark(b')'),
    Part::Numbers(b"n", true, Range::Between(-8, 7)),
];

// `add <s:a>,<d:r>`
const ADD: [Part; 4] = [
    Part::Name(b"add"),
    Part::Named(b"s", b"a"),
    Part::Mark(b','),
    Part::Named(b"d", b"r"),
];

// `_b<k:word> <t:label>+<v:sym>`
const BRANCH: [Part; 5] = [
    Part::Name(b"_b"),
    Part::Numbers(b"k", false, Range::OfWord),
    Part::Label(b"t"),
    Part::Mark(b'+'),
    Part::Symbol(b"v"),
];

const REGISTERS: [&[u8]; 3] = [b"r0", b"$1", b"r0"];

const LINES: [(&str, &Expected); 12] = [
    ("vpo 1", &Expected::Version),
    ("name _a.b$9", &Expected::MachineName(b"_a.b$9")),
    ("word 16", &Expected::WordBits(16)),
    ("memory 9999999999", &Expected::MemorySize(9_999_999_999)),
    ("data 0", &Expected::DataBegin(0)),
    ("stack -1", &Expected::StackSize(-1)),
    (
        "reg 31 $ra link",
        &Expected::Register(31, b"$ra", Role::Link),
    ),
    ("flag 7 Z", &Expected::Flag(7, b"Z")),
    ("class r r0 $1 r0", &Expected::Class(b"r", &REGISTERS)),
    (
        "mode index | -2 (<x:r>) <n:!-8..7> | M[(<n> + <x>)]",
        &Expected::IndexMode(b"index", &INDEX),
    ),
    (
        "row add <s:a>,<d:r> | <d> = (<d> + <s>); f[3] = lost",
        &Expected::AddRow(&ADD),
    ),
    (
        "row _b<k:word> <t:label>+<v:sym> | PC = ((<v> eq -1) -> <t>)",
        &Expected::BranchRow(&BRANCH),
    ),
];

fn is(name: &Items<u8>, expected: &[u8]) -> bool {
    name.as_slice() == expected
}

fn are(names: &Items<Items<u8>>, expected: &[&[u8]]) -> bool {
    let names = names.as_slice();
    if names.len() != expected.len() {
        return false;
    }
    names
        .iter()
        .zip(expected)
        .all(|(name, text)| is(name, text))
}

fn is_slot(slot: &Slot, part: Part) -> bool {
    match (&slot.kind, part) {
        (Kind::Named(class), Part::Named(name, expected)) => {
            is(&slot.name, name) && is(class, expected)
        }
        (Kind::Numbers { inverted, range }, Part::Numbers(name, turned, expected)) => {
            is(&slot.name, name) && *inverted == turned && *range == expected
        }
        (Kind::Symbols, Part::Symbol(name)) => is(&slot.name, name),
        (Kind::Labels, Part::Label(name)) => is(&slot.name, name),
        _ => false,
    }
}

fn is_part(piece: &Piece, part: Part) -> bool {
    match (piece, part) {
        (Piece::Name(name), Part::Name(expected)) => is(name, expected),
        (Piece::Number(number), Part::Number(expected)) => *number == expected,
        (Piece::Mark(byte), Part::Mark(expected)) => *byte == expected,
        (Piece::Hole(slot), _) => is_slot(slot, part),
        _ => false,
    }
}

fn is_text(text: &Items<Piece>, expected: &[Part]) -> bool {
    let text = text.as_slice();
    if text.len() != expected.len() {
        return false;
    }
    text.iter()
        .zip(expected)
        .all(|(piece, part)| is_part(piece, *part))
}

fn is_hole(tree: &Expr, number: u8) -> bool {
    match tree {
        Expr::Cell(Cell::Hole(other)) => *other == number,
        _ => false,
    }
}

fn is_sum(tree: &Expr, first: u8, second: u8) -> bool {
    match tree {
        Expr::Bin(BinOp::Add, left, right) => is_hole(left, first) && is_hole(right, second),
        _ => false,
    }
}

// Whether a tree is `M[(<n> + <x>)]`, where holes are numbered as they stand.
fn is_index_tree(tree: &OpenTree) -> bool {
    match &tree.tree {
        Expr::Mem(Width::Full, address) => {
            is_sum(address, 0, 1) && are(&tree.names, &[b"n".as_slice(), b"x"])
        }
        _ => false,
    }
}

// Of two holes of one name the first counts, so `<d> = (<d> + <s>)` assigns the hole 0.
fn is_add(said: &Said) -> bool {
    match &said.to {
        Some(Place::Cell(Cell::Hole(0))) => is_sum(&said.value, 0, 2),
        _ => false,
    }
}

fn loses_flag_3(said: &Said) -> bool {
    match &said.to {
        Some(Place::Cell(Cell::Flag(3))) => matches!(&said.value, Expr::Lost),
        _ => false,
    }
}

fn is_add_transfer(transfer: &OpenTransfer) -> bool {
    match transfer.moves.as_slice() {
        [add, lost] => {
            is_add(add)
                && loses_flag_3(lost)
                && are(&transfer.names, &[b"d".as_slice(), b"d", b"s"])
        }
        _ => false,
    }
}

fn is_minus_1(tree: &Expr) -> bool {
    match tree {
        Expr::Num(word) => *word == 65535,
        _ => false,
    }
}

fn is_test(tree: &Expr) -> bool {
    match tree {
        Expr::Bin(BinOp::Cmp(Rel::Eq), left, right) => is_hole(left, 0) && is_minus_1(right),
        _ => false,
    }
}

// Whether a tree is `((<v> eq -1) -> <t>)`.
fn is_jump(tree: &Expr) -> bool {
    match tree {
        Expr::Bin(BinOp::When, condition, target) => is_test(condition) && is_hole(target, 1),
        _ => false,
    }
}

fn is_branch_transfer(transfer: &OpenTransfer) -> bool {
    match transfer.moves.as_slice() {
        [said] => matches!(&said.to, Some(Place::Cell(Cell::Pc))) && is_jump(&said.value),
        _ => false,
    }
}

fn is_row(text: &Items<Piece>, transfer: &OpenTransfer, expected: Expected) -> bool {
    match expected {
        Expected::AddRow(parts) => is_text(text, parts) && is_add_transfer(transfer),
        Expected::BranchRow(parts) => is_text(text, parts) && is_branch_transfer(transfer),
        _ => false,
    }
}

fn is_declaration(form: &Form, expected: Expected) -> bool {
    match (form, expected) {
        (Form::RegisterLine { number, name, role }, Expected::Register(n, text, other)) => {
            *number == n && *role == other && is(name, text)
        }
        (Form::FlagLine { number, name }, Expected::Flag(n, text)) => {
            *number == n && is(name, text)
        }
        (Form::ClassLine { name, registers }, Expected::Class(text, names)) => {
            is(name, text) && are(registers, names)
        }
        (Form::ModeLine { name, text, tree }, Expected::IndexMode(word, parts)) => {
            is(name, word) && is_text(text, parts) && is_index_tree(tree)
        }
        (Form::RowLine { text, transfer }, _) => is_row(text, transfer, expected),
        _ => false,
    }
}

fn is_said(form: &Form, expected: Expected) -> bool {
    match (form, expected) {
        (Form::Version, Expected::Version) => true,
        (Form::MachineName(name), Expected::MachineName(text)) => is(name, text),
        (Form::WordBits(number), Expected::WordBits(n)) => *number == n,
        (Form::MemorySize(number), Expected::MemorySize(n)) => *number == n,
        (Form::DataBegin(number), Expected::DataBegin(n)) => *number == n,
        (Form::StackSize(number), Expected::StackSize(n)) => *number == n,
        _ => is_declaration(form, expected),
    }
}

fn says(alloc: Global, line: &[u8], expected: Expected) -> bool {
    if line.len() > 255 {
        return false;
    }
    let Ok(form) = read_form(alloc, 16, line) else {
        return false;
    };
    is_said(&form, expected)
}

// The first of these lines that doesn't say what is expected.
fn first_unsaid(
    alloc: Global,
    table: &[(&'static str, &'static Expected)],
) -> Option<&'static str> {
    for (line, expected) in table {
        if !says(alloc, line.as_bytes(), **expected) {
            return Some(*line);
        }
    }
    None
}

fn unsaid(alloc: Global) -> Option<&'static str> {
    first_unsaid(alloc, &LINES)
}

fn empty_has_no_form(alloc: Global) -> bool {
    matches!(read_form(alloc, 16, b""), Err(FormFault::NoForm))
}

#[test]
fn lines(rt: HostRuntime) {
    assert_eq!(rt; unsaid(rt.alloc()), None);
    assert!(rt; empty_has_no_form(rt.alloc()));
}
