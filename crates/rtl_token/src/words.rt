//! What a word says.

ghost use Rattle.std.specs.Prelude.{◌≡◌, map};
ghost use Rattle.rtl_spelling.specs.Senses.{keywords, sense_among};

use rtl_spelling::{Bank, Sense};
use rtl_tree::{BinOp, Cell, UnOp, Width};
use rtl_word::Rel;

/// The words that always say the same.
const KEYWORDS: [(&[u8], Sense); 30] = [
    (b"r", Sense::Bank(Bank::Register)),
    (b"t", Sense::Bank(Bank::Temporary)),
    (b"f", Sense::Bank(Bank::Flag)),
    (b"PC", Sense::Cell(Cell::Pc)),
    (b"IN", Sense::Cell(Cell::Input)),
    (b"OUT", Sense::Cell(Cell::Output)),
    (b"HALT", Sense::Cell(Cell::Halt)),
    (b"M", Sense::Memory(Width::Full)),
    (b"B", Sense::Memory(Width::Byte)),
    (b"neg", Sense::Unary(UnOp::Neg)),
    (b"not", Sense::Unary(UnOp::Not)),
    (b"sxb", Sense::Unary(UnOp::Sxb)),
    (b"div", Sense::Binary(BinOp::Div)),
    (b"divu", Sense::Binary(BinOp::Divu)),
    (b"rem", Sense::Binary(BinOp::Rem)),
    (b"remu", Sense::Binary(BinOp::Remu)),
    (b"shl", Sense::Binary(BinOp::Shl)),
    (b"shr", Sense::Binary(BinOp::Shr)),
    (b"shru", Sense::Binary(BinOp::Shru)),
    (b"eq", Sense::Binary(BinOp::Cmp(Rel::Eq))),
    (b"ne", Sense::Binary(BinOp::Cmp(Rel::Ne))),
    (b"lt", Sense::Binary(BinOp::Cmp(Rel::Lt))),
    (b"le", Sense::Binary(BinOp::Cmp(Rel::Le))),
    (b"gt", Sense::Binary(BinOp::Cmp(Rel::Gt))),
    (b"ge", Sense::Binary(BinOp::Cmp(Rel::Ge))),
    (b"ltu", Sense::Binary(BinOp::Cmp(Rel::Ltu))),
    (b"leu", Sense::Binary(BinOp::Cmp(Rel::Leu))),
    (b"gtu", Sense::Binary(BinOp::Cmp(Rel::Gtu))),
    (b"geu", Sense::Binary(BinOp::Cmp(Rel::Geu))),
    (b"lost", Sense::Lost),
];

// What the first entry with this word says.
fn sense_in(table: &[(&[u8], Sense)], word: &[u8]) -> Sense
    ensures { result ≡ sense_among (map (λ entry. (entry.0.now, entry.1)) table.now) word.now }
{
    for entry in table {
        if entry.0 == word {
            return entry.1;
        }
    }
    Sense::Strange
}

/// What a word says that always says the same.
pub(crate) fn keyword(word: &[u8]) -> Sense
    ensures { result ≡ sense_among keywords word.now }
{
    sense_in(&KEYWORDS, word)
}
