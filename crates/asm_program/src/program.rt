//! Programs.

use md_rows::Instance;
use rtl_tree::Names;
use rtl_value::LabelAt;
use std::marker::Model;

/// A program: its instructions, the labels with the numbers of their instructions, the address of each object of its names, and the bytes
/// of its data. Contracts see these as lists.
#[derive(Drop)]
pub struct Program {
    pub lines: Vec<Instance>,
    pub labels: Vec<LabelAt>,
    /// The address of each object, by the object's place among the names.
    pub symbols: Vec<u32>,
    /// From the address on at which the description's data begin.
    pub bytes: Vec<u8>,
    pub names: Names,
}

impl Model for Program {
    ghost use Rattle.asm_program.specs.Programs.{Assembled, IsAssembled};

    ghost Value = { Assembled };

    ghost view = { λ p. record { lines = p.lines.items; labels = p.labels.items; symbols = p.symbols.items; bytes = p.bytes.items; names = p.names } };

    ghost invariant = { λ p. IsAssembled (record { lines = p.lines.items; labels = p.labels.items; symbols = p.symbols.items; bytes = p.bytes.items; names = p.names }) };
}
