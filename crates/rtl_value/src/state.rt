//! What trees read.

use rtl_tree::Lab;
use std::marker::Model;

/// Why a step of a machine has no effect. The numbers are those that a stopped run tells.
#[derive(Clone, Copy, Debug, PartialEq, Eq)]
pub enum Trap {
    /// 1: a divisor is 0, or a quotient is no word.
    Divide,
    /// 2: a shift by the word's bits or more.
    Shift,
    /// 3: a byte outside memory.
    Address,
    /// 4: the address of a word is no multiple of the word's bytes.
    Align,
    /// 5: the test of a flag that holds no pair.
    LostFlag,
    /// 6: a place that has no instruction.
    Place,
}

/// The two words that a flag holds.
#[derive(Clone, Copy, Debug, PartialEq, Eq)]
pub struct FlagPair {
    pub left: u32,
    pub right: u32,
}

/// A label with the number of the instruction that it names.
#[derive(Clone, Copy, Debug, PartialEq, Eq)]
pub struct LabelAt {
    pub label: Lab,
    pub at: u32,
}

/// Words, which contracts see as their list.
#[derive(Debug, Drop)]
pub struct Words {
    pub list: Vec<u32>,
}

impl Model for Words {
    ghost use Rattle.std.specs.Prelude.{List, ℕ};

    ghost Value = { List ℕ };

    ghost view = { λ w. w.list.items };
}

/// Bytes, which contracts see as their list.
#[derive(Debug, Drop)]
pub struct Bytes {
    pub list: Vec<u8>,
}

impl Model for Bytes {
    ghost use Rattle.std.specs.Prelude.{List, ℕ};

    ghost Value = { List ℕ };

    ghost view = { λ b. b.list.items };
}

/// Flags, which contracts see as the list of what each holds: a pair, or nothing where it is lost.
#[derive(Debug, Drop)]
pub struct Flags {
    pub list: Vec<Option<FlagPair>>,
}

impl Model for Flags {
    ghost use Rattle.std.specs.Prelude.{List, Option};
    ghost use Rattle.rtl_value.specs.declared.state.FlagPair.{FlagPair};

    ghost Value = { List (Option FlagPair) };

    ghost view = { λ f. f.list.items };
}

/// Labels with their places, which contracts see as the list of them.
#[derive(Debug, Drop)]
pub struct Labels {
    pub list: Vec<LabelAt>,
}

impl Model for Labels {
    ghost use Rattle.std.specs.Prelude.{List};
    ghost use Rattle.rtl_value.specs.declared.state.LabelAt.{LabelAt};

    ghost Value = { List LabelAt };

    ghost view = { λ l. l.list.items };
}

/// What a tree reads: 64 registers, temporaries, 8 flags, the number of the next instruction, memory, the next byte of the input (none at
/// its end), the address of each object by its place among the names, and the places of labels.
#[derive(Debug, Drop)]
pub struct State {
    pub registers: Words,
    pub temps: Words,
    pub flags: Flags,
    pub next_place: u32,
    pub memory: Bytes,
    pub input: Option<u8>,
    pub symbols: Words,
    pub labels: Labels,
}
