//! What the passes make.

use asm_program::Program;
use sqlite_items::Items;
use temp_code::Code;

/// A pass.
#[derive(Clone, Copy, PartialEq, Eq, Debug)]
pub enum Pass {
    Expand,
    Tidy,
    Common,
    Motion,
    Combine,
    Colour,
    Final,
    Link,
}

/// The code of one function behind a pass, or that of the program's start.
#[derive(Drop)]
pub struct Part {
    /// The function, by its place among the names of the program.
    pub function: Option<u16>,
    pub code: Code,
}

/// All code behind a pass.
#[derive(Drop)]
pub struct Dump {
    pub pass: Pass,
    pub parts: Items<Part>,
}

/// The code behind each pass, and the program.
#[derive(Drop)]
pub struct Compiled {
    pub dumps: Items<Dump>,
    pub program: Program,
}
