//! How an accepted description lays out memory: data begin at a word, and some memory is left between them and the stack.
#![tactic(auto)]

ghost use Rattle.md_layout.specs.Layout.{SaidIsLaidOut};

/// What an accepted text says of memory, data and stack, by the order of its heading and the ranges of the numbers there.
pub fn said_is_laid_out()
    ensures { SaidIsLaidOut }
{}
