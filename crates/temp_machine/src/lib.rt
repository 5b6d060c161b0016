//! The temporary machine: code in which temporaries stand in the place of registers, as the passes between the source and the assembly
//! text see it.
//!
//! A routine (specs/Routines) is a list of basic blocks of transfers. The machine (specs/Machine) runs a block a step: it calls and
//! returns, each call has a frame and temporaries of its own, cells and bytes may be unset, and it fails where an unset value is used or
//! a byte is touched that isn't the call's. On it every pass is measured (specs/Keeps). specs/Flow, Live and Tidy say where the flow
//! goes, which cells are live, which temporaries may share a home, and how much room code takes.
#![tactic(auto)]

pub mod laws;
