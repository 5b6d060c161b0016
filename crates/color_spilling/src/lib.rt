//! Loads of homes before a transfer, and stores to homes behind it.
//!
//! specs/Spilling says which transfers are loads and stores of homes: those that do as the shapes do, but for flags. specs/Passing says
//! what they do one after the other.
#![tactic(auto)]

ghost use Rattle.color_spilling.specs.Passing.{LoadsPass, StoresPass};

/// Loads put the words of homes into registers, and change nothing else but flags.
pub fn loads_pass()
    ensures { LoadsPass }
{}

/// Stores put the words of registers into homes, and change nothing else but flags.
pub fn stores_pass()
    ensures { StoresPass }
{}
