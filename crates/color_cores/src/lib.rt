//! A transfer without its assignments to flags that nobody reads.
//!
//! A row may lose flags by what its target held, so such an assignment may read what isn't live. specs/Cores leaves these assignments
//! out: what is left does the same, and reads only what liveness counts.
#![tactic(auto)]

ghost use Rattle.color_cores.specs.Cores.{CoreDoes, CoreReads};

/// Where a transfer is done its core does the same, but for the flags that aren't wanted.
pub fn core_does()
    ensures { CoreDoes }
{}

/// The core reads only what liveness counts as read.
pub fn core_reads()
    ensures { CoreReads }
{}
