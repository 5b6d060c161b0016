//! Jumps in normal form, in code with registers in place of temporaries.
#![tactic(auto)]

ghost use Rattle.color_jumps.specs.Jumps.{JumpIsRenamed, JumpReadsLess};

/// Whether registers are put in before or after a jump is brought into its normal form makes no difference.
pub fn jump_is_renamed()
    ensures { JumpIsRenamed }
{}

/// A jump in normal form reads no other cell than the jump.
pub fn jump_reads_less()
    ensures { JumpReadsLess }
{}
