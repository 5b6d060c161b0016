//! What lowering keeps. The functions do nothing: each promises a law.

ghost use Rattle.c_lowering.specs.Law.{FramesStay, LoweredDoesTheSame, NoneIsLeft};

/// On each input on which the source never fails, the lowered program does what the source does.
pub fn lowered_does_the_same()
    ensures { LoweredDoesTheSame }
{}

/// A lowered function has the frame of the function.
pub fn frames_stay()
    ensures { FramesStay }
{}

/// Where each operator that a machine lacks, of those that a program has, is lowered, the lowered
/// program has none that the machine lacks.
pub fn none_is_left()
    ensures { NoneIsLeft }
{}
