//! What helpers do when they are called. The functions do nothing: each promises a law.

ghost use Rattle.c_helper_trees.specs.Law.{HelperCalls, HelperFrames, HelpersTakeNothing};

/// A call of a helper gives what its operator gives of the arguments, and does nothing else.
pub fn helper_calls()
    ensures { HelperCalls }
{}

/// A helper's frame and the word of its return take at most 224 bytes.
pub fn helper_frames()
    ensures { HelperFrames }
{}

/// A helper isn't counted in what the calls of a program take of its stack.
pub fn helpers_take_nothing()
    ensures { HelpersTakeNothing }
{}
