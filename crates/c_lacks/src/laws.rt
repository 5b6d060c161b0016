//! What the set of a description's operators stands for. The functions do nothing: each promises a law.

ghost use Rattle.c_lacks.specs.Laws.{NoneIsLacked, OperatorsAreThere, SetsAreOperators};

/// The bits of `operators` are the operators whose shapes the description covers.
pub fn sets_are_operators()
    ensures { SetsAreOperators }
{}

/// Naive code may use each operator whose shape is covered.
pub fn operators_are_there()
    ensures { OperatorsAreThere }
{}

/// The operators of a tree of which nothing is told are all in the set.
pub fn none_is_lacked()
    ensures { NoneIsLacked }
{}
