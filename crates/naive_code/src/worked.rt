//! The function does nothing: it promises the operations that its words list.

ghost use Rattle.naive_code.specs.Worked.{Operations};

/// A constant, a sum, a test, an element that is set, and a loop.
pub fn operations()
    ensures { Operations }
{}
