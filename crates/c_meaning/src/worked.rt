//! Programs of a line each, and what they do: the meaning of each node and each undefined act by
//! example. The functions do nothing: each promises the runs that its word lists.

ghost use Rattle.c_meaning.specs.Worked.{CallActs, Conversions, Loops, ObjectActs, OperatorActs, Orders};

/// Signed overflow, division, and shifts (U1 to U4).
pub fn operator_acts()
    ensures { OperatorActs }
{}

/// An index outside its array, and what was never set (U5 and U6).
pub fn object_acts()
    ensures { ObjectActs }
{}

/// The value of a function that came to its end (U7), and a stack that doesn't suffice.
pub fn call_acts()
    ensures { CallActs }
{}

/// What is evaluated first, and what isn't evaluated.
pub fn orders()
    ensures { Orders }
{}

/// Loops at several bounds, input and output, and a switch.
pub fn loops()
    ensures { Loops }
{}

/// Values in another type.
pub fn conversions()
    ensures { Conversions }
{}
