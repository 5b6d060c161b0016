//! That the premises of the law can be met.

ghost use Rattle.naive_whole.specs.Example.{PremisesAreMet, EndsAsItsSource};

/// A program of a static object and two functions, with its naive code.
pub fn premises_are_met()
    ensures { PremisesAreMet }
{}

/// By the law the code ends with the status of its source.
pub fn code_ends_as_its_source()
    ensures { EndsAsItsSource }
{}
