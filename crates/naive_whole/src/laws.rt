//! The law of naive code.

ghost use Rattle.naive_run.specs.Law.{NaiveIsSame};

/// On each input of bytes on which its source does nothing undefined, naive code does what the source does.
pub fn naive_code_does_the_same()
    ensures { NaiveIsSame }
{}
