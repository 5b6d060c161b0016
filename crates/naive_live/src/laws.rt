//! Laws of what is live in naive code.

ghost use Rattle.naive_live.specs.Function.{FunctionsAreSound, FunctionsLive, NamesAreTemporaries};
ghost use Rattle.naive_live.specs.Worked.{Worked};

/// Of a program that means something throughout and is sound, each function is such a one.
pub fn functions_are_sound()
    ensures { FunctionsAreSound }
{}

/// In the naive code of a function no two temporaries of one depth are live at once, beside those of scalars.
pub fn functions_live()
    ensures { FunctionsLive }
{}

/// The operations of a function name temporaries that have a home.
pub fn names_are_temporaries()
    ensures { NamesAreTemporaries }
{}

/// A sum and a choice, by temporaries of different depths, and a sum by two of one depth, which are live at once.
pub fn worked()
    ensures { Worked }
{}
