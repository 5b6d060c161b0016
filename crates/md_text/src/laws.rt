//! Laws of descriptions' texts.

ghost use Rattle.md_text.specs.Laws.{AtMostOneDeclared, AtMostOneDescription, AtMostOneFall, AtMostOneForm, AtMostOneText, AtMostOneTold, DeclaredIsNumbered};

/// A text falls into lines in one way.
pub fn at_most_one_fall()
    ensures { AtMostOneFall }
{}

/// The text of a row or mode has at most one list of pieces.
pub fn at_most_one_text()
    ensures { AtMostOneText }
{}

/// A line has at most one form.
pub fn at_most_one_form()
    ensures { AtMostOneForm }
{}

/// A text declares at most one thing.
pub fn at_most_one_declared()
    ensures { AtMostOneDeclared }
{}

/// An accepted text says one description.
pub fn at_most_one_description()
    ensures { AtMostOneDescription }
{}

/// At most one rule is told of a text, at one line.
pub fn at_most_one_told()
    ensures { AtMostOneTold }
{}

/// The lines that a text declares are numbered from 1 on, and words have 16 or 32 bits.
pub fn declared_is_numbered()
    ensures { DeclaredIsNumbered }
{}
