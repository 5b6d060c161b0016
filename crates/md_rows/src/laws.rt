//! Laws of rows.

ghost use Rattle.md_rows.specs.Printing.{PrintsNumberOf};

/// A number hole prints, for the value of each number of its range, that number, and nothing for other words.
pub fn prints_number_of_value()
    ensures { PrintsNumberOf }
{}
