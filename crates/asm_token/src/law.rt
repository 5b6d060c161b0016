//! Laws of tokens.

ghost use Rattle.asm_token.specs.Law.{AtMostOneSpelled, LineReadsBack};
ghost use Rattle.asm_token.specs.Tokens.{IsGap, is_blank, is_blank_or_tab};

/// A text spells at most one list of tokens.
pub fn at_most_one_spelled()
    ensures { AtMostOneSpelled }
{}

/// The text of a line, as the writer gives it, spells the tokens of that line.
pub fn line_reads_back()
    ensures { LineReadsBack }
{}

/// Blanks and tabs are gaps: no token begins with one.
pub fn blanks_are_gaps()
    ensures blank { IsGap is_blank }
    ensures blank_or_tab { IsGap is_blank_or_tab }
{}
