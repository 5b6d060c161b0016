//! Laws, each the contract of an empty function.

ghost use Rattle.rtl_spelling.specs.Law.{AtMostOneFault, AtMostOneLexed, AtMostOneSpelled, LexedIsEnded, PrintedIsOnly, PrintedSays, ReadingAnswers, SpelledIsRead, StuckIsNotLexed};

/// What is read of the tokens of a text is what they spell; where nothing is read, the first fault lies where the reading says.
pub fn reading_answers()
    ensures { ReadingAnswers }
{}

/// What is spelled is read, so tokens spell at most one transfer.
pub fn spelled_is_read()
    ensures { SpelledIsRead }
{}

/// Tokens have one fault, at one place, or none where they spell a transfer.
pub fn at_most_one_fault()
    ensures { AtMostOneFault }
{}

/// A text falls into at most one list of tokens.
pub fn at_most_one_lexed()
    ensures { AtMostOneLexed }
{}

/// A text in which a byte begins no token falls into no list of tokens.
pub fn stuck_is_not_lexed()
    ensures { StuckIsNotLexed }
{}

/// In the tokens of a text the end stands last, and nowhere else.
pub fn lexed_is_ended()
    ensures { LexedIsEnded }
{}

/// A text spells at most one transfer.
pub fn at_most_one_spelled()
    ensures { AtMostOneSpelled }
{}

/// What is printed of a well-formed transfer spells it, and so reads back.
pub fn printed_says()
    ensures { PrintedSays }
{}

/// Without holes a well-formed transfer has no other spelling than what is printed of it.
pub fn printed_is_only()
    ensures { PrintedIsOnly }
{}
