//! A law of the top call's contract.

ghost use Rattle.vpo_top.specs.Laws.{EachFormIsJudged};

/// A form of the words that nothing judges would be answered by anything.
pub fn each_form_is_judged()
    ensures { EachFormIsJudged }
{}
