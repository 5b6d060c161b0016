//! Naive code of `switch`: a list of statements that is entered at a label.
#![tactic(auto)]
