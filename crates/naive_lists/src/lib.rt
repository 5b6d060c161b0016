//! Naive code of local arrays that are initialised by a list.
#![tactic(auto)]
