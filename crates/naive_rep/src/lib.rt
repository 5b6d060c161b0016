//! Points of a run of naive code that stand for the storage of its source: where each object's values are kept, and what keeps that so.
#![tactic(auto)]
