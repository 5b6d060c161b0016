//! Naive code of expressions brings their values to temporaries: what is asked of each node's code, and the proofs node by node.
#![tactic(auto)]
