//! What the rules of a description's text give of the tokens of its rows: each literal token is one of assembly lines, no colon, and no
//! name that a label, a directive or a symbol may have; each row has some token, and registers have names.
//!
//! specs/Literals.antt has what is said, and proofs/ its two parts: `Pieces`, that what is spelled is such and that modes keep to it;
//! `Whole`, what the rule on reserved names gives.
#![tactic(auto)]

ghost use Rattle.md_literals.specs.Literals.{SaidHasLiterals};

/// The rows of what an accepted text says have such tokens, and its registers names.
pub fn said_has_literals()
    ensures { SaidHasLiterals }
{}
