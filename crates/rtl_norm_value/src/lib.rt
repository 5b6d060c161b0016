//! What the normal form keeps: of a tree what is seen in every view, and so its value in every state, and of a transfer what it
//! does.
//!
//! The laws are the contracts of empty functions. They speak of trees of words, as `value` may be given them: flags and pairs
//! stand only under tests. Their numbers are below 2 to the word's bits, and so is what is set in the view or the state.
#![tactic(auto)]

ghost use Rattle.rtl_norm_value.specs.Effect.{EffectIsKept, JumpIsPlace, NormalFormHasNormalJump, NormalJumpIsKept, WordsAreKept};
ghost use Rattle.rtl_norm_value.specs.Kept.{SeenIsKept, ValueIsKept};
ghost use Rattle.rtl_norm_value.specs.Moved.{NormalFormMovesJump, WildAsItStands};

/// In every view, whatever is unset there, the normal form of a tree is seen as the tree is: the same word, nothing where that
/// is unset, or the same trap.
#[tactic(auto, using(crate::proofs::Seen::seen_is_kept))]
pub fn normal_form_is_seen_alike()
    ensures { SeenIsKept }
{}

/// In every state the normal form of a tree has the tree's value, or its first trap.
#[tactic(auto, using(crate::proofs::Value::value_is_kept))]
pub fn normal_form_has_the_value()
    ensures { ValueIsKept }
{}

/// The normal form of a well-formed transfer does what the transfer does, where labels are read as their places or the value of
/// the program counter is its own normal form.
#[tactic(auto, using(crate::proofs::Same::effect_is_kept))]
pub fn normal_form_does_the_same()
    ensures { EffectIsKept }
{}

/// Code with temporaries takes the value of the program counter in its normal form, `with_normal_jump`. There a label is unset
/// as a word and set as a target, and a transfer does what its normal form does; on a machine this is what the transfer
/// does as it stands.
#[tactic(auto, using(crate::proofs::Same::normal_jump_is_kept, crate::proofs::Same::jump_is_place, crate::proofs::Same::normal_form_has_normal_jump))]
pub fn normal_jump_does_the_same()
    ensures everywhere { NormalJumpIsKept }
    ensures placed { JumpIsPlace }
    ensures idempotent { NormalFormHasNormalJump }
{}

/// A transfer of words on a view of words leaves a view of words, where the input is bytes.
pub fn effect_keeps_words()
    ensures { WordsAreKept }
{}

/// A counterexample: without the premise on jumps the law on effects would be false, in code with temporaries and elsewhere.
pub fn normal_form_moves_a_jump()
    ensures wild { WildAsItStands }
    ensures elsewhere { NormalFormMovesJump }
{}
