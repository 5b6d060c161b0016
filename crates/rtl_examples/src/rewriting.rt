//! The text of a normal form.

ghost use Rattle.std.specs.Prelude.{IfErr, IfOk, List};
ghost use Rattle.rtl_tree.specs.Moves.{Move};
ghost use Rattle.rtl_spelling.specs.Contract.{TextSays};
ghost use Rattle.rtl_spelling.specs.Spelling.{AreApart};
ghost use Rattle.rtl_text.specs.Answering.{Refuses};
ghost use Rattle.rtl_text.specs.Seen.{printing_context};
ghost use Rattle.rtl_examples.specs.NormalText.{IsNormalTextOf, Prints};

use rtl_simplify::normalise_effects;
use rtl_text::{TextFault, print_transfer, read_transfer};
use rtl_tree::Names;
use rtl_word::Word;
use std::alloc::Global;

/// The text of the normal form of the transfer that a text spells. No name may stand in both lists of `names`. The faults are those of
/// `read_transfer`.
pub fn normal_text<W: Word>(alloc: Global, text: &[u8], names: &Names) -> Result<Vec<u8>, TextFault>
    requires { AreApart names.now.objects names.now.functions }
    ensures normal { IfOk result (λ out. IsNormalTextOf (printing_context W.BITS names.now) text.now out.items) }
    ensures refused { IfErr result (Refuses (printing_context W.BITS names.now) text.now) }
    ensures only { (ms : List Move) → TextSays (printing_context W.BITS names.now) text.now ms → Prints (printing_context W.BITS names.now) ms result }
{
    let mut transfer = read_transfer::<W>(alloc, text, names)?;
    normalise_effects::<W>(&mut transfer);
    let mut out = Vec::new(alloc);
    print_transfer::<W>(alloc, &transfer, names, &mut out)?;
    Ok(out)
}
