//! The first instance that does a transfer.

ghost use Rattle.std.specs.Prelude.{◌≡◌, IfNone, IfSome};
ghost use Rattle.rtl_tree.specs.Sets.{bits_of};
ghost use Rattle.md_rows.specs.declared.instance.Instance.{Instance as Instruction};
ghost use Rattle.md_rows.specs.declared.row.Row.{Row as Line};
ghost use Rattle.md_rows.specs.Instances.{IsInstance};
ghost use Rattle.recogniser.specs.Recognising.{DoesTransfer, IsFirst};

use crate::flags::flags_of;
use crate::rows::{Request, first_instance};
use md_check::Checked;
use md_covers::general_bits;
use md_covers::laws::general_bits_are_a_sum;
use md_rows::Instance;
use md_said::{said_is_limited, said_is_sound};
use rtl_tree::{CellSet, Effects};
use rtl_word::Word;

/// The first instance that does a transfer where these cells are dead: the first row that does it, with the binding of the first list
/// of choices. A row's normal form is compared with the transfer as it stands, so a transfer in normal form is asked. Takes no memory.
pub fn recognise<W: Word>(m: &Checked<W>, e: &Effects, dead: &CellSet) -> Option<Instance>
    ensures instance { IfSome result (λ i. (row : Line) × IsInstance m.now i row) }
    ensures first { IfSome result (IsFirst m.now (bits_of dead.now) e.now) }
    ensures none { IfNone result ((i : Instruction) → ¬ DoesTransfer m.now (bits_of dead.now) e.now i) }
{
    said_is_sound();
    said_is_limited();
    general_bits_are_a_sum();
    let description = m.raw();
    first_instance(&Request {
        description,
        general: general_bits(description.registers.as_slice()),
        flags: flags_of(*dead),
        transfer: e,
    })
}
