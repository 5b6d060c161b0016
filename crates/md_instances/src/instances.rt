//! Instances of a description.

ghost use Rattle.std.specs.Prelude.{◌≡◌, IfOk, Some, slice_get};
ghost use Rattle.md_rows.specs.declared.row.Row.{Row as Line};
ghost use Rattle.md_rows.specs.Instances.{effects_with};
ghost use Rattle.md_instances.specs.Instances.{IsOfDescription};

use crate::filling::fill_row;
use md_check::Checked;
use md_rows::Instance;
use rtl_tree::{Effects, NoMemory};
use rtl_word::Word;
use std::alloc::Global;

/// The transfer that an instance makes.
pub fn effects_of<W: Word>(alloc: Global, m: &Checked<W>, i: &Instance) -> Result<Effects, NoMemory>
    requires { IsOfDescription m.now i.now }
    ensures { (row : Line) → slice_get m.now.rows i.now.row ≡ Some row → IfOk result (λ e. e ≡ effects_with row i.now.binding) }
{
    let rows = m.raw().rows.as_slice();
    fill_row(alloc, &rows[usize::from(i.row)], &i.binding)
}
