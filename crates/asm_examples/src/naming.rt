//! Whether the values of an instance have names on a line.

ghost use Rattle.std.specs.Prelude.{◌↔◌, All, IsTrue};
ghost use Rattle.asm_row.specs.Line.{IsNamed};

use md_rows::Bound;
use rtl_tree::{Cell, Lab, Names};

/// Whether a value is no temporary, and no object or function without a name.
pub fn is_named(names: &Names, bound: Bound) -> bool
    ensures { IsTrue result ↔ IsNamed names.now bound }
{
    match bound {
        Bound::Reg(Cell::Temp(_)) => false,
        Bound::Sym(place) => usize::from(place) < names.objects.len(),
        Bound::Label(Lab::Function(place)) => usize::from(place) < names.functions.len(),
        _ => true,
    }
}

/// Whether an instance with this binding can be printed.
pub fn are_named(names: &Names, binding: &[Bound]) -> bool
    ensures { IsTrue result ↔ All (IsNamed names.now) binding.now }
{
    binding.iter().all(|bound| is_named(names, *bound))
}
