//! Bindings with the addresses of objects and the places of labels in place of their names.

ghost use Rattle.std.specs.Prelude.{IfOk, map, ◌≡◌};
ghost use Rattle.rtl_value.specs.Values.{place_of_label};
ghost use Rattle.rtl_machine.specs.Loading.{link_in};

use asm_program::Program;
use md_rows::{Binding, Bound};
use rtl_tree::{Lab, NoMemory, is_same_label};
use rtl_value::LabelAt;
use smallvec::SmallVec;
use std::alloc::Global;

fn place_of(labels: &[LabelAt], label: Lab) -> Option<u32>
    ensures { result ≡ place_of_label labels.now label }
{
    for entry in labels {
        if is_same_label(entry.label, label) {
            return Some(entry.at);
        }
    }
    None
}

/// The value with a number in place of a name; 0 stands for a name that is nowhere.
fn link(value: Bound, p: &Program) -> Bound
    ensures { result ≡ link_in p.now.symbols p.now.labels value }
{
    match value {
        Bound::Sym(object) => Bound::Num(p.symbols.get(usize::from(object)).copied().unwrap_or(0)),
        Bound::Label(label) => Bound::Num(place_of(&p.labels, label).unwrap_or(0)),
        _ => value,
    }
}

fn linked_list(alloc: Global, list: &[Bound], p: &Program) -> Result<SmallVec<Bound, 8>, NoMemory>
    ensures { IfOk result (λ made. made.items ≡ map (link_in p.now.symbols p.now.labels) list.now) }
{
    let mut made = SmallVec::new(alloc);
    for value in list {
        made.push(link(*value, p))?;
    }
    Ok(made)
}

/// A binding with numbers in place of names.
pub fn linked(alloc: Global, binding: &Binding, p: &Program) -> Result<Binding, NoMemory>
    ensures { IfOk result (λ made. made ≡ map (link_in p.now.symbols p.now.labels) binding.now) }
{
    let list = linked_list(alloc, binding.list.as_slice(), p)?;
    Ok(Binding { list })
}
