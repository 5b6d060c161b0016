//! Copies of code, which have the same contents.

ghost use Rattle.std.specs.Prelude.{◌≡◌, IfOk};
ghost use Rattle.rtl_tree.specs.Moves.{goal_of};

use crate::code::{Block, Code, End, Transfer};
use md_rows::{Binding, Instance};
use rtl_tree::{Assign, Effects, NoMemory, Place, copy};
use smallvec::SmallVec;
use sqlite_items::Items;
use std::alloc::Global;

fn copy_place(alloc: Global, place: &Place) -> Result<Place, NoMemory>
    ensures { IfOk result (λ c. goal_of c ≡ goal_of place.now) }
{
    match place {
        Place::Cell(cell) => Ok(Place::Cell(*cell)),
        Place::Mem(width, address) => Ok(Place::Mem(*width, copy(alloc, address)?)),
    }
}

fn copy_assign(alloc: Global, assign: &Assign) -> Result<Assign, NoMemory>
    ensures { IfOk result (λ c. c ≡ assign.now) }
{
    Ok(Assign {
        to: copy_place(alloc, &assign.to)?,
        value: copy(alloc, &assign.value)?,
    })
}

fn copy_list(alloc: Global, assigns: &[Assign]) -> Result<SmallVec<Assign, 3>, NoMemory>
    ensures { IfOk result (λ c. c.items ≡ assigns.now) }
{
    let mut list = SmallVec::new(alloc);
    for assign in assigns {
        list.push(copy_assign(alloc, assign)?)?;
    }
    Ok(list)
}

/// A copy of a transfer's assignments.
pub fn copy_effects(alloc: Global, effects: &Effects) -> Result<Effects, NoMemory>
    ensures { IfOk result (λ c. c ≡ effects.now) }
{
    let list = copy_list(alloc, effects.list.as_slice())?;
    Ok(Effects { list })
}

fn copy_binding(alloc: Global, binding: &Binding) -> Result<Binding, NoMemory>
    ensures { IfOk result (λ c. c ≡ binding.now) }
{
    let list = SmallVec::from_slice(alloc, binding.list.as_slice())?;
    Ok(Binding { list })
}

fn copy_instance(alloc: Global, instance: &Instance) -> Result<Instance, NoMemory>
    ensures { IfOk result (λ c. c ≡ instance.now) }
{
    Ok(Instance {
        row: instance.row,
        binding: copy_binding(alloc, &instance.binding)?,
    })
}

/// A copy of a transfer, with its instruction.
pub fn copy_transfer(alloc: Global, transfer: &Transfer) -> Result<Transfer, NoMemory>
    ensures { IfOk result (λ c. c ≡ transfer.now) }
{
    Ok(Transfer {
        what: copy_effects(alloc, &transfer.what)?,
        by: copy_instance(alloc, &transfer.by)?,
    })
}

fn copy_end(alloc: Global, end: &End) -> Result<End, NoMemory>
    ensures { IfOk result (λ c. c ≡ end.now) }
{
    match end {
        End::Fall => Ok(End::Fall),
        End::Jump(transfer) => Ok(End::Jump(copy_transfer(alloc, transfer)?)),
        End::Branch(transfer) => Ok(End::Branch(copy_transfer(alloc, transfer)?)),
        End::Call(transfer) => Ok(End::Call(copy_transfer(alloc, transfer)?)),
        End::Return => Ok(End::Return),
    }
}

fn copy_body(alloc: Global, body: &[Transfer]) -> Result<Items<Transfer>, NoMemory>
    ensures { IfOk result (λ c. c ≡ body.now) }
{
    let mut made = Items::new(alloc);
    for transfer in body {
        made.push(copy_transfer(alloc, transfer)?)?;
    }
    Ok(made)
}

fn copy_block(alloc: Global, block: &Block) -> Result<Block, NoMemory>
    ensures { IfOk result (λ c. c ≡ block.now) }
{
    Ok(Block {
        label: block.label,
        body: copy_body(alloc, block.body.as_slice())?,
        end: copy_end(alloc, &block.end)?,
    })
}

fn copy_blocks(alloc: Global, blocks: &[Block]) -> Result<Items<Block>, NoMemory>
    ensures { IfOk result (λ c. c ≡ blocks.now) }
{
    let mut made = Items::new(alloc);
    for block in blocks {
        made.push(copy_block(alloc, block)?)?;
    }
    Ok(made)
}

/// A code with the same contents.
pub fn copy_code(alloc: Global, code: &Code) -> Result<Code, NoMemory>
    ensures { IfOk result (λ c. c ≡ code.now) }
{
    Ok(Code {
        function: code.function,
        params: code.params,
        frame: code.frame,
        first_home: code.first_home,
        slots: code.slots,
        homes: Items::from_slice(alloc, code.homes.as_slice())?,
        blocks: copy_blocks(alloc, code.blocks.as_slice())?,
    })
}
