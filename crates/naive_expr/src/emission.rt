//! Operations as they are appended.

ghost use Rattle.std.specs.Prelude.{◌≡◌, ◌+◌, ◌<◌, ◌^◌, [], ◌∷◌, ◌++◌, IfOk, OnOk, length, replicate};
ghost use Rattle.naive_expr.specs.Seen.{op_of};
ghost use Rattle.naive_expr.specs.Emitted.{Adds, emitted};

use crate::operations::{Op, Stop};
use rtl_tree::NoMemory;
use sqlite_items::Items;
use std::alloc::Global;

/// The operations so far, with the depth of each temporary that they take. Numbers from the next ones on are free.
#[derive(Drop)]
pub struct Emitter {
    pub ops: Items<Op>,
    pub depths: Items<u16>,
    pub next_temp: u16,
    pub next_label: u32,
}

/// Where a truth leads: to the target where it is as the sense says, and else on, in a block that is opened with the label `next`.
#[derive(Clone, Copy, Debug, PartialEq, Eq)]
pub struct Jump {
    pub sense: bool,
    pub target: u32,
    pub next: u32,
}

fn push_all(list: &mut Items<u16>, more: &[u16]) -> Result<(), NoMemory>
    ensures { OnOk result (list.new ≡ list.old ++ more.now) }
{
    for item in more {
        list.push(*item)?;
    }
    Ok(())
}

fn push_equal(list: &mut Items<u16>, item: u16, count: u16) -> Result<(), NoMemory>
    ensures { OnOk result (list.new ≡ list.old ++ replicate count item) }
{
    for _ in 0..count {
        list.push(item)?;
    }
    Ok(())
}

impl Emitter {
    pub fn new(alloc: Global, next_temp: u16, next_label: u32) -> Emitter
        ensures { result ≡ record { ops = []; depths = []; next_temp = next_temp; next_label = next_label } }
    {
        Emitter {
            ops: Items::new(alloc),
            depths: Items::new(alloc),
            next_temp,
            next_label,
        }
    }

    #[tactic(auto, unfolding(crate::specs::Emitted::emitted))]
    pub fn emit(&mut self, op: Op) -> Result<(), NoMemory>
        ensures { OnOk result (Adds self.old self.new (op_of op ∷ []) [] 0 0) }
    {
        self.ops.push(op)?;
        Ok(())
    }

    /// The open block ends, and one with this label is opened.
    pub fn close(&mut self, stop: Stop, label: u32) -> Result<(), NoMemory>
        ensures { OnOk result (Adds self.old self.new (op_of (Op.Close stop label) ∷ []) [] 0 0) }
    {
        self.emit(Op::Close(stop, label))
    }

    /// A temporary for each depth, with numbers in a row; the first one's. A code with more temporaries than there are numbers is
    /// answered as want of memory.
    #[tactic(auto, unfolding(crate::specs::Emitted::emitted))]
    pub fn fresh(&mut self, depths: &[u16]) -> Result<u16, NoMemory>
        ensures adds { OnOk result (Adds self.old self.new [] depths.now (length depths.now) 0) }
        ensures first { IfOk result (λ t. t ≡ self.old.next_temp) }
        ensures fits { IfOk result (λ t. t + length depths.now < 2 ^ 16) }
    {
        let first = self.next_temp;
        let Ok(count) = u16::try_from(depths.len()) else {
            return Err(NoMemory);
        };
        let Some(next) = first.checked_add(count) else {
            return Err(NoMemory);
        };
        push_all(&mut self.depths, depths)?;
        self.next_temp = next;
        Ok(first)
    }

    /// So many temporaries of one depth, with numbers in a row; the first one's.
    #[tactic(auto, unfolding(crate::specs::Emitted::emitted))]
    pub fn fresh_equal(&mut self, depth: u16, count: u16) -> Result<u16, NoMemory>
        ensures adds { OnOk result (Adds self.old self.new [] (replicate count depth) count 0) }
        ensures first { IfOk result (λ t. t ≡ self.old.next_temp) }
    {
        let first = self.next_temp;
        let Some(next) = first.checked_add(count) else {
            return Err(NoMemory);
        };
        push_equal(&mut self.depths, depth, count)?;
        self.next_temp = next;
        Ok(first)
    }

    /// An emitter for what is to be appended here, once it is made.
    pub fn behind(&self, alloc: Global) -> Emitter
        ensures { result ≡ record { ops = []; depths = []; next_temp = self.now.next_temp; next_label = self.now.next_label } }
    {
        Emitter::new(alloc, self.next_temp, self.next_label)
    }

    /// Appends what was made apart.
    #[tactic(auto, unfolding(crate::specs::Emitted::emitted))]
    pub fn append(&mut self, more: Emitter) -> Result<(), NoMemory>
        ensures ops { OnOk result (emitted self.new ≡ emitted self.old ++ emitted more) }
        ensures depths { OnOk result (self.new.depths ≡ self.old.depths ++ more.depths) }
        ensures temp { OnOk result (self.new.next_temp ≡ more.next_temp) }
        ensures label { OnOk result (self.new.next_label ≡ more.next_label) }
    {
        let Emitter {
            ops,
            depths,
            next_temp,
            next_label,
        } = more;
        self.ops.append(ops)?;
        self.depths.append(depths)?;
        self.next_temp = next_temp;
        self.next_label = next_label;
        Ok(())
    }

    /// Labels in a row; the first one.
    #[tactic(auto, unfolding(crate::specs::Emitted::emitted))]
    pub fn take_labels(&mut self, count: u32) -> Result<u32, NoMemory>
        ensures adds { OnOk result (Adds self.old self.new [] [] 0 count) }
        ensures first { IfOk result (λ l. l ≡ self.old.next_label) }
        ensures fits { IfOk result (λ l. l + count < 2 ^ 32) }
    {
        let first = self.next_label;
        let Some(next) = first.checked_add(count) else {
            return Err(NoMemory);
        };
        self.next_label = next;
        Ok(first)
    }
}
