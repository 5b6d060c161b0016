//! Code as far as it is emitted.

ghost use Rattle.std.specs.Prelude.{◌≡◌, ◌+◌, ◌^◌, ◌<◌, [], ◌∷◌, ◌++◌, length, IfOk, OnOk};
ghost use Rattle.naive_builder.specs.Appending.{begun, emitted, with_end, with_transfers};
ghost use Rattle.naive_builder.specs.Finished.{finished};

use rtl_tree::NoMemory;
use sqlite_items::Items;
use std::alloc::Global;
use temp_code::{Block, Code, End, Transfer};

/// The code of one function as far as it is built. After a call that answers want of memory it is spent: nothing is said of it.
#[derive(Drop)]
pub struct Builder {
    /// The blocks that are finished.
    pub blocks: Items<Block>,
    /// The label of the open block.
    pub label: u32,
    /// The transfers of the open block.
    pub body: Items<Transfer>,
    /// The home of each temporary so far.
    pub homes: Items<u16>,
    /// The label from which on all are fresh.
    pub next_label: u32,
}

impl Builder {
    /// One empty block, which has this label; the labels behind it are fresh.
    pub fn new(alloc: Global, label: u32) -> Builder
        requires { label + 1 < 2 ^ 32 }
        ensures code { emitted result ≡ begun label }
        ensures homes { result.homes ≡ [] }
        ensures labels { result.next_label ≡ label + 1 }
    {
        Builder {
            blocks: Items::new(alloc),
            label,
            body: Items::new(alloc),
            homes: Items::new(alloc),
            next_label: label + 1,
        }
    }

    /// A temporary that was not used before, with its home.
    pub fn fresh_temporary(&mut self, home: u16) -> Result<u16, NoMemory>
        requires { length self.old.homes < 2 ^ 16 }
        ensures number { IfOk result (λ k. k ≡ length self.old.homes) }
        ensures homes { OnOk result (self.new.homes ≡ self.old.homes ++ home ∷ []) }
        ensures code { OnOk result (emitted self.new ≡ emitted self.old) }
        ensures labels { OnOk result (self.new.next_label ≡ self.old.next_label) }
    {
        let number = self.homes.len() as u16;
        self.homes.push(home)?;
        Ok(number)
    }

    /// The first of so many labels that were not used before. Takes no memory.
    pub fn fresh_labels(&mut self, count: u32) -> u32
        requires { self.old.next_label + count < 2 ^ 32 }
        ensures first { result ≡ self.old.next_label }
        ensures labels { self.new.next_label ≡ self.old.next_label + count }
        ensures code { emitted self.new ≡ emitted self.old }
        ensures homes { self.new.homes ≡ self.old.homes }
    {
        let first = self.next_label;
        self.next_label += count;
        first
    }

    /// Puts a transfer into the open block.
    pub(crate) fn put(&mut self, transfer: Transfer) -> Result<(), NoMemory>
        ensures code { OnOk result (emitted self.new ≡ with_transfers (emitted self.old) (transfer ∷ [])) }
        ensures homes { OnOk result (self.new.homes ≡ self.old.homes) }
        ensures labels { OnOk result (self.new.next_label ≡ self.old.next_label) }
    {
        self.body.push(transfer)?;
        Ok(())
    }

    /// Ends the open block, and opens one with this label.
    pub(crate) fn close(&mut self, alloc: Global, end: End, opened: u32) -> Result<(), NoMemory>
        ensures code { OnOk result (emitted self.new ≡ with_end (emitted self.old) end opened) }
        ensures homes { OnOk result (self.new.homes ≡ self.old.homes) }
        ensures labels { OnOk result (self.new.next_label ≡ self.old.next_label) }
    {
        let body = std::mem::replace(&mut self.body, Items::new(alloc));
        let label = std::mem::replace(&mut self.label, opened);
        self.blocks.push(Block { label, body, end })?;
        Ok(())
    }

    /// The code whose open block ends with a return. `function` is the function's place among the names, `frame` the bytes of its frame,
    /// `first_home` the offset of home 0 from the stack register in bytes, and `slots` the number of homes.
    pub fn finish(
        self,
        function: u16,
        params: u8,
        frame: u32,
        first_home: u32,
        slots: u16,
    ) -> Result<Code, NoMemory>
        ensures { IfOk result (λ c. c ≡ record { function = function; params = params; frame = frame; first_home = first_home; slots = slots; homes = self.homes; blocks = finished (emitted self) }) }
    {
        let Builder {
            mut blocks,
            label,
            body,
            homes,
            next_label: _,
        } = self;
        blocks.push(Block {
            label,
            body,
            end: End::Return,
        })?;
        Ok(Code {
            function,
            params,
            frame,
            first_home,
            slots,
            homes,
            blocks,
        })
    }
}
