//! Places that an assignment goes to.

ghost use Rattle.std.specs.Prelude.{◌≡◌, ◌≤◌, [], IfOk, OnOk};
ghost use Rattle.naive_code.specs.Expressions.{got_from, put_into};
ghost use Rattle.naive_expr.specs.Seen.{storage_of};
ghost use Rattle.naive_expr.specs.Emitted.{Adds};
ghost use Rattle.naive_expr.specs.Opened.{beside_by, settled_by, settled_in_by};

use crate::emission::Emitter;
use crate::objects::{push_get, push_put};
use crate::operations::Op;
use crate::sites::Storage;
use rtl_tree::NoMemory;

/// A place, once what stands before an assignment to it is done.
#[derive(Clone, Copy, Debug)]
pub(crate) struct Opened {
    pub storage: Storage,
    /// The temporary that has an element's address.
    pub at: u16,
    pub is_element: bool,
}

impl Opened {
    /// How much deeper than the whole a value stands that is to be assigned: beside an element's address.
    pub(crate) fn beside(self) -> u16
        ensures depth { result ≡ beside_by self.is_element }
        ensures small { result ≤ 1 }
    {
        if self.is_element { 1 } else { 0 }
    }

    /// The value that the place has comes to a temporary.
    pub(crate) fn get(self, out: &mut Emitter, value: u16, spare: u16) -> Result<(), NoMemory>
        ensures { OnOk result (Adds out.old out.new (got_from (storage_of self.storage) value self.at spare) [] 0 0) }
    {
        push_get(out, self.storage, value, self.at, spare)
    }

    /// The place takes a value.
    pub(crate) fn put(self, out: &mut Emitter, value: u16, spare: u16) -> Result<(), NoMemory>
        ensures { OnOk result (Adds out.old out.new (put_into (storage_of self.storage) self.at value spare) [] 0 0) }
    {
        push_put(out, self.storage, self.at, value, spare)
    }

    /// The value of an assignment: that of an element takes the place of the address.
    pub(crate) fn settle(self, out: &mut Emitter, value: u16) -> Result<u16, NoMemory>
        ensures adds { OnOk result (Adds out.old out.new (settled_by self.is_element self.at value) [] 0 0) }
        ensures at { IfOk result (λ t. t ≡ settled_in_by self.is_element self.at value) }
    {
        if self.is_element {
            out.emit(Op::Copy(self.at, value))?;
            Ok(self.at)
        } else {
            Ok(value)
        }
    }
}
