//! The search through the rows of a description.

ghost use Rattle.std.specs.Prelude.{◌≡◌, ◌<◌, ◌≤◌, MatchOption, length, nat_le};
ghost use Rattle.md_rows.specs.Lines.{longest_line};
ghost use Rattle.recogniser.specs.Searching.{HasNone, IsDoneByNone, IsDoneFirstBy, IsFirstInstance, IsRequest, IsSoundRow, idle_of};

use crate::binding::binding_of;
use md_covers::fits_line;
use md_match::{Task, first_match};
use md_rows::{Binding, Hole, Instance, RawDescription, Row};
use rtl_tree::{Assign, Effects};

/// A transfer that a row of a description is to do. The row's other assignments are to go to `flags`; `general` has the general
/// registers. Each set has a bit for each of its members.
#[derive(Clone, Copy)]
pub(crate) struct Request<'a> {
    pub(crate) description: &'a RawDescription,
    pub(crate) general: u64,
    pub(crate) flags: u8,
    pub(crate) transfer: &'a Effects,
}

fn holes_of(row: &Row) -> &[Hole]
    ensures { result.now ≡ row.now.holes }
{
    row.holes.as_slice()
}

fn moves_of(effects: &Effects) -> &[Assign]
    ensures moves { result.now ≡ effects.now }
    ensures few { length result.now ≤ 6 }
{
    effects.list.as_slice()
}

fn normal_of(row: &Row) -> &[Assign]
    ensures moves { result.now ≡ row.now.normal }
    ensures few { length result.now ≤ 6 }
{
    moves_of(&row.normal)
}

fn is_short(d: &RawDescription, row: &Row) -> bool
    ensures { result ≡ nat_le (longest_line d.now.registers row.now.holes row.now.text) 640 }
{
    fits_line(d.registers.as_slice(), holes_of(row), row.text.as_slice())
}

/// The first binding by which a row does the transfer.
fn first_binding<'a>(q: &Request<'a>, row: &'a Row) -> Option<Binding>
    requires request { IsRequest q.now }
    requires row { IsSoundRow q.now.description.now.word row.now }
    ensures { MatchOption result
        (IsDoneByNone q.now.description.now (idle_of q.now) q.now.transfer.now row.now)
        (IsDoneFirstBy q.now.description.now (idle_of q.now) q.now.transfer.now row.now) }
{
    if !is_short(q.description, row) {
        return None;
    }
    let transfer = q.transfer;
    let holes = holes_of(row);
    let task = Task {
        bits: q.description.word,
        general: q.general,
        holes,
        flags: q.flags,
        barred: 0,
        row: normal_of(row),
        goal: moves_of(transfer),
    };
    match first_match(&task) {
        Some(slots) => Some(binding_of(*transfer.list.allocator(), &slots, holes.len())),
        None => None,
    }
}

/// The first row that does the transfer, with its first binding.
pub(crate) fn first_instance(q: &Request) -> Option<Instance>
    requires { IsRequest q.now }
    ensures { MatchOption result
        (HasNone q.now.description.now (idle_of q.now) q.now.transfer.now)
        (IsFirstInstance q.now.description.now (idle_of q.now) q.now.transfer.now) }
{
    let rows = q.description.rows.as_slice();
    for place in 0..rows.len() {
        if let Some(binding) = first_binding(q, &rows[place]) {
            return Some(Instance {
                row: place as u16,
                binding,
            });
        }
    }
    None
}
