//! What is dead at the begin of each block of a code.

ghost use Rattle.std.specs.Prelude.{◌≡◌, ◌⊎◌, ◌≤◌, ◌<◌, ℕ, true, false, IfOk, length, Contains};
ghost use Rattle.rtl_tree.specs.declared.cells.Cell.{Cell};
ghost use Rattle.temp_machine.specs.Routines.{Target};
ghost use Rattle.temp_code.specs.Routines.{routine_of};
ghost use Rattle.flow_blocks.specs.Flows.{IsFlow};
ghost use Rattle.flow_live.specs.Walks.{HasLowFlags, Stands, dead_at};
ghost use Rattle.flow_live.specs.Settled.{AreBegins, AreFull, FitsCode, HaveWords, IsSettling, LooksAt, is_waiting, total};

use crate::blocks::{go_before_block, go_behind};
use crate::rows::Row;
use crate::standing::Standing;
use flow_blocks::Flow;
use rtl_tree::NoMemory;
use std::alloc::Global;
use temp_code::Code;

/// Rows of what may be dead at the begin of each block, and marks of the blocks that are still to be looked at. Another row serves to walk.
#[derive(Drop)]
pub struct Settling {
    pub begins: Vec<Row>,
    pub waiting: Vec<bool>,
    pub row: Row,
}

/// Marks blocks as waiting.
fn mark(waiting: &mut [bool], blocks: &[u32])
    ensures count { length waiting.new ≡ length waiting.old }
    ensures kept { (k : ℕ) → is_waiting waiting.old k ≡ true → is_waiting waiting.new k ≡ true }
    ensures set { (k : ℕ) → k < length waiting.old → Contains blocks.now k → is_waiting waiting.new k ≡ true }
{
    for i in 0..blocks.len() {
        let at = blocks[i] as usize;
        if at < waiting.len() {
            waiting[at] = true;
        }
    }
}

/// Takes out of the row of a block what the rows of its successors don't let be dead, and tells whether something fell out.
fn look_at(
    code: &Code,
    flow: &Flow,
    standing: &Standing,
    begins: &mut [Row],
    row: &mut Row,
    at: usize,
) -> bool
    requires block { at < length code.now.blocks }
    requires begin { at < length begins.old }
    ensures count { length begins.new ≡ length begins.old }
    ensures fell { result ≡ true → total begins.new < total begins.old }
    ensures kept { result ≡ false → total begins.new ≤ total begins.old }
    ensures same { result ≡ false → (k : ℕ) (c : Cell) → dead_at begins.new k c ≡ dead_at begins.old k c }
    ensures words { length row.new.temporaries.items ≡ length row.old.temporaries.items }
    ensures looks { (t : Target) (words : ℕ) → Stands t (routine_of code.now) standing.now → IsFlow t.word (routine_of code.now) flow.now
        → HaveWords words begins.old → length row.old.temporaries.items ≡ words → LooksAt t (routine_of code.now) words at begins.old begins.new }
{
    go_behind(row, standing, begins, flow.next_at(at));
    go_before_block(row, standing, &code.blocks.as_slice()[at]);
    begins[at].keep(row)
}

impl Settling {
    /// Rows of all cells, and each block marked.
    fn begin(alloc: Global, blocks: usize, words: usize) -> Result<Settling, NoMemory>
        ensures begins { IfOk result (λ s. length s.begins.items ≡ blocks) }
        ensures waiting { IfOk result (λ s. length s.waiting.items ≡ blocks) }
        ensures all { IfOk result (λ s. (k : ℕ) → k < blocks → is_waiting s.waiting.items k ≡ true) }
        ensures row { IfOk result (λ s. length s.row.temporaries.items ≡ words) }
        ensures words { IfOk result (λ s. HaveWords words s.begins.items) }
        ensures full { IfOk result (λ s. AreFull words s.begins.items) }
    {
        let waiting = vec![in alloc; true; blocks]?;
        let begins = full_rows(alloc, blocks, words)?;
        let row = Row::full(alloc, words)?;
        Ok(Settling {
            begins,
            waiting,
            row,
        })
    }

    /// Looks at a block if that waits, and then lets its predecessors wait if something fell out of its row.
    fn step(&mut self, code: &Code, flow: &Flow, standing: &Standing, at: usize) -> bool
        requires fits { FitsCode code.now self.old }
        requires block { at < length code.now.blocks }
        ensures fits { FitsCode code.now self.new }
        ensures fell { result ≡ true → total self.new.begins.items < total self.old.begins.items }
        ensures kept { result ≡ false → total self.new.begins.items ≤ total self.old.begins.items }
        ensures quiet { result ≡ false → (j : ℕ) → (is_waiting self.old.waiting.items j ≡ false) ⊎ (j ≡ at) → is_waiting self.new.waiting.items j ≡ false }
        ensures goes { (t : Target) (words : ℕ) → Stands t (routine_of code.now) standing.now → HasLowFlags (routine_of code.now)
            → IsFlow t.word (routine_of code.now) flow.now → IsSettling t (routine_of code.now) words self.old → IsSettling t (routine_of code.now) words self.new }
    {
        if !self.waiting[at] {
            return false;
        }
        self.waiting[at] = false;
        if !look_at(
            code,
            flow,
            standing,
            self.begins.as_mut_slice(),
            &mut self.row,
            at,
        ) {
            return false;
        }
        mark(self.waiting.as_mut_slice(), flow.previous_at(at));
        true
    }

    /// Looks at each block that waits, from the last on, and tells whether something fell out of a row.
    fn sweep(&mut self, code: &Code, flow: &Flow, standing: &Standing) -> bool
        requires fits { FitsCode code.now self.old }
        ensures fits { FitsCode code.now self.new }
        ensures fell { result ≡ true → total self.new.begins.items < total self.old.begins.items }
        ensures kept { result ≡ false → total self.new.begins.items ≤ total self.old.begins.items }
        ensures clean { result ≡ false → (j : ℕ) → j < length code.now.blocks → is_waiting self.new.waiting.items j ≡ false }
        ensures goes { (t : Target) (words : ℕ) → Stands t (routine_of code.now) standing.now → HasLowFlags (routine_of code.now)
            → IsFlow t.word (routine_of code.now) flow.now → IsSettling t (routine_of code.now) words self.old → IsSettling t (routine_of code.now) words self.new }
    {
        let mut fell = false;
        let mut at = code.blocks.len();
        while at > 0 {
            at -= 1;
            fell = self.step(code, flow, standing, at) || fell;
        }
        fell
    }
}

fn full_rows(alloc: Global, count: usize, words: usize) -> Result<Vec<Row>, NoMemory>
    ensures count { IfOk result (λ rows. length rows.items ≡ count) }
    ensures words { IfOk result (λ rows. HaveWords words rows.items) }
    ensures full { IfOk result (λ rows. AreFull words rows.items) }
{
    let mut rows = Vec::with_capacity(alloc, count)?;
    while rows.len() < count {
        rows.push(Row::full(alloc, words)?)?;
    }
    Ok(rows)
}

/// What is dead at the begin of each block, in rows with so many words of temporaries.
pub(crate) fn settle(
    alloc: Global,
    code: &Code,
    flow: &Flow,
    standing: &Standing,
    words: usize,
) -> Result<Settling, NoMemory>
    ensures fits { IfOk result (FitsCode code.now) }
    ensures begins { IfOk result (λ s. (t : Target) → Stands t (routine_of code.now) standing.now → HasLowFlags (routine_of code.now)
        → IsFlow t.word (routine_of code.now) flow.now → AreBegins t (routine_of code.now) words s.begins.items) }
{
    let mut state = Settling::begin(alloc, code.blocks.len(), words)?;
    let mut going = true;
    while going {
        going = state.sweep(code, flow, standing);
    }
    Ok(state)
}
