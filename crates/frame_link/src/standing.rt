//! The labels of a program, for the question whether one stands in it.

ghost use Rattle.std.specs.Prelude.{◌≡◌, ◌||◌, AllPairs, IfOk, false};
ghost use Rattle.rtl_tree.specs.declared.cells.Lab.{Lab as LabOf};
ghost use Rattle.rtl_tree.specs.declared.cells.Lab.TheVariants.{Block, Function};
ghost use Rattle.rtl_tree.specs.Same.{same_label};
ghost use Rattle.frame_link.specs.Tested.{Differ, HoldsLabels, holds};

use rtl_tree::{Lab, NoMemory};
use rtl_value::LabelAt;
use std::alloc::Global;
use std::collections::HashSet;

#[derive(Drop)]
pub(crate) struct Standing {
    blocks: HashSet<u32>,
    functions: HashSet<u16>,
}

impl Standing {
    fn new(alloc: Global) -> Standing
        ensures { (l : LabOf) → holds result l ≡ false }
    {
        Standing {
            blocks: HashSet::new(alloc),
            functions: HashSet::new(alloc),
        }
    }

    pub(crate) fn has(&self, label: Lab) -> bool
        ensures { result ≡ holds self.now label }
    {
        match label {
            Lab::Block(block) => self.blocks.contains(&block),
            Lab::Function(function) => self.functions.contains(&function),
        }
    }
}

fn with_block(mut standing: Standing, block: u32) -> Result<Standing, NoMemory>
    ensures { IfOk result (λ more. (l : LabOf) → holds more l ≡ (same_label (Block block) l || holds standing l)) }
{
    standing.blocks.insert(block)?;
    Ok(standing)
}

fn with_function(mut standing: Standing, function: u16) -> Result<Standing, NoMemory>
    ensures { IfOk result (λ more. (l : LabOf) → holds more l ≡ (same_label (Function function) l || holds standing l)) }
{
    standing.functions.insert(function)?;
    Ok(standing)
}

fn with_label(standing: Standing, label: Lab) -> Result<Standing, NoMemory>
    ensures { IfOk result (λ more. (l : LabOf) → holds more l ≡ (same_label label l || holds standing l)) }
{
    match label {
        Lab::Block(block) => with_block(standing, block),
        Lab::Function(function) => with_function(standing, function),
    }
}

// With a label that doesn't stand yet; one that does is answered by want of memory.
fn with_new(standing: Standing, label: Lab) -> Result<Standing, NoMemory>
    ensures more { IfOk result (λ more. (l : LabOf) → holds more l ≡ (same_label label l || holds standing l)) }
    ensures is_new { IfOk result (λ _. holds standing label ≡ false) }
{
    if standing.has(label) {
        return Err(NoMemory);
    }
    with_label(standing, label)
}

/// The table of labels that all differ. Where two are one, want of memory is the answer.
pub(crate) fn standing_of(alloc: Global, labels: &[LabelAt]) -> Result<Standing, NoMemory>
    ensures holds { IfOk result (HoldsLabels labels.now) }
    ensures differ { IfOk result (λ _. AllPairs Differ labels.now) }
{
    let mut standing = Standing::new(alloc);
    let mut at = labels.len();
    while at > 0 {
        at -= 1;
        standing = with_new(standing, labels[at].label)?;
    }
    Ok(standing)
}
