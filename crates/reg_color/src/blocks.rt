//! Blocks with registers and homes in place of temporaries.

ghost use Rattle.std.specs.Prelude.{All, IfOk, []};
ghost use Rattle.std.specs.List.{AllZip};
ghost use Rattle.temp_code.specs.declared.code.End.TheVariants.{Branch, Call, Jump};
ghost use Rattle.color_homes.specs.Putting.{ArePlaces};
ghost use Rattle.reg_color.specs.Putting.{EndsWith, IsBlock, MayBeBlock, MayCall, MayEnd, MayJump, MayStand, StandFor, StandsFor};

use color_homes::{Places, push_operands, push_transfer};
use md_check::Checked;
use rtl_tree::NoMemory;
use rtl_word::Word;
use sqlite_items::Items;
use std::alloc::Global;
use temp_code::{Block, End, Transfer, copy_transfer};

fn with_transfer<W: Word>(
    alloc: Global,
    m: &Checked<W>,
    p: &Places,
    mut made: Items<Transfer>,
    x: &Transfer,
) -> Result<Items<Transfer>, NoMemory>
    requires places { ArePlaces m.now p.now }
    requires may { MayStand m.now p.now x.now }
    ensures { IfOk result (λ more. StandsFor m.now p.now x.now made more) }
{
    push_transfer::<W>(&mut made, alloc, m, p, x)?;
    Ok(made)
}

fn body_of<W: Word>(
    alloc: Global,
    m: &Checked<W>,
    p: &Places,
    body: &[Transfer],
) -> Result<Items<Transfer>, NoMemory>
    requires places { ArePlaces m.now p.now }
    requires each { All (MayStand m.now p.now) body.now }
    ensures { IfOk result (λ made. StandFor m.now p.now body.now [] made) }
{
    let mut made = Items::new(alloc);
    for x in body {
        made = with_transfer::<W>(alloc, m, p, made, x)?;
    }
    Ok(made)
}

fn jump_of<W: Word>(
    alloc: Global,
    m: &Checked<W>,
    p: &Places,
    mut body: Items<Transfer>,
    x: &Transfer,
) -> Result<(Items<Transfer>, End), NoMemory>
    requires places { ArePlaces m.now p.now }
    requires may { MayJump m.now p.now x.now }
    ensures { IfOk result (λ made. EndsWith m.now p.now (Jump x.now) body made.0 made.1) }
{
    let jump = push_operands::<W>(&mut body, alloc, m, p, x)?;
    Ok((body, End::Jump(jump)))
}

fn branch_of<W: Word>(
    alloc: Global,
    m: &Checked<W>,
    p: &Places,
    mut body: Items<Transfer>,
    x: &Transfer,
) -> Result<(Items<Transfer>, End), NoMemory>
    requires places { ArePlaces m.now p.now }
    requires may { MayJump m.now p.now x.now }
    ensures { IfOk result (λ made. EndsWith m.now p.now (Branch x.now) body made.0 made.1) }
{
    let branch = push_operands::<W>(&mut body, alloc, m, p, x)?;
    Ok((body, End::Branch(branch)))
}

fn call_of<W: Word>(
    alloc: Global,
    m: &Checked<W>,
    p: &Places,
    body: Items<Transfer>,
    x: &Transfer,
) -> Result<(Items<Transfer>, End), NoMemory>
    requires { MayCall m.now p.now x.now }
    ensures { IfOk result (λ made. EndsWith m.now p.now (Call x.now) body made.0 made.1) }
{
    let call = copy_transfer(alloc, x)?;
    Ok((body, End::Call(call)))
}

/// An end, and its body with the loads for it behind.
fn end_of<W: Word>(
    alloc: Global,
    m: &Checked<W>,
    p: &Places,
    body: Items<Transfer>,
    end: &End,
) -> Result<(Items<Transfer>, End), NoMemory>
    requires places { ArePlaces m.now p.now }
    requires may { MayEnd m.now p.now end.now }
    ensures { IfOk result (λ made. EndsWith m.now p.now end.now body made.0 made.1) }
{
    match end {
        End::Fall => Ok((body, End::Fall)),
        End::Jump(x) => jump_of::<W>(alloc, m, p, body, x),
        End::Branch(x) => branch_of::<W>(alloc, m, p, body, x),
        End::Call(x) => call_of::<W>(alloc, m, p, body, x),
        End::Return => Ok((body, End::Return)),
    }
}

fn block_of<W: Word>(
    alloc: Global,
    m: &Checked<W>,
    p: &Places,
    block: &Block,
) -> Result<Block, NoMemory>
    requires places { ArePlaces m.now p.now }
    requires may { MayBeBlock m.now p.now block.now }
    ensures { IfOk result (IsBlock m.now p.now block.now) }
{
    let made = body_of::<W>(alloc, m, p, block.body.as_slice())?;
    let (body, end) = end_of::<W>(alloc, m, p, made, &block.end)?;
    Ok(Block {
        label: block.label,
        body,
        end,
    })
}

/// The blocks of a code with registers and homes in place of temporaries.
pub(crate) fn blocks_of<W: Word>(
    alloc: Global,
    m: &Checked<W>,
    p: &Places,
    blocks: &[Block],
) -> Result<Items<Block>, NoMemory>
    requires places { ArePlaces m.now p.now }
    requires may { All (MayBeBlock m.now p.now) blocks.now }
    ensures { IfOk result (λ made. AllZip (IsBlock m.now p.now) blocks.now made) }
{
    let mut made = Items::new(alloc);
    for block in blocks {
        made.push(block_of::<W>(alloc, m, p, block)?)?;
    }
    Ok(made)
}
