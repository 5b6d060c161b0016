//! The description of the MIPS.

ghost use Rattle.std.specs.Prelude.{◌≡◌};
ghost use Rattle.shipped.specs.Mips.{mips_lines};
ghost use Rattle.shipped.specs.Shipped.{text_with};

/// The description of the MIPS.
pub const MIPS: &[u8] = b"\
vpo 1
name mips
word 32
memory 4194304
data 4096
stack 1048576
reg 2 $2 result
reg 8 $8 general
reg 9 $9 general
reg 10 $10 general
reg 11 $11 general
reg 12 $12 general
reg 13 $13 general
reg 14 $14 general
reg 15 $15 general
reg 29 $29 stack
reg 31 $31 link
class r $2 $8 $9 $10 $11 $12 $13 $14 $15 $29 $31
mode rz | <r:r> | <r>
mode rz | $0 | 0
mode adr | 0(<r:r>) | <r>
mode adr | <k:1..32767>(<r:r>) | (<r> + <k>)
mode adr | <k:-32768..-1>(<r:r>) | (<r> + <k>)
row move <d:r>,<s:r> | <d> = <s>
row li <d:r>,<n:word> | <d> = <n>
row la <d:r>,<y:sym> | <d> = <y>
row lw <d:r>,<a:adr> | <d> = M[<a>]
row lb <d:r>,<a:adr> | <d> = (sxb B[<a>])
row lbu <d:r>,<a:adr> | <d> = B[<a>]
row sw <s:rz>,<a:adr> | M[<a>] = <s>
row sb <s:rz>,<a:adr> | B[<a>] = <s>
row addu <d:r>,<s:r>,<t:r> | <d> = (<s> + <t>)
row addiu <d:r>,<s:r>,<n:-32768..32767> | <d> = (<s> + <n>)
row subu <d:r>,<s:r>,<t:r> | <d> = (<s> - <t>)
row subu <d:r>,$0,<s:r> | <d> = (neg <s>)
row and <d:r>,<s:r>,<t:r> | <d> = (<s> & <t>)
row andi <d:r>,<s:r>,<n:0..65535> | <d> = (<s> & <n>)
row or <d:r>,<s:r>,<t:r> | <d> = (<s> | <t>)
row ori <d:r>,<s:r>,<n:0..65535> | <d> = (<s> | <n>)
row xor <d:r>,<s:r>,<t:r> | <d> = (<s> ^ <t>)
row xori <d:r>,<s:r>,<n:0..65535> | <d> = (<s> ^ <n>)
row nor <d:r>,<s:r>,$0 | <d> = (not <s>)
row mul <d:r>,<s:r>,<t:r> | <d> = (<s> * <t>)
row div <d:r>,<s:r>,<t:r> | <d> = (<s> div <t>)
row divu <d:r>,<s:r>,<t:r> | <d> = (<s> divu <t>)
row rem <d:r>,<s:r>,<t:r> | <d> = (<s> rem <t>)
row remu <d:r>,<s:r>,<t:r> | <d> = (<s> remu <t>)
row sllv <d:r>,<s:r>,<t:r> | <d> = (<s> shl <t>)
row srav <d:r>,<s:r>,<t:r> | <d> = (<s> shr <t>)
row srlv <d:r>,<s:r>,<t:r> | <d> = (<s> shru <t>)
row sll <d:r>,<s:r>,<n:0..31> | <d> = (<s> shl <n>)
row sra <d:r>,<s:r>,<n:0..31> | <d> = (<s> shr <n>)
row srl <d:r>,<s:r>,<n:0..31> | <d> = (<s> shru <n>)
row beq <s:r>,<t:rz>,<l:label> | PC = ((<s> eq <t>) -> <l>)
row bne <s:r>,<t:rz>,<l:label> | PC = ((<s> ne <t>) -> <l>)
row blt <s:r>,<t:rz>,<l:label> | PC = ((<s> lt <t>) -> <l>)
row ble <s:r>,<t:rz>,<l:label> | PC = ((<s> le <t>) -> <l>)
row bgt <s:r>,<t:rz>,<l:label> | PC = ((<s> gt <t>) -> <l>)
row bge <s:r>,<t:rz>,<l:label> | PC = ((<s> ge <t>) -> <l>)
row bltu <s:r>,<t:rz>,<l:label> | PC = ((<s> ltu <t>) -> <l>)
row bleu <s:r>,<t:rz>,<l:label> | PC = ((<s> leu <t>) -> <l>)
row bgtu <s:r>,<t:rz>,<l:label> | PC = ((<s> gtu <t>) -> <l>)
row bgeu <s:r>,<t:rz>,<l:label> | PC = ((<s> geu <t>) -> <l>)
row j <l:label> | PC = <l>
row jal <f:label> | r[31] = PC; PC = <f>
row jr $31 | PC = r[31]
row sys getc | r[2] = IN
row sys putc | OUT = r[2]
row sys exit | HALT = r[2]
";

/// The description of the MIPS.
pub(crate) fn mips() -> &'static [u8]
    ensures { result.now ≡ text_with mips_lines }
{
    MIPS
}
