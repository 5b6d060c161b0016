//! Two machines of our own, as they stand under `examples/`.

/// A machine with 16-bit words and two operands.
pub fn duo() -> &'static [u8] {
    b"vpo 1
name duo
word 16
memory 32768
data 256
stack 4096
reg 0 a result
reg 1 b general
reg 2 c general
reg 3 d general
reg 4 e general
reg 7 s stack
flag 0 cmp
class r a b c d e s
mode at | (<r:r>) | <r>
mode at | <k:word>(<r:r>) | (<r> + <k>)
row mov <d:r>,<x:r> | <d> = <x>
row mov <d:r>,#<n:word> | <d> = <n>
row mov <d:r>,#<y:sym> | <d> = <y>
row ld <d:r>,<x:at> | <d> = M[<x>]
row st <x:r>,<d:at> | M[<d>] = <x>
row ldb <d:r>,<x:at> | <d> = (sxb B[<x>])
row stb <x:r>,<d:at> | B[<d>] = <x>
row add <d:r>,<x:r> | <d> = (<d> + <x>)
row add <d:r>,#<n:word> | <d> = (<d> + <n>)
row sub <d:r>,<x:r> | <d> = (<d> - <x>)
row or <d:r>,<x:r> | <d> = (<d> | <x>)
row not <d:r> | <d> = (not <d>)
row and <d:r>,<x:r> | <d> = (<d> & <x>)
row clr <d:r>,#<n:!word> | <d> = (<d> & <n>)
row swap <d:r>,<x:r> | <d> = <x>; <x> = <d>
row cmp <d:r>,<x:r> | f[0] = (<d> ? <x>)
row beq <l:label> | PC = ((f[0] eq) -> <l>)
row bne <l:label> | PC = ((f[0] ne) -> <l>)
row blt <l:label> | PC = ((f[0] lt) -> <l>)
row ble <l:label> | PC = ((f[0] le) -> <l>)
row bgt <l:label> | PC = ((f[0] gt) -> <l>)
row bge <l:label> | PC = ((f[0] ge) -> <l>)
row bltu <l:label> | PC = ((f[0] ltu) -> <l>)
row bleu <l:label> | PC = ((f[0] leu) -> <l>)
row bgtu <l:label> | PC = ((f[0] gtu) -> <l>)
row bgeu <l:label> | PC = ((f[0] geu) -> <l>)
row jmp <l:label> | PC = <l>
row call <f:label> | M[(r[7] + -2)] = PC; r[7] = (r[7] + -2); PC = <f>
row ret | PC = M[r[7]]; r[7] = (r[7] + 2)
row in | r[0] = IN
row out | OUT = r[0]
row end | HALT = r[0]
"
}

/// A machine with 32-bit words, three operands and a link register.
pub fn tri() -> &'static [u8] {
    b"vpo 1
* A machine of 32 bits with three operands, a link register, and no flags.
name tri
word 32
memory 1048576
data 4096
stack 65536
reg 1 v0 result
reg 2 t0 general
reg 3 t1 general
reg 4 t2 general
reg 5 t3 general
reg 30 sp stack
reg 31 ra link

class g v0 t0 t1 t2 t3 sp ra
mode at | @<x:g> | <x>
mode at | @<x:g>+<k:0..65535> | (<x> + <k>)

row copy <d:g> <x:g> | <d> = <x>
row swap <d:g> <x:g> | <d> = <x>; <x> = <d>
row set <d:g> <n:word> | <d> = <n>
row set <d:g> <y:sym> | <d> = <y>
row get <d:g> <a:at> | <d> = M[<a>]
row put <x:g> <a:at> | M[<a>] = <x>
row getb <d:g> <a:at> | <d> = (sxb B[<a>])
row putb <x:g> <a:at> | B[<a>] = <x>
row add <d:g> <x:g> <y:g> | <d> = (<x> + <y>)
row add <d:g> <x:g> <n:-32768..32767> | <d> = (<x> + <n>)
row sub <d:g> <x:g> <y:g> | <d> = (<x> - <y>)
row or <d:g> <x:g> <y:g> | <d> = (<x> | <y>)
row not <d:g> <x:g> | <d> = (not <x>)
row andn <d:g> <x:g> <y:g> | <d> = (<x> & (not <y>))
row andn <d:g> <x:g> <n:!word> | <d> = (<x> & <n>)
row mul <d:g> <x:g> <y:g> | <d> = (<x> * <y>)
row shl <d:g> <x:g> <n:0..31> | <d> = (<x> shl <n>)
row if <x:g> eq <y:g> goto <l:label> | PC = ((<x> eq <y>) -> <l>)
row if <x:g> ne <y:g> goto <l:label> | PC = ((<x> ne <y>) -> <l>)
row if <x:g> lt <y:g> goto <l:label> | PC = ((<x> lt <y>) -> <l>)
row if <x:g> le <y:g> goto <l:label> | PC = ((<x> le <y>) -> <l>)
row if <x:g> gt <y:g> goto <l:label> | PC = ((<x> gt <y>) -> <l>)
row if <x:g> ge <y:g> goto <l:label> | PC = ((<x> ge <y>) -> <l>)
row if <x:g> ltu <y:g> goto <l:label> | PC = ((<x> ltu <y>) -> <l>)
row if <x:g> leu <y:g> goto <l:label> | PC = ((<x> leu <y>) -> <l>)
row if <x:g> gtu <y:g> goto <l:label> | PC = ((<x> gtu <y>) -> <l>)
row if <x:g> geu <y:g> goto <l:label> | PC = ((<x> geu <y>) -> <l>)
row goto <l:label> | PC = <l>
row call <f:label> | r[31] = PC; PC = <f>
row back | PC = r[31]
row read | r[1] = IN
row write | OUT = r[1]
row halt | HALT = r[1]
"
}
