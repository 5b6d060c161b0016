//! The description of the PDP-11.

ghost use Rattle.std.specs.Prelude.{◌≡◌};
ghost use Rattle.shipped.specs.Pdp11.{pdp11_lines};
ghost use Rattle.shipped.specs.Shipped.{text_with};

/// The description of the PDP-11.
pub const PDP11: &[u8] = b"\
vpo 1
name pdp11
word 16
memory 57344
data 1024
stack 16384
reg 0 r0 result
reg 1 r1 general
reg 2 r2 general
reg 3 r3 general
reg 4 r4 general
reg 5 r5 general
reg 6 sp stack
flag 0 Z
flag 1 N
flag 2 CC
class r r0 r1 r2 r3 r4 r5 sp
mode src | <r:r> | <r>
mode src | #<n:word> | <n>
mode src | #<y:sym> | <y>
mode src | (<r:r>) | M[<r>]
mode src | <k:word>(<r:r>) | M[(<r> + <k>)]
mode src | <y:sym> | M[<y>]
mode dst | <r:r> | <r>
mode dst | (<r:r>) | M[<r>]
mode dst | <k:word>(<r:r>) | M[(<r> + <k>)]
mode dst | <y:sym> | M[<y>]
mode inv | <r:r> | (not <r>)
mode inv | #<n:!word> | <n>
mode inv | (<r:r>) | (not M[<r>])
mode inv | <k:word>(<r:r>) | (not M[(<r> + <k>)])
mode inv | <y:sym> | (not M[<y>])
mode bmem | (<r:r>) | B[<r>]
mode bmem | <k:word>(<r:r>) | B[(<r> + <k>)]
mode bmem | <y:sym> | B[<y>]
mode bsrc | <r:r> | <r>
mode bsrc | (<r:r>) | B[<r>]
mode bsrc | <k:word>(<r:r>) | B[(<r> + <k>)]
mode bsrc | <y:sym> | B[<y>]
row inc <d:dst> | <d> = (<d> + 1); f[0] = ((<d> + 1) ? 0); f[1] = ((<d> + 1) ? 0); f[2] = lost
row dec <d:dst> | <d> = (<d> + -1); f[0] = ((<d> + -1) ? 0); f[1] = ((<d> + -1) ? 0); f[2] = lost
row neg <d:dst> | <d> = (neg <d>); f[0] = ((neg <d>) ? 0); f[1] = ((neg <d>) ? 0); f[2] = lost
row com <d:dst> | <d> = (not <d>); f[0] = ((not <d>) ? 0); f[1] = ((not <d>) ? 0); f[2] = lost
row tst <d:dst> | f[0] = (<d> ? 0); f[1] = (<d> ? 0); f[2] = (<d> ? 0)
row mov <s:src>,<d:dst> | <d> = <s>; f[0] = (<s> ? 0); f[1] = (<s> ? 0); f[2] = lost
row cmp <s:src>,<d:src> | f[0] = (<s> ? <d>); f[1] = lost; f[2] = (<s> ? <d>)
row add <s:src>,<d:dst> | <d> = (<d> + <s>); f[0] = ((<d> + <s>) ? 0); f[1] = ((<d> + <s>) ? 0); f[2] = lost
row sub <s:src>,<d:dst> | <d> = (<d> - <s>); f[0] = ((<d> - <s>) ? 0); f[1] = ((<d> - <s>) ? 0); f[2] = lost
row bis <s:src>,<d:dst> | <d> = (<d> | <s>); f[0] = ((<d> | <s>) ? 0); f[1] = ((<d> | <s>) ? 0); f[2] = lost
row bic <s:inv>,<d:dst> | <d> = (<d> & <s>); f[0] = ((<d> & <s>) ? 0); f[1] = ((<d> & <s>) ? 0); f[2] = lost
row movb <s:bsrc>,<d:r> | <d> = (sxb <s>); f[0] = ((sxb <s>) ? 0); f[1] = ((sxb <s>) ? 0); f[2] = lost
row movb <s:bsrc>,<d:bmem> | <d> = <s>; f[0] = ((sxb <s>) ? 0); f[1] = ((sxb <s>) ? 0); f[2] = lost
row beq <l:label> | PC = ((f[0] eq) -> <l>)
row bne <l:label> | PC = ((f[0] ne) -> <l>)
row bmi <l:label> | PC = ((f[1] lt) -> <l>)
row bpl <l:label> | PC = ((f[1] ge) -> <l>)
row blt <l:label> | PC = ((f[2] lt) -> <l>)
row ble <l:label> | PC = ((f[2] le) -> <l>)
row bgt <l:label> | PC = ((f[2] gt) -> <l>)
row bge <l:label> | PC = ((f[2] ge) -> <l>)
row blo <l:label> | PC = ((f[2] ltu) -> <l>)
row blos <l:label> | PC = ((f[2] leu) -> <l>)
row bhi <l:label> | PC = ((f[2] gtu) -> <l>)
row bhis <l:label> | PC = ((f[2] geu) -> <l>)
row br <l:label> | PC = <l>
row jsr pc,<f:label> | M[(r[6] + -2)] = PC; r[6] = (r[6] + -2); PC = <f>
row rts pc | PC = M[r[6]]; r[6] = (r[6] + 2)
row sys getc | r[0] = IN
row sys putc | OUT = r[0]
row sys exit | HALT = r[0]
";

/// The description of the PDP-11.
pub(crate) fn pdp11() -> &'static [u8]
    ensures { result.now ≡ text_with pdp11_lines }
{
    PDP11
}
