//! Texts of a machine with two-register instructions, worked out by hand from its rows.

use crate::run_cases::RunCase;

/// The text of `examples/uno.vpo`: it has the three rows that texts of the first form use.
pub fn uno() -> &'static [u8] {
    b"\
vpo 1
name uno
word 16
memory 32768
data 256
stack 4096
reg 0 a result
reg 1 b general
reg 2 c general
reg 3 d general
reg 4 e general
reg 7 s stack
flag 0 cmp
class r a b c d e s
mode at | (<r:r>) | <r>
mode at | <k:word>(<r:r>) | (<r> + <k>)
row set <n:word>,a | r[0] = <n>
row put | OUT = r[0]
row mov <d:r>,<x:r> | <d> = <x>
row mov <d:r>,#<n:word> | <d> = <n>
row mov <d:r>,#<y:sym> | <d> = <y>
row ld <d:r>,<x:at> | <d> = M[<x>]
row st <x:r>,<d:at> | M[<d>] = <x>
row ldb <d:r>,<x:at> | <d> = (sxb B[<x>])
row stb <x:r>,<d:at> | B[<d>] = <x>
row add <d:r>,<x:r> | <d> = (<d> + <x>)
row add <d:r>,#<n:word> | <d> = (<d> + <n>)
row sub <d:r>,<x:r> | <d> = (<d> - <x>)
row or <d:r>,<x:r> | <d> = (<d> | <x>)
row not <d:r> | <d> = (not <d>)
row and <d:r>,<x:r> | <d> = (<d> & <x>)
row clr <d:r>,#<n:!word> | <d> = (<d> & <n>)
row swap <d:r>,<x:r> | <d> = <x>; <x> = <d>
row cmp <d:r>,<x:r> | f[0] = (<d> ? <x>)
row beq <l:label> | PC = ((f[0] eq) -> <l>)
row bne <l:label> | PC = ((f[0] ne) -> <l>)
row blt <l:label> | PC = ((f[0] lt) -> <l>)
row ble <l:label> | PC = ((f[0] le) -> <l>)
row bgt <l:label> | PC = ((f[0] gt) -> <l>)
row bge <l:label> | PC = ((f[0] ge) -> <l>)
row bltu <l:label> | PC = ((f[0] ltu) -> <l>)
row bleu <l:label> | PC = ((f[0] leu) -> <l>)
row bgtu <l:label> | PC = ((f[0] gtu) -> <l>)
row bgeu <l:label> | PC = ((f[0] geu) -> <l>)
row jmp <l:label> | PC = <l>
row call <f:label> | M[(r[7] + -2)] = PC; r[7] = (r[7] + -2); PC = <f>
row ret | PC = M[r[7]]; r[7] = (r[7] + 2)
row in | r[0] = IN
row out | OUT = r[0]
row end | HALT = r[0]
"
}

pub const UNO_RUNS: [RunCase; 20] = [
    (
        "100",
        b"\
.text
\tset 72,a
\tput
\tset 321,a
\tput
\tset 7,a
\tend
",
        b"",
        b"HA",
        b"",
        7,
    ),
    (
        "100",
        b"\
.text
mov a,#65
mov b,#66
swap a,b
out
mov a,b
out
end
",
        b"",
        b"BA",
        b"",
        65,
    ),
    (
        "100",
        b"\
.text
L0:
in
mov b,#-1
cmp a,b
beq L1
out
jmp L0
L1:
in
end
",
        b"xyz",
        b"xyz",
        b"",
        255,
    ),
    (
        "100",
        b"\
.text
mov a,#48
mov b,#48
cmp a,b
bne L1
out
beq L1
end
L1:
mov a,#49
out
end
",
        b"",
        b"01",
        b"",
        49,
    ),
    (
        "100",
        b"\
.text
mov s,#-32768
call _f
end
_f:
set 9,a
ret
",
        b"",
        b"",
        b"",
        9,
    ),
    (
        "100",
        b"\
.text
mov b,#_x
ld a,(b)
out
ldb a,2(b)
out
mov b,#_y
ld a,(b)
end
.data
_x:
.word 65
.byte 66
_y:
.word 7
",
        b"",
        b"AB",
        b"",
        7,
    ),
    (
        "100",
        b"\
.text
mov b,#_t
ldb a,3(b)
end
.data
_t:
.space 3
.byte -2
",
        b"",
        b"",
        b"",
        254,
    ),
    (
        "100",
        b"\
.text
mov b,#-32768
ld a,(b)
",
        b"",
        b"",
        b"vpo: trap 3 at 1\n",
        73,
    ),
    (
        "100",
        b"\
.text
mov b,#257
st a,(b)
",
        b"",
        b"",
        b"vpo: trap 4 at 1\n",
        73,
    ),
    (
        "100",
        b"\
.text
mov b,#-32768
stb a,(b)
",
        b"",
        b"",
        b"vpo: trap 3 at 1\n",
        73,
    ),
    (
        "100",
        b"\
.text
beq L0
L0:
",
        b"",
        b"",
        b"vpo: trap 5 at 0\n",
        73,
    ),
    (
        "100",
        b"\
.text
mov a,#1
",
        b"",
        b"",
        b"vpo: trap 6 at 1\n",
        73,
    ),
    (
        "100",
        b"\
.text
jmp L0
L0:
",
        b"",
        b"",
        b"vpo: trap 6 at 1\n",
        73,
    ),
    (
        "100",
        b"\
.text
mov s,#256
ret
.data
.word 9
",
        b"",
        b"",
        b"vpo: trap 6 at 9\n",
        73,
    ),
    (
        "100",
        b"\
.text
call _f
_f:
",
        b"",
        b"",
        b"vpo: trap 3 at 0\n",
        73,
    ),
    (
        "100",
        b"\
.text
mov a,#321
mov b,#300
stb a,(b)
ldb a,(b)
out
end
",
        b"",
        b"A",
        b"",
        65,
    ),
    (
        "100",
        b"\
.text
mov a,#-1
add a,#2
end
",
        b"",
        b"",
        b"",
        1,
    ),
    (
        "100",
        b"\
.text
mov a,#127
clr a,#62
end
",
        b"",
        b"",
        b"",
        65,
    ),
    (
        "100",
        b"\
.text
set 5,a
end",
        b"",
        b"",
        b"",
        5,
    ),
    (
        "100",
        b"\
 \t.text \t
 
\t* a note
  L0 :
\tset\t5 , a
\t end\t",
        b"",
        b"",
        b"",
        5,
    ),
];
