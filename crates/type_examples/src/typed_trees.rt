//! Typed sources with their trees, as the crate `typed_text` writes them.

use crate::typing::{BOTH, Placed, Tree};

pub const TREES: [Tree; 89] = [
    Tree("int main(void){return 0;}", BOTH, "i main(|){return 0i;}"),
    Tree("int main(void){}", BOTH, "i main(|){}"),
    Tree("int main(){;return 0;}", BOTH, "i main(|){;return 0i;}"),
    Tree(
        "int f(char a){return a;}int main(void){return 0;}",
        BOTH,
        "i f(c a|){return i(P0c);} i main(|){return 0i;}",
    ),
    Tree(
        "char f(int a){return a;}int main(void){return 0;}",
        BOTH,
        "c f(i a|){return c(P0i);} i main(|){return 0i;}",
    ),
    Tree(
        "unsigned char f(unsigned a){return a;}int main(void){return 0;}",
        BOTH,
        "C f(u a|){return C(P0u);} i main(|){return 0i;}",
    ),
    Tree(
        "unsigned f(int a){return a;}int main(void){return 0;}",
        BOTH,
        "u f(i a|){return u(P0i);} i main(|){return 0i;}",
    ),
    Tree(
        "void f(void){return;}int main(void){return 0;}",
        BOTH,
        "v f(|){return ;} i main(|){return 0i;}",
    ),
    Tree(
        "char a,b;int main(void){return a+b;}",
        BOTH,
        "c a; c b; i main(|){return (i(S0c) + i(S1c))i;}",
    ),
    Tree(
        "unsigned char a;unsigned b;unsigned f(void){return a-b;}int main(void){return 0;}",
        BOTH,
        "C a; u b; u f(|){return (u(S0C) - S1u)u;} i main(|){return 0i;}",
    ),
    Tree(
        "int x;unsigned u;unsigned f(void){return x*u;}int main(void){return 0;}",
        BOTH,
        "i x; u u; u f(|){return (u(S0i) * S1u)u;} i main(|){return 0i;}",
    ),
    Tree(
        "int main(void){return -1<1u;}",
        BOTH,
        "i main(|){return (u((-1i)i) < 1u)i;}",
    ),
    Tree(
        "char a;unsigned b;int main(void){return b>=a;}",
        BOTH,
        "c a; u b; i main(|){return (S1u >= u(S0c))i;}",
    ),
    Tree(
        "char a;unsigned char b;int main(void){return a==b;}",
        BOTH,
        "c a; C b; i main(|){return (i(S0c) == i(S1C))i;}",
    ),
    Tree(
        "char a;unsigned b;int main(void){return a<<b;}",
        BOTH,
        "c a; u b; i main(|){return (i(S0c) << S1u)i;}",
    ),
    Tree(
        "unsigned a;char b;unsigned f(void){return a>>b;}int main(void){return 0;}",
        BOTH,
        "u a; c b; u f(|){return (S0u >> i(S1c))u;} i main(|){return 0i;}",
    ),
    Tree(
        "int a,b;int main(void){return a/b%a&b^a|b;}",
        BOTH,
        "i a; i b; i main(|){return (((((S0i / S1i)i % S0i)i & S1i)i ^ S0i)i | S1i)i;}",
    ),
    Tree(
        "char c;unsigned u;int main(void){return c&&u;}",
        BOTH,
        "c c; u u; i main(|){return (S0c && S1u)i;}",
    ),
    Tree(
        "char c;int main(void){return c||!c;}",
        BOTH,
        "c c; i main(|){return (S0c || (!S0c)i)i;}",
    ),
    Tree(
        "char c;int main(void){return -c+~c+ +c;}",
        BOTH,
        "c c; i main(|){return (((-i(S0c))i + (~i(S0c))i)i + (+i(S0c))i)i;}",
    ),
    Tree(
        "unsigned u;unsigned f(void){return -u;}int main(void){return 0;}",
        BOTH,
        "u u; u f(|){return (-S0u)u;} i main(|){return 0i;}",
    ),
    Tree(
        "char c;unsigned f(void){return c?1:2u;}int main(void){return 0;}",
        BOTH,
        "c c; u f(|){return (S0c ? u(1i) : 2u)u;} i main(|){return 0i;}",
    ),
    Tree(
        "char c,d;int main(void){return 1?c:d;}",
        BOTH,
        "c c; c d; i main(|){return (1i ? i(S0c) : i(S1c))i;}",
    ),
    Tree(
        "void v(void){}int main(void){1?v():v();return 0;}",
        BOTH,
        "v v(|){} i main(|){(1i ? F0()v : F0()v)v;return 0i;}",
    ),
    Tree(
        "void v(void){}int main(void){v(),1;for(v();1;v());}",
        BOTH,
        "v v(|){} i main(|){(F0()v , 1i)i;for(F0()v;1i;F0()v)[;]}",
    ),
    Tree(
        "char c;int main(void){return 1,c;}",
        BOTH,
        "c c; i main(|){return i((1i , S0c)c);}",
    ),
    Tree(
        "int main(void){return (char)1;}",
        BOTH,
        "i main(|){return i(c(1i));}",
    ),
    Tree(
        "int main(void){return (int)1;}",
        BOTH,
        "i main(|){return i(1i);}",
    ),
    Tree(
        "int main(void){return (unsigned char)(char)-1;}",
        BOTH,
        "i main(|){return i(C(c((-1i)i)));}",
    ),
    Tree(
        "char c;int main(void){c=1;return 0;}",
        BOTH,
        "c c; i main(|){(S0c = c(1i))c;return 0i;}",
    ),
    Tree(
        "unsigned u;int main(void){u='a';return u;}",
        BOTH,
        "u u; i main(|){(S0u = u(97i))u;return i(S0u);}",
    ),
    Tree(
        "int x;int main(void){(x)=1;return (x);}",
        BOTH,
        "i x; i main(|){(S0i = 1i)i;return S0i;}",
    ),
    Tree(
        "char x;int y;int main(void){y=x=1;return y;}",
        BOTH,
        "c x; i y; i main(|){(S1i = i((S0c = c(1i))c))i;return S1i;}",
    ),
    Tree(
        "char c;int main(void){c+=1;c-=c;return 0;}",
        BOTH,
        "c c; i main(|){(S0c += 1i)c;(S0c -= i(S0c))c;return 0i;}",
    ),
    Tree(
        "unsigned char c;unsigned u;int main(void){c*=u;u/=c;return 0;}",
        BOTH,
        "C c; u u; i main(|){(S0C *= S1u)C;(S1u /= u(S0C))u;return 0i;}",
    ),
    Tree(
        "int x;char c;int main(void){x%=c;x&=1u;x^=2;x|=3;return x;}",
        BOTH,
        "i x; c c; i main(|){(S0i %= i(S1c))i;(S0i &= 1u)i;(S0i ^= 2i)i;(S0i |= 3i)i;return S0i;}",
    ),
    Tree(
        "int x;char c;unsigned u;int main(void){x<<=c;u>>=1;c<<=u;return x;}",
        BOTH,
        "i x; c c; u u; i main(|){(S0i <<= i(S1c))i;(S2u >>= 1i)u;(S1c <<= S2u)c;return S0i;}",
    ),
    Tree(
        "int x;char c;int main(void){x++;--c;c--;++x;return x;}",
        BOTH,
        "i x; c c; i main(|){(S0i++)i;(--S1c)c;(S1c--)c;(++S0i)i;return S0i;}",
    ),
    Tree(
        "int f(char a,unsigned b,int c){return c;}int main(void){return f(1,2,'c');}",
        BOTH,
        "i f(c a, u b, i c|){return P2i;} i main(|){return F0(c(1i), u(2i), 99i)i;}",
    ),
    Tree(
        "#include <stdio.h>\nchar c;int main(void){putchar(c);return getchar();}",
        BOTH,
        "c c; i main(|){putchar(i(S0c))i;return getchar()i;}",
    ),
    Tree(
        "int getchar(void);int main(void){return getchar();}",
        BOTH,
        "i main(|){return getchar()i;}",
    ),
    Tree(
        "#include <stdio.h>\nint main(void){return EOF;}",
        16,
        "i main(|){return 65535i;}",
    ),
    Tree(
        "#include <stdio.h>\nint main(void){return EOF;}",
        32,
        "i main(|){return 4294967295i;}",
    ),
    Tree(
        "int EOF;\n#include <stdio.h>\nint main(void){return EOF;}",
        16,
        "i EOF; i main(|){return 65535i;}",
    ),
    Tree(
        "int main(void){return '\\377';}",
        16,
        "i main(|){return 65535i;}",
    ),
    Tree(
        "int main(void){return '\\377';}",
        32,
        "i main(|){return 4294967295i;}",
    ),
    Tree(
        "int main(void){return 0xffff;}",
        16,
        "i main(|){return i(65535u);}",
    ),
    Tree(
        "int main(void){return 0xffff;}",
        32,
        "i main(|){return 65535i;}",
    ),
    Tree(
        "int main(void){return 0x7fff;}",
        BOTH,
        "i main(|){return 32767i;}",
    ),
    Tree(
        "int main(void){return 0100000;}",
        16,
        "i main(|){return i(32768u);}",
    ),
    Tree(
        "int main(void){return 0x80000000;}",
        32,
        "i main(|){return i(2147483648u);}",
    ),
    Tree(
        "int main(void){return -32768;}",
        32,
        "i main(|){return (-32768i)i;}",
    ),
    Tree(
        "int main(void){return -1<0x8000;}",
        16,
        "i main(|){return (u((-1i)i) < 32768u)i;}",
    ),
    Tree(
        "int main(void){return -1<0x8000;}",
        32,
        "i main(|){return ((-1i)i < 32768i)i;}",
    ),
    Tree(
        "char a[3];int main(void){return a[1];}",
        BOTH,
        "c a[3]; i main(|){return i(S0[1i]c);}",
    ),
    Tree(
        "char a[3];char c;int main(void){a[c]=1;a[c]++;return 0;}",
        BOTH,
        "c a[3]; c c; i main(|){(S0[S1c]c = c(1i))c;(S0[S1c]c++)c;return 0i;}",
    ),
    Tree(
        "char c=200;unsigned char d=300;int main(void){return 0;}",
        16,
        "c c 65480; C d 44; i main(|){return 0i;}",
    ),
    Tree(
        "char c=200;unsigned char d=300;int main(void){return 0;}",
        32,
        "c c 4294967240; C d 44; i main(|){return 0i;}",
    ),
    Tree(
        "int x=-1;unsigned u=-1;unsigned char c=-1;int main(void){return 0;}",
        16,
        "i x 65535; u u 65535; C c 255; i main(|){return 0i;}",
    ),
    Tree(
        "int x=-1;unsigned u=-1;unsigned char c=-1;int main(void){return 0;}",
        32,
        "i x 4294967295; u u 4294967295; C c 255; i main(|){return 0i;}",
    ),
    Tree(
        "int a[]={1,2,};int b[3]={4};int main(void){return 0;}",
        BOTH,
        "i a[2] 1 2; i b[3] 4; i main(|){return 0i;}",
    ),
    Tree(
        "char s[2]={'a','\\377'};int main(void){return 0;}",
        16,
        "c s[2] 97 65535; i main(|){return 0i;}",
    ),
    Tree(
        "int x;int x=1;int x;int a[3];int a[3]={2};int main(void){return 0;}",
        BOTH,
        "i x 1; i a[3] 2; i main(|){return 0i;}",
    ),
    Tree(
        "signed x;int signed x;int main(void){return 0;}",
        BOTH,
        "i x; i main(|){return 0i;}",
    ),
    Tree(
        "int x=-7/2;int y=-7%2;int z=-8>>1;int main(void){return 0;}",
        16,
        "i x 65533; i y 65535; i z 65532; i main(|){return 0i;}",
    ),
    Tree(
        "int x=-7/2;int y=-7%2;int z=-8>>1;int main(void){return 0;}",
        32,
        "i x 4294967293; i y 4294967295; i z 4294967292; i main(|){return 0i;}",
    ),
    Tree(
        "int x=5&6|8^1;int y=!0+(3<4u);int z=-1<1u;int main(void){return 0;}",
        BOTH,
        "i x 13; i y 2; i z 0; i main(|){return 0i;}",
    ),
    Tree(
        "unsigned x=65535u+1u;unsigned y=~0u>>15;int z=(char)200;int main(void){return 0;}",
        16,
        "u x 0; u y 1; i z 65480; i main(|){return 0i;}",
    ),
    Tree(
        "unsigned x=65535u+1u;unsigned y=~0u>>31;int z=(unsigned char)200;int main(void){return 0;}",
        32,
        "u x 65536; u y 1; i z 200; i main(|){return 0i;}",
    ),
    Tree(
        "int x=1?2:1/0;int y=0&&1/0;int z=1||1/0;int main(void){return 0;}",
        BOTH,
        "i x 2; i y 0; i z 1; i main(|){return 0i;}",
    ),
    Tree(
        "int x=32767+1;int y=256*256;int z=1<<16;int main(void){return 0;}",
        32,
        "i x 32768; i y 65536; i z 65536; i main(|){return 0i;}",
    ),
    Tree(
        "int a[0x8000];char b[-1u];int main(void){return 0;}",
        16,
        "i a[32768]; c b[65535]; i main(|){return 0i;}",
    ),
    Tree(
        "int a[0xffff+1];char b[1<<20];int main(void){return 0;}",
        32,
        "i a[65536]; c b[1048576]; i main(|){return 0i;}",
    ),
    Tree(
        "int main(void){int x=1;char c=x;return c;}",
        BOTH,
        "i main(|i x, c c){let 0=1i;let 1=c(L0i);return i(L1c);}",
    ),
    Tree(
        "int main(void){int x=x;{int x=2;}return x;}",
        BOTH,
        "i main(|i x, i x){let 0=L0i;{let 1=2i;}return L0i;}",
    ),
    Tree(
        "int main(void){int a=1,b=a,c;return c;}",
        BOTH,
        "i main(|i a, i b, i c){let 0=1i 1=L0i 2;return L2i;}",
    ),
    Tree(
        "int main(void){int a[3]={1,2};char c[]={'a','b'};return a[c[0]];}",
        BOTH,
        "i main(|i a[3], c c[2]){let 0={1i, 2i};let 1={c(97i), c(98i)};return L0[L1[0i]c]i;}",
    ),
    Tree(
        "int f(int a){{int a=2;return a;}}int main(void){return 0;}",
        BOTH,
        "i f(i a|i a){{let 0=2i;return L0i;}} i main(|){return 0i;}",
    ),
    Tree(
        "int main(void){for(int i=0;i<2;i++){int i;i=1;}return 0;}",
        BOTH,
        "i main(|i i, i i){for(let 0=0i;(L0i < 2i)i;(L0i++)i)[{let 1;(L1i = 1i)i;}]return 0i;}",
    ),
    Tree(
        "char c;int main(void){if(c)return 1;else if(1)return 2;return 3;}",
        BOTH,
        "c c; i main(|){if(S0c)[return 1i;]else[if(1i)[return 2i;]]return 3i;}",
    ),
    Tree(
        "int x;int main(void){while(1){break;continue;}do x--;while(x);for(;;);}",
        BOTH,
        "i x; i main(|){while(1i)[{break;continue;}]do[(S0i--)i;]while(S0i);for(;;)[;]}",
    ),
    Tree(
        "char c;int main(void){switch(c){case -1:case 2:break;default:c=1;}return 0;}",
        16,
        "c c; i main(|){switch(i(S0c)){case 65535:case 2:break;default:(S0c = c(1i))c;}return 0i;}",
    ),
    Tree(
        "int main(void){switch(1u){case 0xffff:;case -1:switch(2){case 1:;default:;}}return 0;}",
        32,
        "i main(|){switch(1u){case 65535:;case 4294967295:switch(2i){case 1:;default:;}}return 0i;}",
    ),
    Tree(
        "int main(void){switch(1){case 0xffff:;case -1:;}return 0;}",
        32,
        "i main(|){switch(1i){case 65535:;case 4294967295:;}return 0i;}",
    ),
    Tree(
        "char c;int main(void){switch(c){case 1:;case 257:;}return 0;}",
        BOTH,
        "c c; i main(|){switch(i(S0c)){case 1:;case 257:;}return 0i;}",
    ),
    Tree(
        "int f(int a);int main(void){return f(1);}int f(int b){return b;}",
        BOTH,
        "i main(|){return F1(1i)i;} i f(i b|){return P0i;}",
    ),
    Tree(
        "int f();int f(void){return f();}int main(void){return main();}",
        BOTH,
        "i f(|){return F0()i;} i main(|){return F1()i;}",
    ),
    Tree(
        "int f(int,int,int,int,int,int,int,int,int,int,int,int,int,int,int,int);int main(void){return 0;}",
        BOTH,
        "i main(|){return 0i;}",
    ),
    Tree(
        "int f(void);int main(void){int f=f;return f;}",
        BOTH,
        "i main(|i f){let 0=L0i;return L0i;}",
    ),
];

/// Trees with the column of each expression.
pub const PLACES: [Placed; 12] = [
    Placed(
        "int main(void){return 1+2;}",
        BOTH,
        "i main(|){return (1i@23 + 2i@25)i@23;}",
    ),
    Placed(
        "int main(void){return (1+2);}",
        BOTH,
        "i main(|){return (1i@24 + 2i@26)i@24;}",
    ),
    Placed(
        "int main(void){return (1+2)*3;}",
        BOTH,
        "i main(|){return ((1i@24 + 2i@26)i@24 * 3i@29)i@23;}",
    ),
    Placed(
        "char c;int main(void){return c;}",
        BOTH,
        "c c; i main(|){return i@30(S0c@30);}",
    ),
    Placed(
        "char c;int main(void){return (c);}",
        BOTH,
        "c c; i main(|){return i@31(S0c@31);}",
    ),
    Placed(
        "int main(void){return (char)1;}",
        BOTH,
        "i main(|){return i@23(c@23(1i@29));}",
    ),
    Placed(
        "int main(void){return -(1);}",
        BOTH,
        "i main(|){return (-1i@25)i@23;}",
    ),
    Placed(
        "int x;int main(void){x=1;++x;(x)++;return 0;}",
        BOTH,
        "i x; i main(|){(S0i@22 = 1i@24)i@22;(++S0i@28)i@26;(S0i@31++)i@30;return 0i@43;}",
    ),
    Placed(
        "int a[2];int main(void){return a[1]+main();}",
        BOTH,
        "i a[2]; i main(|){return (S0[1i@34]i@32 + F0()i@37)i@32;}",
    ),
    Placed(
        "int main(void){return 1?2:3;}",
        BOTH,
        "i main(|){return (1i@23 ? 2i@25 : 3i@27)i@23;}",
    ),
    Placed(
        "int main(void){return (1,2);}",
        BOTH,
        "i main(|){return (1i@24 , 2i@26)i@24;}",
    ),
    Placed(
        "char c;int main(void){c=c+1;return 0;}",
        BOTH,
        "c c; i main(|){(S0c@23 = c@25((i@25(S0c@25) + 1i@27)i@25))c@23;return 0i@36;}",
    ),
];
