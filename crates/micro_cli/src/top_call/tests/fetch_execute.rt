//! The processor of the example `fetch_execute`: its source, its script, and the flow of its first sixteen clocks.

/// The source without its comments.
pub const FETCH_EXECUTE: &[u8] = b"slices 4\n\
field wr 1 0\n\
field io 3 0\n\
write wr\n\
start RST\n\
RST: CLR R0 | goto FETCH\n\
FETCH: LMI R0 FF1 | goto DEC\n\
DEC: ACM AC | onpx LOADI ADDI STOR HALT - - - - - - - - - - - -\n\
LOADI: SDR R1 FF1 | strobe FETCH\n\
ADDI: ADR R1 STC | goto CHK\n\
CHK: TZR R1 STZ | ifc NC CY\n\
NC: NOP R0 | ifz ZERO NZ\n\
CY: INR R2 FF1 | strobe FETCH\n\
ZERO: INR R3 FF1 | strobe FETCH\n\
NZ: NOP R0 | strobe FETCH\n\
STOR: LMI AC | goto ST2\n\
ST2: ILR R1 | goto ST3\n\
ST3: NOP R0 wr=1 io=5 | strobe FETCH\n\
HALT: NOP R0 | goto HALT\n";

/// The script without its comments.
pub const FETCH_EXECUTE_SCRIPT: &[u8] = b"mem 0 0xf0\n\
mem 1 0x20\n\
mem 2 0x40\n\
clk\n\
clk\n\
clk\n\
clk\n\
clk\n\
clk px=1\n\
clk\n\
clk\n\
clk\n\
clk\n\
clk px=2\n\
clk\n\
clk\n\
clk\n\
clk\n\
clk px=3\n";

/// The flow of sixteen clocks: a load, an addition with a carry, and a store.
pub const FETCH_EXECUTE_FLOW: &[u8] =
    b"0 RST A=00 D=00 T=00 R=00,00,00,00,00,00,00,00,00,00 C=000 L=0 P=- S=0 U=0,0 Y=0000\n\
1 FETCH A=00 D=00 T=00 R=00,00,00,00,00,00,00,00,00,00 C=000 L=0 P=- S=0 U=0,0 Y=0000\n\
2 DEC A=00 D=00 T=00 R=01,00,00,00,00,00,00,00,00,00 C=000 L=0 P=- S=0 U=0,0 Y=0000\n\
3 LOADI A=00 D=f0 T=00 R=01,00,00,00,00,00,00,00,00,00 C=000 L=0 P=- S=1 U=0,0 Y=1111\n\
4 FETCH A=00 D=f0 T=00 R=01,f0,00,00,00,00,00,00,00,00 C=100 L=0 P=- S=0 U=0,0 Y=0000\n\
5 DEC A=01 D=f0 T=00 R=02,f0,00,00,00,00,00,00,00,00 C=000 L=0 P=- S=0 U=0,0 Y=0000\n\
6 ADDI A=01 D=20 T=00 R=02,f0,00,00,00,00,00,00,00,00 C=000 L=0 P=- S=0 U=0,0 Y=1100\n\
7 CHK A=01 D=20 T=00 R=02,10,00,00,00,00,00,00,00,00 C=110 L=0 P=- S=0 U=0,0 Y=1100\n\
8 CY A=01 D=20 T=00 R=02,10,00,00,00,00,00,00,00,00 C=111 L=0 P=- S=1 U=0,0 Y=0000\n\
9 FETCH A=01 D=20 T=00 R=02,10,01,00,00,00,00,00,00,00 C=011 L=0 P=- S=0 U=0,0 Y=0000\n\
10 DEC A=02 D=20 T=00 R=03,10,01,00,00,00,00,00,00,00 C=011 L=0 P=- S=0 U=0,0 Y=0000\n\
11 STOR A=02 D=40 T=00 R=03,10,01,00,00,00,00,00,00,00 C=011 L=0 P=- S=0 U=0,0 Y=0000\n\
12 ST2 A=40 D=40 T=00 R=03,10,01,00,00,00,00,00,00,00 C=011 L=0 P=- S=0 U=0,0 Y=0000\n\
13 ST3 A=40 D=10 T=00 R=03,10,01,00,00,00,00,00,00,00 C=011 L=0 P=- S=1 U=1,5 Y=0000\n\
14 FETCH A=40 D=10 T=00 R=03,10,01,00,00,00,00,00,00,00 C=011 L=0 P=- S=0 U=0,0 Y=0001\n\
15 DEC A=03 D=10 T=00 R=04,10,01,00,00,00,00,00,00,00 C=011 L=0 P=- S=0 U=0,0 Y=0000\n";
