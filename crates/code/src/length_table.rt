// The table of instruction lengths.

// "Each of the 256 code bytes has its instruction length in one table, 0 where unknown; MCD adds n."
pub const LENGTHS: [u8; 256] = [
    1, // 0 RETURN
    3, // 1 JMP
    5, // 2 JZ
    5, // 3 JNZ
    5, // 4 CALB
    3, // 5 CALF
    4, // 6 MCD
    7, // 7 MEMCP
    10, // 8 AURD
    10, // 9 AUWD
    0, // 10 to 15: unknown
    0, 0, 0, 0, 0, 8, // 16 ADD
    8, // 17 SUB
    8, // 18 MUL
    8, // 19 DIV
    8, // 20 MOD
    0, // 21 to 23: unknown
    0, 0, 8, // 24 AND
    8, // 25 OR
    8, // 26 XOR
    6, // 27 NOT
    8, // 28 SHL
    8, // 29 SHR
    8, // 30 ROL
    8, // 31 ROR
    8, // 32 GT
    8, // 33 GE
    8, // 34 EQ
    8, // 35 LE
    8, // 36 LT
    8, // 37 NE
    0, // 38 to 40: unknown
    0, 0, 3, // 41 cycle time
    3, // 42 flag byte
    7, // 43 conversion
    6, // 44 whole to packed
    6, // 45 packed to whole
    0, // 46 to 255: unknown
    0, 0, 0, 0, 0, 0, 0, 0, 0, 0, 0, 0, 0, 0, 0, 0, 0, 0, 0, 0, 0, 0, 0, 0, 0, 0, 0, 0, 0, 0, 0, 0,
    0, 0, 0, 0, 0, 0, 0, 0, 0, 0, 0, 0, 0, 0, 0, 0, 0, 0, 0, 0, 0, // 99, document 01's sample of refusal 6 (63 hex)
    0, 0, 0, 0, 0, 0, 0, 0, 0, 0, 0, 0, 0, 0, 0, 0, 0, 0, 0, 0, 0, 0, 0, 0, 0, 0, 0, 0, 0, 0, 0, 0,
    0, 0, 0, 0, 0, 0, 0, 0, 0, 0, 0, 0, 0, 0, 0, 0, 0, 0, 0, 0, 0, 0, 0, 0, 0, 0, 0, 0, 0, 0, 0, 0,
    0, 0, 0, 0, 0, 0, 0, 0, 0, 0, 0, 0, 0, 0, 0, 0, 0, 0, 0, 0, 0, 0, 0, 0, 0, 0, 0, 0, 0, 0, 0, 0,
    0, 0, 0, 0, 0, 0, 0, 0, 0, 0, 0, 0, 0, 0, 0, 0, 0, 0, 0, 0, 0, 0, 0, 0, 0, 0, 0, 0, 0, 0, 0, 0,
    0, 0, 0, 0, 0, 0, 0, 0, 0, 0, 0, 0, 0, 0, 0, 0, 0, 0, 0, 0, 0, 0, 0, 0, 0, 0, 0, 0,
];
