// Names of commands and types: read as the number that their letters spell, and told.
// The code byte of a command by its name, 0 for none.
pub fn code_of(op: u64) -> u8 {
    match op {
        0x61_64_64 => 16, // add
        0x73_75_62 => 17, // sub
        0x6d_75_6c => 18, // mul
        0x64_69_76 => 19, // div
        0x6d_6f_64 => 20, // mod
        0x61_6e_64 => 24, // and
        0x6f_72 => 25, // or
        0x78_6f_72 => 26, // xor
        0x6e_6f_74 => 27, // not
        0x73_68_6c => 28, // shl
        0x73_68_72 => 29, // shr
        0x72_6f_6c => 30, // rol
        0x72_6f_72 => 31, // ror
        0x67_74 => 32, // gt
        0x67_65 => 33, // ge
        0x65_71 => 34, // eq
        0x6c_65 => 35, // le
        0x6c_74 => 36, // lt
        0x6e_65 => 37, // ne
        0x63_6f_6e_76_65_72_74 => 43, // convert
        0x70_61_63_6b => 44, // pack
        0x75_6e_70_61_63_6b => 45, // unpack
        _ => 0,
    }
}

// The number of a type by its name, 255 for none. REAL is binary32 and LREAL binary64.
pub fn type_of(kind: u64) -> u8 {
    match kind {
        0x62_6f_6f_6c => 0, // bool
        0x73_69_6e_74 => 1, // sint
        0x62_79_74_65 => 2, // byte
        0x69_6e_74 => 3, // int
        0x77_6f_72_64 => 4, // word
        0x64_69_6e_74 => 5, // dint
        0x64_77_6f_72_64 => 6, // dword
        0x6c_69_6e_74 => 7, // lint
        0x6c_77_6f_72_64 => 8, // lword
        0x62_69_6e_61_72_79_33_32 => 9, // binary32
        0x62_69_6e_61_72_79_36_34 => 10, // binary64
        0x74_69_6d_65 => 11, // time
        _ => 255,
    }
}

// The name of a command by its code byte.
pub fn name_of(code: usize) -> &'static str {
    match code {
        16 => "add",
        17 => "sub",
        18 => "mul",
        19 => "div",
        20 => "mod",
        24 => "and",
        25 => "or",
        26 => "xor",
        27 => "not",
        28 => "shl",
        29 => "shr",
        30 => "rol",
        31 => "ror",
        32 => "gt",
        33 => "ge",
        34 => "eq",
        35 => "le",
        36 => "lt",
        37 => "ne",
        43 => "convert",
        44 => "pack",
        45 => "unpack",
        _ => "unknown",
    }
}
