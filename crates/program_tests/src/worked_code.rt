//! The guests of the tests, word by word.

/// The header of a file with one segment, behind whose header the program begins.
pub(crate) const FILE_HEADER: &[u32] = &[
    0x464c_457f, // e_ident
    0x0001_0101,
    0,
    0,
    0x00f3_0002, // e_type and e_machine
    1, // e_version
    0x0001_0054, // e_entry
    52, // e_phoff
    0, // e_shoff
    0, // e_flags
    0x0020_0034, // e_ehsize and e_phentsize
    0x0028_0001, // e_phnum and e_shentsize
    0, // e_shnum and e_shstrndx
];

/// The header of a segment at 0x10000 of the first 512 bytes of the file.
pub(crate) const SEGMENT: &[u32] = &[
    1, // p_type
    0, // p_offset
    0x0001_0000, // p_vaddr
    0x0001_0000, // p_paddr
    512, // p_filesz
    512, // p_memsz
    7, // p_flags
    0x1000, // p_align
];

/// Ends with status 0.
pub(crate) const EXIT: &[u32] = &[
    0x05d0_0893, // addi x17,x0,93
    0x0000_0513, // addi x10,x0,0
    0x0000_0073, // ecall
];

/// As threaded programs do, it maps a stack with a guard page, starts a thread on it, waits for it, and writes what it left.
pub(crate) const THREADED_PROGRAM: &[u32] = &[
    0x0041_2403, // lw x8,4(x2)
    0x0001_04b7, // lui x9,16
    0x4004_8513, // addi x10,x9,1024
    0x0600_0893, // addi x17,x0,96
    0x0000_0073, // ecall
    0x0000_0513, // addi x10,x0,0
    0x0000_25b7, // lui x11,2
    0x0220_0693, // addi x13,x0,34
    0xfff0_0713, // addi x14,x0,-1
    0x0de0_0893, // addi x17,x0,222
    0x0000_0073, // ecall
    0x0005_0913, // addi x18,x10,0
    0x0000_15b7, // lui x11,1
    0x00b5_0533, // add x10,x10,x11
    0x0030_0613, // addi x12,x0,3
    0x0e20_0893, // addi x17,x0,226
    0x0000_0073, // ecall
    0x007d_1537, // lui x10,2001
    0xf005_0513, // addi x10,x10,-256
    0x0000_25b7, // lui x11,2
    0x00b9_05b3, // add x11,x18,x11
    0x4044_8613, // addi x12,x9,1028
    0x0000_0693, // addi x13,x0,0
    0x4084_8713, // addi x14,x9,1032
    0x0dc0_0893, // addi x17,x0,220
    0x0000_0073, // ecall
    0x0405_0c63, // beq x10,x0,child
    0x40c4_8513, // addi x10,x9,1036
    0x0800_0593, // addi x11,x0,128
    0x0000_0613, // addi x12,x0,0
    0x1a60_0893, // addi x17,x0,422
    0x0000_0073, // ecall
    0x40c4_a383, // lw x7,1036(x9)
    0x0010_0513, // addi x10,x0,1
    0x01d0_0893, // addi x17,x0,29
    0x0000_0073, // ecall
    0x4104_8393, // addi x7,x9,1040
    0x4274_a023, // sw x7,1056(x9)
    0x0030_0393, // addi x7,x0,3
    0x4274_a223, // sw x7,1060(x9)
    0x0010_0513, // addi x10,x0,1
    0x4204_8593, // addi x11,x9,1056
    0x0010_0613, // addi x12,x0,1
    0x0420_0893, // addi x17,x0,66
    0x0000_0073, // ecall
    0x0000_0513, // addi x10,x0,0
    0x05e0_0893, // addi x17,x0,94
    0x0000_0073, // ecall
    0x000a_73b7, // child: lui x7,167
    0xb6f3_8393, // addi x7,x7,-1169
    0x4074_a823, // sw x7,1040(x9)
    0x0010_0393, // addi x7,x0,1
    0x4074_a623, // sw x7,1036(x9)
    0x40c4_8513, // addi x10,x9,1036
    0x0810_0593, // addi x11,x0,129
    0x0010_0613, // addi x12,x0,1
    0x1a60_0893, // addi x17,x0,422
    0x0000_0073, // ecall
    0x0000_0513, // addi x10,x0,0
    0x05d0_0893, // addi x17,x0,93
    0x0000_0073, // ecall
];

/// Writes a text to its output and another to its error output, in turns, three times and two times.
pub(crate) const OUTPUTS_IN_TURNS: &[u32] = &[
    0x0001_05b7, // lui x11,16
    0x0a85_8593, // addi x11,x11,168
    0x0040_0613, // addi x12,x0,4
    0x0400_0893, // addi x17,x0,64
    0x0010_0513, // addi x10,x0,1
    0x0000_0073, // ecall
    0x0020_0513, // addi x10,x0,2
    0x0045_8593, // addi x11,x11,4
    0x0000_0073, // ecall
    0x0010_0513, // addi x10,x0,1
    0xffc5_8593, // addi x11,x11,-4
    0x0000_0073, // ecall
    0x0020_0513, // addi x10,x0,2
    0x0045_8593, // addi x11,x11,4
    0x0000_0073, // ecall
    0x0010_0513, // addi x10,x0,1
    0xffc5_8593, // addi x11,x11,-4
    0x0000_0073, // ecall
    0x0000_0513, // addi x10,x0,0
    0x05d0_0893, // addi x17,x0,93
    0x0000_0073, // ecall
    0x0a74_756f, // "out\n"
    0x0a72_7265, // "err\n"
];
