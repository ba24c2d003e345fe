use op_words::*;

// Each instruction beside its words.
const TABLE: [(Insn, u32, Option<u32>); 45] = [
    (Insn::LoadN { to: 1, value: -2 }, 0xFFFE_0103, None),
    (
        Insn::LoadN {
            to: 255,
            value: 32767,
        },
        0x7FFF_FF03,
        None,
    ),
    (Insn::LoadK { to: 2, constant: 5 }, 0x0005_0204, None),
    (Insn::Move { to: 7, from: 9 }, 0x0009_0705, None),
    (
        Insn::GetGlobal {
            to: 8,
            constant: 1000,
        },
        0x0000_0806,
        Some(1000),
    ),
    (
        Insn::Call {
            base: 4,
            arguments: 2,
            results: 1,
        },
        0x0102_0414,
        None,
    ),
    (Insn::Return { base: 0, values: 1 }, 0x0001_0015, None),
    (Insn::Jump { by: 3 }, 0x0003_0016, None),
    (Insn::JumpBack { by: -5 }, 0xFFFB_0017, None),
    (
        Insn::JumpIfEq {
            left: 1,
            by: 2,
            right: 3,
        },
        0x0002_011A,
        Some(3),
    ),
    (
        Insn::JumpIfLe {
            left: 1,
            by: -1,
            right: 3,
        },
        0xFFFF_011B,
        Some(3),
    ),
    (
        Insn::JumpIfLt {
            left: 1,
            by: -32768,
            right: 3,
        },
        0x8000_011C,
        Some(3),
    ),
    (
        Insn::JumpIfNotEq {
            left: 1,
            by: 2,
            right: 250,
        },
        0x0002_011D,
        Some(250),
    ),
    (
        Insn::JumpIfNotLe {
            left: 1,
            by: 2,
            right: 3,
        },
        0x0002_011E,
        Some(3),
    ),
    (
        Insn::JumpIfNotLt {
            left: 1,
            by: 2,
            right: 3,
        },
        0x0002_011F,
        Some(3),
    ),
    (
        Insn::Add {
            to: 3,
            left: 1,
            right: 2,
        },
        0x0201_0320,
        None,
    ),
    (
        Insn::Sub {
            to: 3,
            left: 1,
            right: 2,
        },
        0x0201_0321,
        None,
    ),
    (
        Insn::Mul {
            to: 3,
            left: 1,
            right: 2,
        },
        0x0201_0322,
        None,
    ),
    (Insn::PrepVarargs { parameters: 0 }, 0x0000_003F, None),
    (Insn::PrepVarargs { parameters: 2 }, 0x0000_023F, None),
    (Insn::Nop { turns: 1 }, 0x0000_0100, None),
    (Insn::LoadNil { to: 4 }, 0x0000_0401, None),
    (
        Insn::LoadB {
            to: 4,
            value: 1,
            skip: 2,
        },
        0x0201_0402,
        None,
    ),
    (
        Insn::GetUpvalue {
            to: 3,
            upvalue: 199,
        },
        0x00C7_0308,
        None,
    ),
    (
        Insn::GetImport {
            to: 3,
            constant: 6,
            path: 0x8000_0001,
        },
        0x0006_030B,
        Some(0x8000_0001),
    ),
    (
        Insn::SetTable {
            from: 1,
            table: 2,
            key: 3,
        },
        0x0302_010D,
        None,
    ),
    (
        Insn::GetTableKS {
            to: 1,
            table: 2,
            constant: 70_000,
        },
        0x0002_010E,
        Some(0x0001_1170),
    ),
    (
        Insn::SetTableN {
            from: 1,
            table: 2,
            index: 255,
        },
        0xFF02_0111,
        None,
    ),
    (
        Insn::NameCall {
            base: 9,
            object: 8,
            constant: 7,
        },
        0x0008_0913,
        Some(7),
    ),
    (Insn::JumpIfNot { value: 5, by: -6 }, 0xFFFA_0519, None),
    (
        Insn::Idiv {
            to: 3,
            left: 1,
            right: 2,
        },
        0x0201_0326,
        None,
    ),
    (
        Insn::AddK {
            to: 3,
            left: 1,
            constant: 2,
        },
        0x0201_0327,
        None,
    ),
    (
        Insn::DivRK {
            to: 3,
            constant: 1,
            right: 2,
        },
        0x0201_032F,
        None,
    ),
    (
        Insn::Concat {
            to: 3,
            first: 4,
            last: 9,
        },
        0x0904_0334,
        None,
    ),
    (Insn::Length { to: 3, operand: 4 }, 0x0004_0337, None),
    (Insn::NewTable { to: 3 }, 0x0000_0338, Some(0)),
    (
        Insn::SetList {
            table: 3,
            from: 4,
            count: 0,
            key: 51,
        },
        0x0004_0339,
        Some(51),
    ),
    (
        Insn::ForGLoop {
            base: 3,
            by: -9,
            variables: 2,
        },
        0xFFF7_033D,
        Some(2),
    ),
    (Insn::Capture { kind: 2, from: 4 }, 0x0004_0240, None),
    (
        Insn::FastCall {
            builtin: 11,
            skip: 3,
        },
        0x0300_0B41,
        None,
    ),
    (
        Insn::FastCall2K {
            builtin: 11,
            first: 1,
            skip: 3,
            constant: 4,
        },
        0x0301_0B44,
        Some(4),
    ),
    (Insn::JumpX { by: -8_388_608 }, 0x8000_0045, None),
    (Insn::JumpX { by: 8_388_607 }, 0x7FFF_FF45, None),
    (Insn::JumpX { by: -2 }, 0xFFFF_FE45, None),
    (
        Insn::JumpXEqKS {
            value: 3,
            by: 4,
            test: 0x8000_0005,
        },
        0x0004_034A,
        Some(0x8000_0005),
    ),
];

#[test]
fn each_instruction(rt: HostRuntime) {
    for (insn, first, aux) in &TABLE {
        let words = encode(insn);
        assert_eq!(rt; words.first, *first, "first word of {insn:?}");
        assert_eq!(rt; words.aux, *aux, "second word of {insn:?}");
        // A word stands in front, and one behind that is no part of it.
        let code = [0x0000_0016, *first, aux.unwrap_or(0x16), 0x16];
        let next = if aux.is_some() { 3 } else { 2 };
        assert_eq!(rt; decode(&code, 1), Some((*insn, next)), "reading {insn:?}");
    }
}

#[test]
fn no_instruction(rt: HostRuntime) {
    // Opcodes that are not in use, and fields that their instructions do not name.
    let words = [
        0x0000_004B,
        0x0000_00FF,
        0x0109_0705,
        0x0001_0806,
        0x0100_0806,
        0x0101_0015,
        0x0003_0116,
        0x0003_0117,
        0x0001_003F,
        0x0100_003F,
        0x0001_0001,
        0x0100_0008,
        0x0100_000E,
        0x0001_0341,
        0x0001_0338,
    ];
    for word in &words {
        assert_eq!(rt; decode(&[*word, 0], 0), None, "at {word:#x}");
    }
    // A second word that is missing.
    for word in [
        0x0000_0806,
        0x0002_011A,
        0x0002_011F,
        0x0000_0338,
        0x0004_034A,
    ] {
        assert_eq!(rt; decode(&[word], 0), None, "at {word:#x}");
    }
    // A second word that is always 0.
    assert_eq!(rt; decode(&[0x0000_0338, 1], 0), None);
    // Past the end.
    assert_eq!(rt; decode(&[0x16], 1), None);
    assert_eq!(rt; decode(&[], usize::MAX), None);
}
