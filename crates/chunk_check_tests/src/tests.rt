use byte_text::Bytes;
use chunk_check::{CheckErr, check};
use op_words::{Chunk, Const, Proto};
use std::alloc::{AllocError, Global};
use whole_num::Whole;

// Code of the main function of `example`, the place of its first fault, and the rule that is broken there. The words 0x3F at its
// beginning and 0x10015 at its end prepare the arguments and return. A word has its opcode in the lowest byte, and then A, B and C.
const BROKEN: [(&[u32], usize, u8); 93] = [
    // An opcode that there is not.
    (&[0x3F, 0x4B, 0x10015], 1, 1),
    // An unnamed field that is not 0.
    (&[0x3F, 0x10001, 0x10015], 1, 1),
    // A second word that is missing.
    (&[0x3F, 6], 1, 1),
    // A second word that is not 0.
    (&[0x3F, 0x38, 1, 0x10015], 1, 1),
    // NOP of two turns, and of less than none.
    (&[0x3F, 0x200, 0x10015], 1, 1),
    (&[0x3F, 0xFFFFFF00, 0x10015], 1, 1),
    // A fourth kind of capture.
    (&[0x3F, 0x340, 0x10015], 1, 1),
    // Registers that there are not, one by one.
    (&[0x3F, 0x501, 0x10015], 1, 2),
    (&[0x3F, 0x50005, 0x10015], 1, 2),
    (&[0x3F, 0x5000020, 0x10015], 1, 2),
    (&[0x3F, 0x413, 0, 0x10015], 1, 2),
    (&[0x3F, 0x1001A, 5, 0x10015], 1, 2),
    (&[0x3F, 0x1050142, 5, 0x1020014, 0x10015], 1, 2),
    (&[0x3F, 0x1000143, 5, 5, 0x1030014, 0x10015], 1, 2),
    (&[0x3F, 0x50040, 0x10015], 1, 2),
    // Ranges of registers that end behind the last one.
    (&[0x3F, 0x1060014, 0x10015], 1, 2),
    (&[0x3F, 0x7010014, 0x10015], 1, 2),
    (&[0x3F, 0x70015, 0x10015], 1, 2),
    (&[0x3F, 0x3043E, 0x10015], 1, 2),
    (&[0x3F, 0x6010039, 1, 0x10015], 1, 2),
    (&[0x3F, 0x33A, 0x10015], 1, 2),
    (&[0x3F, 0xFFFF003D, 3, 0x10015], 1, 2),
    // Nothing to join, and a loop that asks for no value.
    (&[0x3F, 0x2020034, 0x10015], 1, 2),
    (&[0x3F, 0xFFFF003D, 0, 0x10015], 1, 2),
    // Constants that there are not.
    (&[0x3F, 0x90004, 0x10015], 1, 3),
    (&[0x3F, 0xFFFF0004, 0x10015], 1, 3),
    (&[0x3F, 0x46, 9, 0x10015], 1, 3),
    (&[0x3F, 0x9000027, 0x10015], 1, 3),
    (&[0x3F, 0x9002E, 0x10015], 1, 3),
    (&[0x3F, 0x1000144, 9, 5, 0x1030014, 0x10015], 1, 3),
    // Constants of another kind: an import, a name that is a number, a number that is a name.
    (&[0x3F, 0x20004, 0x10015], 1, 3),
    (&[0x3F, 6, 1, 0x10015], 1, 3),
    (&[0x3F, 0xE, 1, 0x10015], 1, 3),
    (&[0x3F, 0x13, 3, 0x10015], 1, 3),
    (&[0x3F, 0x49, 0, 0x10015], 1, 3),
    (&[0x3F, 0x4A, 1, 0x10015], 1, 3),
    // An import that is a name, and one of another path.
    (&[0x3F, 0xB, 0x40000000, 0x10015], 1, 3),
    (&[0x3F, 0x2000B, 0x40000001, 0x10015], 1, 3),
    // Upvalues that there are not.
    (&[0x3F, 8, 0x10015], 1, 4),
    (&[0x3F, 9, 0x10015], 1, 4),
    (&[0x3F, 0x12, 0x240, 0x10015], 2, 4),
    // Children that there are not.
    (&[0x3F, 0x10012, 0x10015], 1, 5),
    (&[0x3F, 0xFFFF0012, 0x10015], 1, 5),
    // A jump to a second word, behind the code, before it, and to the first place.
    (&[0x3F, 0x10016, 6, 0, 0x10015], 1, 6),
    (&[0x3F, 0x90016, 0x10015], 1, 6),
    (&[0x3F, 0xFFF70017], 1, 6),
    (&[0x3F, 0xFFFE0017], 1, 6),
    (&[0x3F, 0x145, 6, 0, 0x10015], 1, 6),
    (&[0x3F, 0x1010002, 6, 0, 0x10015], 1, 6),
    // A jump to a capture, to the move behind a fast call, to its call, and to what reads a list without an end.
    (&[0x3F, 0x10016, 0x12, 0x40, 0x10015], 1, 6),
    (&[0x3F, 0x10016, 0x1010142, 5, 0x1020014, 0x10015], 1, 6),
    (&[0x3F, 0x20016, 0x1010142, 5, 0x1020014, 0x10015], 1, 6),
    (&[0x3F, 0x10016, 0x3E, 0x15], 1, 6),
    // A jump back that is none of the three, to its own place too, and one of the three that goes on.
    (&[0x3F, 0, 0xFFFE0016, 0x10015], 2, 7),
    (&[0x3F, 0xFFFF0016, 0x10015], 1, 7),
    (&[0x3F, 0x17, 0x10015], 1, 7),
    (&[0x3F, 0x3B, 0x10015], 1, 7),
    (&[0x3F, 0x1003D, 1, 0x10015], 1, 7),
    // The beginning of a loop that leads to no end of one, or to another's.
    (&[0x3F, 0x3C, 0x10015], 1, 7),
    (&[0x3F, 0x3C, 0xFFFF013D, 1, 0x10015], 1, 7),
    (&[0x3F, 0x3A, 0x10015], 1, 7),
    (&[0x3F, 0x1003A, 0xFFFF013B, 0x10015], 1, 7),
    (&[0x3F, 0x3A, 0xFFFF003B, 0x10015], 1, 7),
    // A closure with too few captures or too many, and captures that stand elsewhere.
    (&[0x3F, 0x12, 0x10015], 1, 8),
    (&[0x3F, 0x12, 0x40, 0x40, 0x10015], 1, 8),
    (&[0x3F, 0x40, 0x10015], 1, 8),
    (&[0x3F, 0x12, 0x40, 1, 0x40, 0x10015], 4, 8),
    // A fast call with no move, another register's move, no call, another register's call, or a call that is not at its place.
    (&[0x3F, 0x1010142, 0x1020014, 0x10015], 1, 8),
    (&[0x3F, 0x1010142, 0x10005, 0x1020014, 0x10015], 1, 8),
    (&[0x3F, 0x1010142, 5, 0x10015], 1, 8),
    (&[0x3F, 0x1010142, 5, 0x1020114, 0x10015], 1, 8),
    (&[0x3F, 0x2000141, 5, 0x1020014, 0x10015], 1, 8),
    (&[0x3F, 0x1010143, 2, 5, 0x1030014, 0x10015], 1, 8),
    // Library functions that there are not.
    (&[0x3F, 0x1000041, 5, 0x1020014, 0x10015], 1, 8),
    (&[0x3F, 0x1001241, 5, 0x1020014, 0x10015], 1, 8),
    // A list without an end that is not read, or from too low a register.
    (&[0x3F, 0x3E, 0x10015], 1, 9),
    (&[0x3F, 0x10014, 0x10015], 1, 9),
    (&[0x3F, 0x3E, 0x115], 1, 9),
    (&[0x3F, 0x13E, 0x1000114, 0x10015], 1, 9),
    // What reads a list that is not set.
    (&[0x3F, 0x1000014, 0x10015], 1, 9),
    (&[0x3F, 0x10039, 1, 0x10015], 1, 9),
    (&[0x3F, 0x15], 1, 9),
    (&[0x3F, 0x1000141, 5, 0x1000014, 0x10015], 3, 9),
    // Code that goes on behind its end.
    (&[0x3F, 1], 1, 10),
    (&[0x3F, 0xFFFE0016], 1, 6),
    // No code.
    (&[], 0, 10),
    // The preparation of the arguments that is missing, stands twice, or is of other parameters.
    (&[0x10015], 0, 11),
    (&[0x3F, 0x3F, 0x10015], 0, 11),
    (&[0x13F, 0x10015], 0, 11),
    // Of two faults the first by place, and at one place the one of the lower rule.
    (&[0x3F, 0x90004, 0x501, 0x10015], 1, 3),
    (&[0x3F, 0x90504, 0x10015], 1, 2),
    (&[0x3F, 0x90016, 0x90240, 0x10015], 1, 6),
    (&[0x501, 0x10015], 0, 2),
];

// Code of the main function with which `example` is well formed.
const WHOLE: [&[u32]; 9] = [
    // The empty script.
    &[0x3F, 0x10015],
    // A jump back to its own place.
    &[0x3F, 0xFFFF0017],
    // NOP of one turn and of none, and the last of each kind of field.
    &[0x3F, 0x100, 0, 0x40405, 0x6050014, 0x3033E, 0x60015],
    // No register at all may begin behind the last one.
    &[0x3F, 0x1053E, 0x10515],
    // Constants of each kind.
    &[
        0x3F, 0x30004, 6, 0, 0x2000B, 0x40000000, 0x10049, 0x80000001, 0x1004A, 0, 0x10015,
    ],
    // A closure with its capture.
    &[0x3F, 0x12, 0x40140, 0x10015],
    // Loops.
    &[
        0x3F, 0x1003C, 0x401, 0xFFFE003D, 2, 0x1003A, 0xFFFF003B, 0x10015,
    ],
    // Fast calls.
    &[
        0x3F, 0x1010142, 5, 0x1020014, 0x2011143, 2, 5, 0x1030014, 0x10015,
    ],
    // Lists without an end, past a fast call and its move too.
    &[
        0x3F, 0x23E, 0x114, 0x1000141, 5, 0x1000014, 0x23E, 0x20039, 1, 0x10314, 0x315,
    ],
];

// A constant beside those of `example` that is no sound one.
const UNSOUND: [Const; 8] = [
    Const::Str(1),
    // No name, one that there is not, and one that is no string.
    Const::Import(0),
    Const::Import(0x4090_0000),
    Const::Import(0x4010_0000),
    Const::Import(0x8000_0400),
    Const::Import(0xC000_0001),
    // Spare indices that are not 0.
    Const::Import(0x4000_0400),
    Const::Import(0x8000_0001),
];

// Registers, parameters, whether it takes any number of arguments, and code, with which a function that is a child breaks rule 11.
const CHILDREN: [(u8, u8, bool, &[u32]); 7] = [
    (0, 0, false, &[0x10015]),
    (251, 0, false, &[0x10015]),
    (2, 3, false, &[0x10015]),
    (2, 1, true, &[0x10015]),
    (2, 1, true, &[0x3F, 0x10015]),
    (2, 1, true, &[0x13F, 0x13F, 0x10015]),
    (2, 1, false, &[0x13F, 0x10015]),
];

// Those with which it is well formed.
const SOUND_CHILDREN: [(u8, u8, bool, &[u32]); 3] = [
    (1, 0, false, &[0x10015]),
    (250, 250, false, &[0x10015]),
    (2, 1, true, &[0x13F, 0x10015]),
];

// The number of the main function, and its parameters, upvalues and code, and whether it takes any number of arguments, with
// which it breaks rule 11.
const MAINS: [(u32, u8, u8, bool, &[u32]); 5] = [
    (2, 0, 0, true, &[0x3F, 0x10015]),
    (0, 0, 0, true, &[0x3F, 0x10015]),
    (1, 1, 0, true, &[0x13F, 0x10015]),
    (1, 0, 1, true, &[0x3F, 0x10015]),
    (1, 0, 0, false, &[0x10015]),
];

// A string, a child with an upvalue that takes a parameter, and a main function with a constant of each kind and this code.
fn example(alloc: Global, code: &[u32]) -> Result<Chunk, AllocError> {
    let mut strings = Vec::new(alloc);
    strings.push(Bytes::from_slice(alloc, b"print").map_err(|_| AllocError)?)?;
    let protos = vec![in alloc;
        Proto {
            registers: 2,
            params: 1,
            upvalues: 1,
            vararg: false,
            // It jumps back to its first place, for ever.
            code: vec![in alloc; 0x8, 0xFFFE_0017]?,
            consts: Vec::new(alloc),
            children: Vec::new(alloc),
        },
        Proto {
            registers: 5,
            params: 0,
            upvalues: 0,
            vararg: true,
            code: copied(alloc, code)?,
            consts: constants(alloc)?,
            children: vec![in alloc; 0]?,
        },
    ]?;
    Ok(Chunk {
        strings,
        protos,
        main: 1,
    })
}

fn copied(alloc: Global, code: &[u32]) -> Result<Vec<u32>, AllocError> {
    let mut words = Vec::new(alloc);
    words.extend_from_slice(code)?;
    Ok(words)
}

fn constants(alloc: Global) -> Result<Vec<Const>, AllocError> {
    let mut constants = Vec::new(alloc);
    constants.push(Const::Str(0))?;
    constants.push(Whole::new(7).map_or(Const::Nil, Const::Num))?;
    constants.push(Const::Import(0x4000_0000))?;
    constants.push(Const::Nil)?;
    Ok(constants)
}

// `example` with another child.
fn with_child(
    alloc: Global,
    registers: u8,
    params: u8,
    vararg: bool,
    code: &[u32],
) -> Result<Chunk, AllocError> {
    let mut chunk = example(alloc, &[0x3F, 0x10015])?;
    let code = copied(alloc, code)?;
    if let Some(child) = chunk.protos.first_mut() {
        child.registers = registers;
        child.params = params;
        child.vararg = vararg;
        child.code = code;
    }
    Ok(chunk)
}

// `example` with another main function.
fn with_main(
    alloc: Global,
    main: u32,
    params: u8,
    upvalues: u8,
    vararg: bool,
    code: &[u32],
) -> Result<Chunk, AllocError> {
    let mut chunk = example(alloc, code)?;
    chunk.main = main;
    if let Some(proto) = chunk.protos.last_mut() {
        proto.params = params;
        proto.upvalues = upvalues;
        proto.vararg = vararg;
    }
    Ok(chunk)
}

// `example` with one more constant and one more child.
fn with_more(alloc: Global, constant: Const, child: u32) -> Result<Chunk, AllocError> {
    let mut chunk = example(alloc, &[0x3F, 0x10015])?;
    if let Some(proto) = chunk.protos.last_mut() {
        proto.consts.push(constant)?;
        proto.children.push(child)?;
    }
    Ok(chunk)
}

// The main function of `example` alone.
fn alone(alloc: Global, code: &[u32]) -> Result<Chunk, AllocError> {
    let mut chunk = example(alloc, code)?;
    let Some(mut main) = chunk.protos.pop() else {
        return Ok(chunk);
    };
    main.children.clear();
    chunk.protos.clear();
    chunk.protos.push(main)?;
    chunk.main = 0;
    Ok(chunk)
}

fn fault(proto: usize, place: usize, rule: u8) -> Option<CheckErr> {
    Some(CheckErr::BadCode { proto, place, rule })
}

#[test]
fn each_rule_of_an_instruction(rt: HostRuntime) {
    for (code, place, rule) in &BROKEN {
        let chunk = example(rt.alloc(), code).expect(&rt, "memory");
        assert_eq!(rt; check(rt.alloc(), chunk).err(), fault(1, *place, *rule));
    }
    for code in &WHOLE {
        let chunk = example(rt.alloc(), code).expect(&rt, "memory");
        let checked = check(rt.alloc(), chunk).expect(&rt, "well formed");
        assert_eq!(rt; checked.chunk().main, 1);
    }
}

#[test]
fn each_rule_of_a_function(rt: HostRuntime) {
    for constant in &UNSOUND {
        let chunk = with_more(rt.alloc(), *constant, 0).expect(&rt, "memory");
        assert_eq!(rt; check(rt.alloc(), chunk).err(), fault(1, 0, 3));
    }
    let own_child = with_more(rt.alloc(), Const::Nil, 1).expect(&rt, "memory");
    assert_eq!(rt; check(rt.alloc(), own_child).err(), fault(1, 0, 11));
    for (registers, params, vararg, code) in &CHILDREN {
        let chunk = with_child(rt.alloc(), *registers, *params, *vararg, code).expect(
            &rt, "memory",
        );
        assert_eq!(rt; check(rt.alloc(), chunk).err(), fault(0, 0, 11));
    }
    for (registers, params, vararg, code) in &SOUND_CHILDREN {
        let chunk = with_child(rt.alloc(), *registers, *params, *vararg, code).expect(
            &rt, "memory",
        );
        assert_eq!(rt; check(rt.alloc(), chunk).err(), None);
    }
    for (main, params, upvalues, vararg, code) in &MAINS {
        let chunk = with_main(rt.alloc(), *main, *params, *upvalues, *vararg, code).expect(
            &rt, "memory",
        );
        assert_eq!(rt; check(rt.alloc(), chunk).err(), fault(0, 0, 11));
    }
}

// A jump to the second word of an instruction, in the main function alone, and with another fault in a function before it.
#[test]
fn the_first_fault(rt: HostRuntime) {
    let code = &[0x3F, 0x10016, 0x6, 0, 0x6, 0, 0x10015];
    let chunk = alone(rt.alloc(), code).expect(&rt, "memory");
    let error = check(rt.alloc(), chunk).err();
    assert_eq!(rt; error, fault(0, 1, 6));
    assert_eq!(rt; error.and_then(CheckErr::number), Some(35));
    assert_eq!(rt; error.and_then(CheckErr::rule_name), Some("Jump"));
    let mut both = example(rt.alloc(), code).expect(&rt, "memory");
    if let Some(child) = both.protos.first_mut() {
        child.consts.push(Const::Str(1)).expect(&rt, "memory");
        child.params = 3;
    }
    both.main = 2;
    assert_eq!(rt; check(rt.alloc(), both).err(), fault(0, 0, 3));
}
