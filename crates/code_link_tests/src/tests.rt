use code_link::*;
use op_words::Insn;
use std::test::Fail;

#[test]
fn jumps_reach_their_labels(rt: HostRuntime) -> Result<(), Fail> {
    let items = vec![in rt.alloc();
        // Back to the first word, over instructions of two words.
        Item::Label(9),
        Item::Insn(Insn::GetGlobal { to: 0, constant: 5 }),
        // On to the label behind the jump back.
        Item::Branch(Insn::JumpIfNotLt { left: 1, by: 0, right: 2 }, 4),
        Item::Branch(Insn::JumpBack { by: 77 }, 9),
        // Two labels of one place.
        Item::Label(4),
        Item::Label(3),
        // To itself.
        Item::Branch(Insn::Jump { by: 0 }, 3),
        // On, over an instruction of two words, to the end of the code.
        Item::Branch(Insn::Jump { by: 0 }, 1000000),
        Item::Branch(Insn::JumpIfEq { left: 0, by: 0, right: 0 }, 4),
        Item::Insn(Insn::Return { base: 0, values: 1 }),
        Item::Label(1000000)
    ]?;
    let linked = link(rt.alloc(), Labelled { items })?;
    let words = [
        0x0000_0006,
        5,
        0x0002_011F,
        2,
        0xFFFB_0017,
        0xFFFF_0016,
        0x0003_0016,
        0xFFFD_001A,
        0,
        0x0001_0015,
    ];
    assert_eq!(rt; linked.code.as_slice(), words.as_slice());
    Ok(())
}

#[test]
fn nothing(rt: HostRuntime) -> Result<(), Fail> {
    let linked = link(
        rt.alloc(),
        Labelled {
            items: Vec::new(rt.alloc()),
        },
    )?;
    assert!(rt; linked.code.is_empty());
    Ok(())
}
