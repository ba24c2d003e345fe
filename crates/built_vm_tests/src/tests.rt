use built_machine::{Code, Constant};
use built_values::End;
use built_vm::{Ran, run};
use byte_text::StrId;
use std::alloc::Global;
use std::test::Fail;
use whole_num::{Stop, Whole};

// Runs words, with a number as constant 0 and `print` as constant 1.
fn ran(alloc: Global, words: &[u32], number: i64, turns: u32) -> Result<Ran, Fail> {
    let number = Whole::new(number).ok_or("out of range")?;
    let code = Code {
        words: words.to_vec(alloc)?,
        constants: [Constant::Number(number), Constant::Text(StrId::PRINT)].to_vec(alloc)?,
    };
    Ok(run(alloc, &code, turns)?)
}

#[test]
fn prints_two_numbers(rt: HostRuntime) -> Result<(), Fail> {
    let words = [
        0x0000_003F,
        // 2, and constant 0
        0x0002_0003,
        0x0000_0104,
        // print(2 + 40)
        0x0000_0206,
        1,
        0x0100_0320,
        0x0102_0214,
        // print(2 - 40), by way of register 9
        0x0000_0206,
        1,
        0x0100_0921,
        0x0009_0305,
        0x0102_0214,
        0x0001_0015,
    ];
    let ran = ran(rt.alloc(), &words, 40, 0)?;
    assert_eq!(rt; ran.output.as_slice(), b"42\n-38\n".as_slice());
    assert!(rt; matches!(ran.end, End::Ended));
    Ok(())
}

#[test]
fn stops_out_of_range(rt: HostRuntime) -> Result<(), Fail> {
    let words = [
        0x0000_003F,
        0x0000_0004,
        // print of constant 0, then its double
        0x0000_0206,
        1,
        0x0000_0305,
        0x0102_0214,
        0x0000_0320,
        0x0001_0015,
    ];
    let ran = ran(rt.alloc(), &words, 9_007_199_254_740_992, 0)?;
    assert_eq!(rt; ran.output.as_slice(), b"9007199254740992\n".as_slice());
    assert!(rt; matches!(ran.end, End::Stopped(Stop::OutOfRange)));
    Ok(())
}

// local n = 0 while n < 2 do print(n) n = n + 1 end
#[test]
fn counts_its_turns(rt: HostRuntime) -> Result<(), Fail> {
    let words = [
        0x0000_003F,
        0x0000_0003,
        // to the end where n is not below 2
        0x0002_0103,
        0x0008_001F,
        1,
        0x0000_0106,
        1,
        0x0000_0205,
        0x0102_0114,
        0x0001_0103,
        0x0100_0020,
        0xFFF6_0017,
        0x0001_0015,
    ];
    for (turns, output, ended) in &[
        (0, "0\n", false),
        (1, "0\n1\n", false),
        (2, "0\n1\n", true),
        (3, "0\n1\n", true),
    ] {
        let ran = ran(rt.alloc(), &words, 0, *turns)?;
        assert_eq!(rt; ran.output.as_slice(), output.as_bytes(), "{turns} turns");
        assert_eq!(rt; matches!(ran.end, End::Ended), *ended, "{turns} turns");
        assert_eq!(rt;
            matches!(ran.end, End::Unfinished),
            !*ended,
            "{turns} turns"
        );
    }
    Ok(())
}

// Each comparison of two numbers that chooses a return of nothing, or to be stuck.
#[test]
fn compares(rt: HostRuntime) -> Result<(), Fail> {
    for (opcode, less, equal, greater) in &[
        (0x1A, false, true, false),
        (0x1B, true, true, false),
        (0x1C, true, false, false),
        (0x1D, true, false, true),
        (0x1E, false, false, true),
        (0x1F, false, true, true),
    ] {
        for (left, jumps) in &[
            (0x0001_0003, *less),
            (0x0002_0003, *equal),
            (0x0003_0003, *greater),
        ] {
            let words = [
                *left,
                0x0002_0103,
                0x0002_0000 | *opcode,
                1,
                0xFFFF_FFFF,
                0x0001_0015,
            ];
            let ran = ran(rt.alloc(), &words, 0, 0)?;
            assert_eq!(rt; matches!(ran.end, End::Ended), *jumps, "{opcode} at {left}");
        }
    }
    Ok(())
}

#[test]
fn is_stuck(rt: HostRuntime) -> Result<(), Fail> {
    let codes: [&[u32]; 7] = [
        // nothing, and no instruction
        &[],
        &[0xFFFF_FFFF],
        // a jump back that charges nothing
        &[0xFFFF_0016],
        // a comparison with a register that no code can write, and which holds nil
        &[0x0001_001A, 256, 0x0001_0015],
        // a call of a number
        &[0x0001_0003, 0x0102_0014],
        // a charged jump before the first word
        &[0xFFFE_0017],
        // a jump past the end
        &[0x7FFF_0016, 0x0001_0015],
    ];
    for words in &codes {
        let ran = ran(rt.alloc(), words, 0, 0)?;
        assert!(rt; ran.output.is_empty());
        assert!(rt; matches!(ran.end, End::Stuck));
    }
    Ok(())
}
