use reg_alloc::Regs;
use std::test::Fail;

#[test]
fn registers_in_use(rt: HostRuntime) -> Result<(), Fail> {
    let mut regs = Regs::new(4);
    assert_eq!(rt; regs.mark(), 0);
    assert_eq!(rt; regs.take(1), 0);
    assert_eq!(rt; regs.take(3), 1);
    assert_eq!(rt; regs.mark(), 4);
    regs.free_to(2);
    assert_eq!(rt; regs.take(0), 2);
    assert_eq!(rt; regs.take(2), 2);
    Ok(())
}
