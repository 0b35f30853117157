// The signs of a code that is lent, and copies of them.
use code::{Ascii, Code, Ebcdic};
use signs::read_signs;
use std::test::Fail;

// Two signs of a code that is lent, one of them read from a copy.
fn brackets<C: Code>(code: &C) -> [u8; 2] {
    let signs = read_signs(code);
    let copied = signs;
    [signs.less, copied.greater]
}

#[test]
fn a_code_that_is_lent_has_its_signs(rt: HostRuntime) -> Result<(), Fail> {
    assert_eq!(rt; brackets(&Ascii), [0x3C, 0x3E]);
    assert_eq!(rt; brackets(&Ebcdic), [0x4C, 0x6E]);
    Ok(())
}
