// A dictionary at its limits: names, bytes of the store and classes; and strings that others stand beside.
use crate::{Stored, in_ebcdic};
use code::{Ascii, Code, Ebcdic};
use dictionary::Needs;
use machine::{ArithmeticFunction, BuiltIn, ComparisonFunction};
use std::alloc::Global;
use std::process::Abort;
use std::test::Fail;

fn fill_names<C: Code + Drop>(rt: &impl Abort, heap: Global, code: C) -> Result<(), Fail> {
    let mut stored = Stored::new(heap, code, 128, 1024)?;
    for name in 0..128u8 {
        assert!(rt; stored.define(&[name], b"ab"));
    }
    let needs = Needs {
        names: 129,
        bytes: 385,
    };
    assert_eq!(rt; stored.needs(&[200], 0), needs);
    assert!(rt; !stored.define(&[200], b""));
    assert!(rt; stored.define(&[7], b"c"));
    assert_eq!(rt; stored.bytes(), 383);
    stored.erase(&[64]);
    assert_eq!(rt; stored.names(), 127);
    assert!(rt; stored.define(&[200], b""));
    assert_eq!(rt; stored.names(), 128);
    assert_eq!(rt; stored.bytes(), 381);
    assert!(rt; stored.body_is(&[127], b"ab"));
    assert!(rt; stored.body_is(&[7], b"c"));
    assert!(rt; stored.body(&[64]).is_none());
    Ok(())
}

#[test]
fn names_fill_a_dictionary(rt: HostRuntime) -> Result<(), Fail> {
    fill_names(&rt, rt.alloc(), Ascii)?;
    fill_names(&rt, rt.alloc(), Ebcdic)
}

#[test]
fn a_body_fills_the_store(rt: HostRuntime) -> Result<(), Fail> {
    let mut stored = Stored::new(rt.alloc(), Ascii, 128, 32_768)?;
    let body = vec![in rt.alloc(); b'x'; 32_767]?;
    let longer = vec![in rt.alloc(); b'y'; 32_768]?;
    let needs = Needs {
        names: 1,
        bytes: 32_769,
    };
    assert_eq!(rt; stored.needs(b"A", longer.len()), needs);
    assert!(rt; !stored.define(b"A", longer.as_slice()));
    assert!(rt; stored.define(b"A", body.as_slice()));
    assert!(rt; !stored.define(b"A", longer.as_slice()));
    assert!(rt; !stored.define(b"B", b""));
    assert!(rt; !stored.append(b"A", b"x"));
    assert!(rt; stored.define(b"", b""));
    assert!(rt; stored.body_is(b"A", body.as_slice()));
    assert_eq!(rt; stored.bytes(), 32_768);
    stored.erase(b"A");
    assert_eq!(rt; stored.bytes(), 0);
    assert!(rt; stored.define(b"", longer.as_slice()));
    assert!(rt; stored.body_is(b"", longer.as_slice()));
    Ok(())
}

#[test]
fn nothing_fits_a_limit_of_0(rt: HostRuntime) -> Result<(), Fail> {
    let add = BuiltIn::Arithmetic(ArithmeticFunction::Ad);
    let mut none = Stored::new(rt.alloc(), Ascii, 0, 0)?;
    assert_eq!(rt; none.built_in(b"AD"), Some(add));
    assert_eq!(rt; none.needs(b"", 0), Needs { names: 1, bytes: 0 });
    let endless = Needs {
        names: 1,
        bytes: usize::MAX,
    };
    assert_eq!(rt; none.needs(b"AB", usize::MAX), endless);
    assert!(rt; !none.define(b"", b""));
    assert!(rt; !none.define(b"AD", b""));
    assert_eq!(rt; none.built_in(b"AD"), Some(add));
    none.erase(b"AD");
    assert_eq!(rt; none.built_in(b"AD"), None);
    let mut one = Stored::new(rt.alloc(), Ascii, 1, 0)?;
    assert!(rt; one.define(b"", b""));
    assert!(rt; !one.define(b"", b"a"));
    assert!(rt; one.body_is(b"", b""));
    Ok(())
}

fn replace_built_ins<C: Code + Drop>(
    rt: &impl Abort,
    heap: Global,
    code: C,
    add: &[u8],
    equal: &[u8],
) -> Result<(), Fail> {
    let function = BuiltIn::Arithmetic(ArithmeticFunction::Ad);
    let mut stored = Stored::new(heap, code, 4, 64)?;
    assert!(rt; stored.copy_built_in(b"p", function));
    assert_eq!(rt; stored.built_in(add), Some(function));
    assert!(rt; stored.define(add, b"x"));
    assert_eq!(rt; stored.built_in(add), None);
    assert!(rt; stored.body_is(add, b"x"));
    stored.erase(add);
    assert!(rt; stored.body(add).is_none());
    assert_eq!(rt; stored.built_in(add), None);
    assert_eq!(rt;
        stored.built_in(equal),
        Some(BuiltIn::Comparison(ComparisonFunction::Eq))
    );
    assert_eq!(rt; stored.built_in(b"p"), Some(function));
    assert_eq!(rt; stored.bytes(), 1);
    assert!(rt; stored.copy_built_in(equal, function));
    assert_eq!(rt; stored.built_in(equal), Some(function));
    stored.erase(equal);
    assert_eq!(rt; stored.built_in(equal), None);
    Ok(())
}

#[test]
fn built_ins_give_way(rt: HostRuntime) -> Result<(), Fail> {
    replace_built_ins(&rt, rt.alloc(), Ascii, b"AD", b"EQ")?;
    let add = in_ebcdic(rt.alloc(), b"AD")?;
    let equal = in_ebcdic(rt.alloc(), b"EQ")?;
    replace_built_ins(&rt, rt.alloc(), Ebcdic, add.as_slice(), equal.as_slice())
}

// Four strings, and the bytes that each takes.
fn strings() -> [(&'static [u8], &'static [u8], usize); 4] {
    [
        (b"a", b"12345", 6),
        (b"bb", b"", 2),
        (b"", b"678", 3),
        (b"dddd", b"9012345678", 14),
    ]
}

// The orders in which they go.
fn orders() -> [[&'static [u8]; 4]; 24] {
    [
        [b"a", b"bb", b"", b"dddd"],
        [b"a", b"bb", b"dddd", b""],
        [b"a", b"", b"bb", b"dddd"],
        [b"a", b"", b"dddd", b"bb"],
        [b"a", b"dddd", b"bb", b""],
        [b"a", b"dddd", b"", b"bb"],
        [b"bb", b"a", b"", b"dddd"],
        [b"bb", b"a", b"dddd", b""],
        [b"bb", b"", b"a", b"dddd"],
        [b"bb", b"", b"dddd", b"a"],
        [b"bb", b"dddd", b"a", b""],
        [b"bb", b"dddd", b"", b"a"],
        [b"", b"a", b"bb", b"dddd"],
        [b"", b"a", b"dddd", b"bb"],
        [b"", b"bb", b"a", b"dddd"],
        [b"", b"bb", b"dddd", b"a"],
        [b"", b"dddd", b"a", b"bb"],
        [b"", b"dddd", b"bb", b"a"],
        [b"dddd", b"a", b"bb", b""],
        [b"dddd", b"a", b"", b"bb"],
        [b"dddd", b"bb", b"a", b""],
        [b"dddd", b"bb", b"", b"a"],
        [b"dddd", b"", b"a", b"bb"],
        [b"dddd", b"", b"bb", b"a"],
    ]
}

fn erase_in_order<C: Code + Drop>(
    rt: &impl Abort,
    heap: Global,
    code: C,
    order: [&[u8]; 4],
) -> Result<(), Fail> {
    let mut stored = Stored::new(heap, code, 4, 25)?;
    for (name, body, _) in strings() {
        assert!(rt; stored.define(name, body));
    }
    let mut left: usize = 25;
    for (done, gone) in order.iter().enumerate() {
        assert_eq!(rt; stored.bytes(), left, "{order:?}");
        stored.erase(*gone);
        for (name, body, size) in strings() {
            if name == *gone {
                left = left.saturating_sub(size);
            }
            let erased = order.iter().take(done + 1).any(|other| *other == name);
            let text = if erased { None } else { Some(body) };
            assert_eq!(rt; stored.body(name), text, "{order:?}");
        }
    }
    assert_eq!(rt; stored.bytes(), 0, "{order:?}");
    assert_eq!(rt; stored.names(), 0, "{order:?}");
    Ok(())
}

#[test]
fn strings_go_in_every_order(rt: HostRuntime) -> Result<(), Fail> {
    for order in orders() {
        erase_in_order(&rt, rt.alloc(), Ascii, order)?;
        erase_in_order(&rt, rt.alloc(), Ebcdic, order)?;
    }
    Ok(())
}

#[test]
fn strings_grow_and_are_copied(rt: HostRuntime) -> Result<(), Fail> {
    let mut stored = Stored::new(rt.alloc(), Ascii, 4, 40)?;
    assert!(rt; stored.define(b"V", b"first"));
    assert!(rt; stored.define(b"X", b"abcb"));
    assert!(rt; stored.define(b"W", b"last"));
    assert!(rt; stored.append(b"X", b"de"));
    assert!(rt; stored.body_is(b"X", b"abcbde"));
    assert!(rt; stored.rest_is(b"X", b""));
    assert!(rt; stored.set_pointer(b"X", 2));
    assert!(rt; stored.rest_is(b"X", b"cbde"));
    assert!(rt; stored.copy(b"Y", b"X"));
    assert!(rt; !stored.copy(b"Z", b"X"));
    assert!(rt; stored.body_is(b"Y", b"cbde"));
    assert!(rt; stored.copy(b"X", b"X"));
    assert!(rt; stored.body_is(b"X", b"cbde"));
    assert!(rt; stored.rest_is(b"X", b"cbde"));
    assert!(rt; stored.copy(b"V", b"W"));
    assert!(rt; stored.set_pointer(b"W", 4));
    assert!(rt; stored.copy(b"Y", b"W"));
    assert!(rt; stored.body_is(b"V", b"last"));
    assert!(rt; stored.body_is(b"X", b"cbde"));
    assert!(rt; stored.body_is(b"W", b"last"));
    assert!(rt; stored.body_is(b"Y", b""));
    assert_eq!(rt; stored.bytes(), 16);
    Ok(())
}

#[test]
fn matches_are_marked(rt: HostRuntime) -> Result<(), Fail> {
    let mut stored = Stored::new(rt.alloc(), Ascii, 3, 40)?;
    assert!(rt; stored.define(b"V", b"first"));
    assert!(rt; stored.define(b"X", b"ababab"));
    assert!(rt; stored.define(b"W", b"aaaaa"));
    assert!(rt; stored.set_pointer(b"X", 2));
    assert_eq!(rt; stored.mark(b"X", b"", 0x81), Some(0));
    assert_eq!(rt; stored.mark(b"X", b"bb", 0x81), Some(0));
    assert_eq!(rt; stored.mark(b"X", b"ab", 0x81), Some(2));
    assert!(rt; stored.body_is(b"X", b"ab\x81\x81"));
    assert!(rt; stored.rest_is(b"X", b"\x81\x81"));
    assert_eq!(rt; stored.mark(b"W", b"aa", 0x82), Some(2));
    assert!(rt; stored.body_is(b"W", b"\x82\x82a"));
    assert_eq!(rt; stored.mark(b"V", b"first", 0x83), Some(1));
    assert!(rt; stored.body_is(b"V", b"\x83"));
    assert!(rt; stored.body_is(b"X", b"ab\x81\x81"));
    assert_eq!(rt; stored.bytes(), 11);
    Ok(())
}

#[test]
fn there_are_16_classes(rt: HostRuntime) -> Result<(), Fail> {
    let mut stored = Stored::new(rt.alloc(), Ascii, 2, 40)?;
    let mut members = [false; 256];
    assert!(rt; stored.define(b"X", b"abc"));
    for name in 0..15u8 {
        members[usize::from(name)] = true;
        assert!(rt; stored.define_class(&[name], &members));
    }
    assert!(rt; stored.define_class(b"", &members));
    assert!(rt; !stored.define_class(b"17", &members));
    assert_eq!(rt; stored.bytes(), 19);
    assert!(rt; stored.define_class(&[3], &[true; 256]));
    assert!(rt; stored.define(b"Y", b"de"));
    stored.erase_class(&[4]);
    stored.erase_class(&[4]);
    assert!(rt; !stored.define_class(b"a name that is far too long", &members));
    assert!(rt; stored.define_class(b"17", &[false; 256]));
    assert_eq!(rt; stored.member(&[2], 2), Some(true));
    assert_eq!(rt; stored.member(&[2], 3), Some(false));
    assert_eq!(rt; stored.member(&[3], 255), Some(true));
    assert_eq!(rt; stored.member(&[4], 0), None);
    assert_eq!(rt; stored.member(b"", 14), Some(true));
    assert_eq!(rt; stored.member(b"", 15), Some(false));
    assert_eq!(rt; stored.member(b"17", 0), Some(false));
    assert!(rt; stored.body_is(b"X", b"abc"));
    assert!(rt; stored.body_is(b"Y", b"de"));
    assert_eq!(rt; stored.bytes(), 23);
    Ok(())
}
