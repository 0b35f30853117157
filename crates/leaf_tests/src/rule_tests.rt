// Which rule a short front asks for, and which `>` a `<` has.
use crate::in_ebcdic;
use code::{Ascii, Ebcdic};
use machine::Rule;
use scan::{find_match, plain_run, rule_at_front};
use signs::read_signs;
use std::test::Fail;

// A front, and its rule outside and inside of a call.
fn fronts() -> [(&'static [u8], Rule, Rule); 18] {
    [
        (b"@", Rule::Escape, Rule::Escape),
        (b"@@", Rule::Escape, Rule::Escape),
        (b"@#<", Rule::Escape, Rule::Escape),
        (b"#", Rule::Other, Rule::Other),
        (b"##", Rule::Other, Rule::Other),
        (b"###", Rule::Other, Rule::Other),
        (b"#a<", Rule::Other, Rule::Other),
        (b"#@<", Rule::Other, Rule::Other),
        (b"###<", Rule::Other, Rule::Other),
        (b"##<", Rule::OpenPassive, Rule::OpenPassive),
        (b"##<a", Rule::OpenPassive, Rule::OpenPassive),
        (b"#<", Rule::OpenActive, Rule::OpenActive),
        (b"#<<", Rule::OpenActive, Rule::OpenActive),
        (b"<", Rule::Bracket, Rule::Bracket),
        (b"<#", Rule::Bracket, Rule::Bracket),
        (b";", Rule::Other, Rule::Separator),
        (b">", Rule::Other, Rule::Close),
        (b"a", Rule::Other, Rule::Other),
    ]
}

#[test]
fn fronts_have_rules(rt: HostRuntime) -> Result<(), Fail> {
    let ascii = read_signs(Ascii);
    let ebcdic = read_signs(Ebcdic);
    for (front, outside, inside) in fronts() {
        let other = in_ebcdic(rt.alloc(), front)?;
        assert_eq!(rt; rule_at_front(&ascii, false, front), outside, "{front:?}");
        assert_eq!(rt; rule_at_front(&ascii, true, front), inside, "{front:?}");
        assert_eq!(rt;
            rule_at_front(&ebcdic, false, other.as_slice()),
            outside,
            "{front:?}"
        );
        assert_eq!(rt;
            rule_at_front(&ebcdic, true, other.as_slice()),
            inside,
            "{front:?}"
        );
    }
    assert_eq!(rt; rule_at_front(&ascii, false, b"\n"), Rule::EndOfLine);
    assert_eq!(rt; rule_at_front(&ebcdic, true, b"\x15"), Rule::EndOfLine);
    assert_eq!(rt; rule_at_front(&ebcdic, false, b"\n"), Rule::Other);
    Ok(())
}

// Texts behind a `<`, and how many bytes stand before its `>`.
fn matches() -> [(&'static [u8], Option<usize>); 16] {
    [
        (b"", None),
        (b">", Some(0)),
        (b"a>", Some(1)),
        (b"a>b>", Some(1)),
        (b"<>", None),
        (b"<>>", Some(2)),
        (b"a<b>@>c>d", Some(7)),
        (b"<<<>>>>", Some(6)),
        (b"@", None),
        (b"a@", None),
        (b"a@>", None),
        (b"a@>>", Some(3)),
        (b"@@>", Some(2)),
        (b"@<>", Some(2)),
        (b"<@>>@<>", Some(6)),
        (b"#;\n>", Some(3)),
    ]
}

#[test]
fn brackets_match(rt: HostRuntime) -> Result<(), Fail> {
    let ascii = read_signs(Ascii);
    let ebcdic = read_signs(Ebcdic);
    for (text, place) in matches() {
        let other = in_ebcdic(rt.alloc(), text)?;
        assert_eq!(rt; find_match(&ascii, text), place, "{text:?}");
        assert_eq!(rt; find_match(&ebcdic, other.as_slice()), place, "{text:?}");
    }
    Ok(())
}

#[test]
fn runs_are_plain(rt: HostRuntime) {
    let ascii = read_signs(Ascii);
    let runs: [(&[u8], usize, usize); 10] = [
        (b"", 0, 0),
        (b"abc", 3, 3),
        (b"#", 1, 1),
        (b"##", 2, 2),
        (b"a##", 3, 3),
        (b"ab@", 2, 2),
        (b"a###<", 2, 2),
        (b"a>b;c", 5, 1),
        (b"a;b", 3, 1),
        (b"ab\nc", 2, 2),
    ];
    for (text, outside, inside) in runs {
        assert_eq!(rt; plain_run(&ascii, false, text), outside, "{text:?}");
        assert_eq!(rt; plain_run(&ascii, true, text), inside, "{text:?}");
    }
}
