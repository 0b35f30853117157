// The names of the built-in functions, and how many parameters each takes, by the tables of the language's description.
use crate::in_ebcdic;
use built_ins::{find_built_in, least_parameters};
use code::{Ascii, Ebcdic};
use signs::read_signs;
use std::test::Fail;

// A name, the function, and the smallest number of parameters.
const BUILT_INS: [&str; 46] = [
    "DS Dictionary(Ds) 2",
    "AP Dictionary(Ap) 2",
    "ES Dictionary(Es) 0",
    "CF Dictionary(Cf) 2",
    "SS Dictionary(Ss) 1",
    "SC Dictionary(Sc) 1",
    "CR Dictionary(Cr) 2",
    "CC Selection(Cc) 1",
    "CN Selection(Cn) 2",
    "SN Selection(Sn) 2",
    "ISC Selection(Isc) 4",
    "SCN Selection(Scn) 3",
    "CP Selection(Cp) 1",
    "CS Selection(Cs) 1",
    "RRP Selection(Rrp) 1",
    "EOS Selection(Eos) 3",
    "GN Text(Gn) 2",
    "FLIP Text(Flip) 1",
    "TRL Text(Trl) 1",
    "NORM Text(Norm) 1",
    "DCL Class(Dcl) 2",
    "DNCL Class(Dncl) 2",
    "ECL Class(Ecl) 0",
    "CCL Class(Ccl) 2",
    "SCL Class(Scl) 2",
    "TCL Class(Tcl) 4",
    "AD Arithmetic(Ad) 2",
    "SU Arithmetic(Su) 2",
    "MU Arithmetic(Mu) 2",
    "DV Arithmetic(Dv) 2",
    "DVR Arithmetic(Dvr) 2",
    "ABS Arithmetic(Abs) 1",
    "EQ Comparison(Eq) 4",
    "GT Comparison(Gt) 4",
    "LT Comparison(Lt) 4",
    "EQ? Comparison(EqText) 4",
    "GT? Comparison(GtText) 4",
    "LT? Comparison(LtText) 4",
    "STORE Library(Store) 2",
    "DELETE Library(Delete) 1",
    "COPY Library(Copy) 1",
    "NAMES Library(Names) 1",
    "PDF Library(Pdf) 3",
    "NDF Other(Ndf) 3",
    "PS Other(Ps) 1",
    "BREAK Other(Break) 0",
];

#[test]
fn every_name_is_found(rt: HostRuntime) -> Result<(), Fail> {
    let ascii = read_signs(Ascii);
    let ebcdic = read_signs(Ebcdic);
    for line in BUILT_INS {
        let mut words = line.split_whitespace();
        let name = words.next().ok_or("a name")?.as_bytes();
        let function = find_built_in(&ascii, name).ok_or("a built-in")?;
        let shown = format!(in rt.alloc(); "{function:?}")?;
        assert_eq!(rt; Some(shown.as_str()), words.next(), "{line}");
        let least = format!(in rt.alloc(); "{}", least_parameters(function))?;
        assert_eq!(rt; Some(least.as_str()), words.next(), "{line}");
        let other = in_ebcdic(rt.alloc(), name)?;
        assert_eq!(rt;
            find_built_in(&ebcdic, other.as_slice()),
            Some(function),
            "{line}"
        );
        assert_eq!(rt; find_built_in(&ebcdic, name), None, "{line}");
    }
    Ok(())
}

#[test]
fn other_names_are_not_found(rt: HostRuntime) -> Result<(), Fail> {
    let ascii = read_signs(Ascii);
    let ebcdic = read_signs(Ebcdic);
    let names: [&[u8]; 12] = [
        b"", b"A", b"ad", b"Ad", b"AD ", b" AD", b"ADD", b"EQ??", b"?", b"eq?", b"break", b"AD?",
    ];
    for name in names {
        let other = in_ebcdic(rt.alloc(), name)?;
        assert_eq!(rt; find_built_in(&ascii, name), None, "{name:?}");
        assert_eq!(rt; find_built_in(&ebcdic, other.as_slice()), None, "{name:?}");
    }
    Ok(())
}
