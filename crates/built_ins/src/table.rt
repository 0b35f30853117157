// The table of the built-in functions, in the order of the language's definition.
ghost use Rattle.std.specs.Prelude.{◌≡◌, map};
ghost use Rattle.machine.specs.BuiltIns.{all_built_ins};
ghost use Rattle.built_ins.specs.Rows.{row_of};
ghost use Rattle.built_ins.specs.Entries.{entry_row};

use machine::{
    ArithmeticFunction, BuiltIn, ClassFunction, ComparisonFunction, DictionaryFunction,
    LibraryFunction, OtherFunction, SelectionFunction, TextFunction,
};

pub(crate) struct BuiltInEntry {
    pub(crate) function: BuiltIn,
    // The letters of its name, by their Unicode numbers.
    pub(crate) letters: &'static [u8],
    // The smallest number of parameters.
    pub(crate) least: usize,
}

const BUILT_INS: [BuiltInEntry; 46] = [
    BuiltInEntry {
        function: BuiltIn::Dictionary(DictionaryFunction::Ds),
        letters: b"DS",
        least: 2,
    },
    BuiltInEntry {
        function: BuiltIn::Dictionary(DictionaryFunction::Ap),
        letters: b"AP",
        least: 2,
    },
    BuiltInEntry {
        function: BuiltIn::Dictionary(DictionaryFunction::Es),
        letters: b"ES",
        least: 0,
    },
    BuiltInEntry {
        function: BuiltIn::Dictionary(DictionaryFunction::Cf),
        letters: b"CF",
        least: 2,
    },
    BuiltInEntry {
        function: BuiltIn::Dictionary(DictionaryFunction::Ss),
        letters: b"SS",
        least: 1,
    },
    BuiltInEntry {
        function: BuiltIn::Dictionary(DictionaryFunction::Sc),
        letters: b"SC",
        least: 1,
    },
    BuiltInEntry {
        function: BuiltIn::Dictionary(DictionaryFunction::Cr),
        letters: b"CR",
        least: 2,
    },
    BuiltInEntry {
        function: BuiltIn::Selection(SelectionFunction::Cc),
        letters: b"CC",
        least: 1,
    },
    BuiltInEntry {
        function: BuiltIn::Selection(SelectionFunction::Cn),
        letters: b"CN",
        least: 2,
    },
    BuiltInEntry {
        function: BuiltIn::Selection(SelectionFunction::Sn),
        letters: b"SN",
        least: 2,
    },
    BuiltInEntry {
        function: BuiltIn::Selection(SelectionFunction::Isc),
        letters: b"ISC",
        least: 4,
    },
    BuiltInEntry {
        function: BuiltIn::Selection(SelectionFunction::Scn),
        letters: b"SCN",
        least: 3,
    },
    BuiltInEntry {
        function: BuiltIn::Selection(SelectionFunction::Cp),
        letters: b"CP",
        least: 1,
    },
    BuiltInEntry {
        function: BuiltIn::Selection(SelectionFunction::Cs),
        letters: b"CS",
        least: 1,
    },
    BuiltInEntry {
        function: BuiltIn::Selection(SelectionFunction::Rrp),
        letters: b"RRP",
        least: 1,
    },
    BuiltInEntry {
        function: BuiltIn::Selection(SelectionFunction::Eos),
        letters: b"EOS",
        least: 3,
    },
    BuiltInEntry {
        function: BuiltIn::Text(TextFunction::Gn),
        letters: b"GN",
        least: 2,
    },
    BuiltInEntry {
        function: BuiltIn::Text(TextFunction::Flip),
        letters: b"FLIP",
        least: 1,
    },
    BuiltInEntry {
        function: BuiltIn::Text(TextFunction::Trl),
        letters: b"TRL",
        least: 1,
    },
    BuiltInEntry {
        function: BuiltIn::Text(TextFunction::Norm),
        letters: b"NORM",
        least: 1,
    },
    BuiltInEntry {
        function: BuiltIn::Class(ClassFunction::Dcl),
        letters: b"DCL",
        least: 2,
    },
    BuiltInEntry {
        function: BuiltIn::Class(ClassFunction::Dncl),
        letters: b"DNCL",
        least: 2,
    },
    BuiltInEntry {
        function: BuiltIn::Class(ClassFunction::Ecl),
        letters: b"ECL",
        least: 0,
    },
    BuiltInEntry {
        function: BuiltIn::Class(ClassFunction::Ccl),
        letters: b"CCL",
        least: 2,
    },
    BuiltInEntry {
        function: BuiltIn::Class(ClassFunction::Scl),
        letters: b"SCL",
        least: 2,
    },
    BuiltInEntry {
        function: BuiltIn::Class(ClassFunction::Tcl),
        letters: b"TCL",
        least: 4,
    },
    BuiltInEntry {
        function: BuiltIn::Arithmetic(ArithmeticFunction::Ad),
        letters: b"AD",
        least: 2,
    },
    BuiltInEntry {
        function: BuiltIn::Arithmetic(ArithmeticFunction::Su),
        letters: b"SU",
        least: 2,
    },
    BuiltInEntry {
        function: BuiltIn::Arithmetic(ArithmeticFunction::Mu),
        letters: b"MU",
        least: 2,
    },
    BuiltInEntry {
        function: BuiltIn::Arithmetic(ArithmeticFunction::Dv),
        letters: b"DV",
        least: 2,
    },
    BuiltInEntry {
        function: BuiltIn::Arithmetic(ArithmeticFunction::Dvr),
        letters: b"DVR",
        least: 2,
    },
    BuiltInEntry {
        function: BuiltIn::Arithmetic(ArithmeticFunction::Abs),
        letters: b"ABS",
        least: 1,
    },
    BuiltInEntry {
        function: BuiltIn::Comparison(ComparisonFunction::Eq),
        letters: b"EQ",
        least: 4,
    },
    BuiltInEntry {
        function: BuiltIn::Comparison(ComparisonFunction::Gt),
        letters: b"GT",
        least: 4,
    },
    BuiltInEntry {
        function: BuiltIn::Comparison(ComparisonFunction::Lt),
        letters: b"LT",
        least: 4,
    },
    BuiltInEntry {
        function: BuiltIn::Comparison(ComparisonFunction::EqText),
        letters: b"EQ?",
        least: 4,
    },
    BuiltInEntry {
        function: BuiltIn::Comparison(ComparisonFunction::GtText),
        letters: b"GT?",
        least: 4,
    },
    BuiltInEntry {
        function: BuiltIn::Comparison(ComparisonFunction::LtText),
        letters: b"LT?",
        least: 4,
    },
    BuiltInEntry {
        function: BuiltIn::Library(LibraryFunction::Store),
        letters: b"STORE",
        least: 2,
    },
    BuiltInEntry {
        function: BuiltIn::Library(LibraryFunction::Delete),
        letters: b"DELETE",
        least: 1,
    },
    BuiltInEntry {
        function: BuiltIn::Library(LibraryFunction::Copy),
        letters: b"COPY",
        least: 1,
    },
    BuiltInEntry {
        function: BuiltIn::Library(LibraryFunction::Names),
        letters: b"NAMES",
        least: 1,
    },
    BuiltInEntry {
        function: BuiltIn::Library(LibraryFunction::Pdf),
        letters: b"PDF",
        least: 3,
    },
    BuiltInEntry {
        function: BuiltIn::Other(OtherFunction::Ndf),
        letters: b"NDF",
        least: 3,
    },
    BuiltInEntry {
        function: BuiltIn::Other(OtherFunction::Ps),
        letters: b"PS",
        least: 1,
    },
    BuiltInEntry {
        function: BuiltIn::Other(OtherFunction::Break),
        letters: b"BREAK",
        least: 0,
    },
];

// The entries say what the definition says, in its order.
pub(crate) fn built_ins() -> &'static [BuiltInEntry]
    ensures { map entry_row result.now ≡ map row_of all_built_ins }
{
    &BUILT_INS
}
