// The 46 built-in functions, in their groups.

#[derive(Clone, Copy, Debug, PartialEq, Eq)]
pub enum BuiltIn {
    Dictionary(DictionaryFunction),
    Selection(SelectionFunction),
    Text(TextFunction),
    Class(ClassFunction),
    Arithmetic(ArithmeticFunction),
    Comparison(ComparisonFunction),
    Library(LibraryFunction),
    Other(OtherFunction),
}

// They define, change and erase strings.
#[derive(Clone, Copy, Debug, PartialEq, Eq)]
pub enum DictionaryFunction {
    Ds,
    Ap,
    Es,
    Cf,
    Ss,
    Sc,
    Cr,
}

// They read a string from its residual pointer on, and move the pointer.
#[derive(Clone, Copy, Debug, PartialEq, Eq)]
pub enum SelectionFunction {
    Cc,
    Cn,
    Sn,
    Isc,
    Scn,
    Cp,
    Cs,
    Rrp,
    Eos,
}

// They make a text of a parameter.
#[derive(Clone, Copy, Debug, PartialEq, Eq)]
pub enum TextFunction {
    Gn,
    Flip,
    Trl,
    Norm,
}

// They define classes of characters, and read a string by them.
#[derive(Clone, Copy, Debug, PartialEq, Eq)]
pub enum ClassFunction {
    Dcl,
    Dncl,
    Ecl,
    Ccl,
    Scl,
    Tcl,
}

#[derive(Clone, Copy, Debug, PartialEq, Eq)]
pub enum ArithmeticFunction {
    Ad,
    Su,
    Mu,
    Dv,
    Dvr,
    Abs,
}

// They choose one of their two last parameters: the first three by numbers, the others by texts.
#[derive(Clone, Copy, Debug, PartialEq, Eq)]
pub enum ComparisonFunction {
    Eq,
    Gt,
    Lt,
    EqText,
    GtText,
    LtText,
}

#[derive(Clone, Copy, Debug, PartialEq, Eq)]
pub enum LibraryFunction {
    Store,
    Delete,
    Copy,
    Names,
    Pdf,
}

#[derive(Clone, Copy, Debug, PartialEq, Eq)]
pub enum OtherFunction {
    Ndf,
    Ps,
    Break,
}
