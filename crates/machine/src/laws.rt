// What the definitions are for: each clause is a law of them, and nothing runs here.

ghost use Rattle.machine.specs.Rules.{EveryStepGoesByOneRule};
ghost use Rattle.machine.specs.Invariants.{CallsKeepNamesDistinct, NamesAreAlwaysDistinct, CallsKeepPointersWithin, PointersAreAlwaysWithin};
ghost use Rattle.machine.specs.Laws.{PlainTextIsItself, BracketsMatchInBalance, DivisionAgreesWithTheIntegers, SumsAgreeWithTheIntegers, ParametersGoBackWhereTheyStood, ADefinedNameIsLookedUp, ACopyOfAStringIsItsRest, ACopyOfABuiltInIsThatBuiltIn, OtherNamesStayWhenOneIsDefined, DefiningKeepsNamesDistinct, ChangingKeepsNamesDistinct, ErasingKeepsNamesDistinct, AnErasedNameIsGone, OtherNamesStayWhenOneIsErased, FetchedStringsAreLookedUp, StoredAsTheLibraryDoes, DeletedAsTheLibraryDoes};

// A step of the scan goes by one rule, brackets match in balance, and plain text is itself.
pub fn scan_laws_hold()
    ensures rules { EveryStepGoesByOneRule }
    ensures brackets { BracketsMatchInBalance }
    ensures plain { PlainTextIsItself }
{}

// DV, DVR, AD and SU agree with the integers.
pub fn arithmetic_laws_hold()
    ensures divided { DivisionAgreesWithTheIntegers }
    ensures summed { SumsAgreeWithTheIntegers }
{}

// A string is segmented on a text, and that text is filled in again.
pub fn string_laws_hold()
    ensures { ParametersGoBackWhereTheyStood }
{}

// What a name means after a definition, an erasure and a fetch.
pub fn dictionary_laws_hold()
    ensures defined { ADefinedNameIsLookedUp }
    ensures copied { ACopyOfAStringIsItsRest }
    ensures copied_built_in { ACopyOfABuiltInIsThatBuiltIn }
    ensures others_stay { OtherNamesStayWhenOneIsDefined }
    ensures distinct { DefiningKeepsNamesDistinct }
    ensures changed_distinct { ChangingKeepsNamesDistinct }
    ensures erased_distinct { ErasingKeepsNamesDistinct }
    ensures erased { AnErasedNameIsGone }
    ensures others_last { OtherNamesStayWhenOneIsErased }
    ensures fetched { FetchedStringsAreLookedUp }
{}

// What holds of every dictionary: one call keeps it, and from a new processor any list of calls does.
pub fn invariants_hold()
    ensures calls_distinct { CallsKeepNamesDistinct }
    ensures always_distinct { NamesAreAlwaysDistinct }
    ensures calls_within { CallsKeepPointersWithin }
    ensures always_within { PointersAreAlwaysWithin }
{}

// STORE and DELETE are answered as the library answers.
pub fn library_laws_hold()
    ensures stored { StoredAsTheLibraryDoes }
    ensures deleted { DeletedAsTheLibraryDoes }
{}
