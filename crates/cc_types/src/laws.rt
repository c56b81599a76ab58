//! Laws of the definitions, for the crates above: each function does nothing, and its contract is the law.
ghost use Rattle.cc_types.specs.Laws.{SameTypesAreTold, EqualTypesHaveEqualNumbers, EqualTypesHaveEqualShapes, InterningMakes, ArraysAreMade, FunctionsAreMade, ParametersAreTaken, ConstIsAdded, ParametersAreAdjusted, NoStructsAreMeasured, AddingKeepsMeasures, CompletingKeepsMeasures, MoreTypesKeepMeasures, CompleteStructsStay, AddingLeavesComplete, BareThroughout, NothingIsListed, CatchingUpLists, ListedDepthsAreRight, CountedThroughout, AddingKeepsLists, CompletingKeepsLists, AddingKeepsDepths, CompletingKeepsDepths, MoreTypesKeepDepths, RenewingBegins, NoListsAreOnce, NumberingNumbers, EqualListsHaveEqualNumbers};

/// The test of types says that they are the same, and in a table of types equal types have equal numbers and equal shapes.
pub fn equality_laws()
    ensures told { SameTypesAreTold }
    ensures numbers { EqualTypesHaveEqualNumbers }
    ensures shapes { EqualTypesHaveEqualShapes }
{}

/// After an answer the types that a table had have their numbers still, and each call that makes a type gives the number
/// of the type that it is to make. A function takes one parameter more only where it is a function.
pub fn making_laws()
    ensures interning { InterningMakes }
    ensures arrays { ArraysAreMade }
    ensures functions { FunctionsAreMade }
    ensures parameters { ParametersAreTaken }
    ensures added { ConstIsAdded }
    ensures adjusted { ParametersAreAdjusted }
{}

/// What each complete struct keeps is what its members measure, from no structs on over all calls that change structs or
/// the table of types; adding or completing another struct leaves a complete one as it is, and one that isn't complete has
/// no members.
pub fn struct_laws()
    ensures none { NoStructsAreMeasured }
    ensures adding { AddingKeepsMeasures }
    ensures completing { CompletingKeepsMeasures }
    ensures more_types { MoreTypesKeepMeasures }
    ensures stay { CompleteStructsStay }
    ensures added_stay { AddingLeavesComplete }
    ensures bare { BareThroughout }
{}

/// From nothing listed on, catching up with the table lists the depths of its types, where what was listed before are the
/// depths of the first of them; and what is listed so is the depth of each type whose parts are in the table.
pub fn depth_laws()
    ensures none { NothingIsListed }
    ensures catching_up { CatchingUpLists }
    ensures right { ListedDepthsAreRight }
{}

/// What `Depths` lists stays right where structs are added or completed, and each complete struct goes on to keep 1 more
/// than the depth of its deepest member, also where the table of types grows. A struct without a tag has to be complete
/// before a type of the table is made of it, or to be as deep inside pointers as it was in an earlier file. At the
/// beginning of another file no struct is complete, and each is as deep inside pointers and function types as before.
pub fn struct_depth_laws()
    ensures counted { CountedThroughout }
    ensures adding_lists { AddingKeepsLists }
    ensures completing_lists { CompletingKeepsLists }
    ensures adding { AddingKeepsDepths }
    ensures completing { CompletingKeepsDepths }
    ensures more_types { MoreTypesKeepDepths }
    ensures renewing { RenewingBegins }
{}

/// From no lists of members on, numbering one gives it a number, lists that had one keep it, and two lists have one number
/// exactly where they are equal.
pub fn list_laws()
    ensures none { NoListsAreOnce }
    ensures numbering { NumberingNumbers }
    ensures numbers { EqualListsHaveEqualNumbers }
{}
