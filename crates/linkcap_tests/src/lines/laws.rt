//! Facts about the definitions, each a function with an empty body.

ghost use Rattle.linkcap_tests.specs.Laws.{NumbersAreDisplayed, TypesHaveNames, ValuesAreKnownByName};

/// The numbers that have names in lines are those of the values that have a name, for each number
/// type that has a display, and the name is the display. The flags of links have the names of their
/// display too.
pub fn numbers_are_displayed()
    ensures { NumbersAreDisplayed }
{}

/// `linkshow --only` reads each type that has a name in lines by that name, with or without its
/// part up to the first `_`, in upper or lower case.
pub fn types_have_names()
    ensures { TypesHaveNames }
{}

/// An attribute's name determines whether its value is bytes in hex, or a list of numbers, and the
/// first word of a line whether it is the header of a body: the names that JSON and `--without`
/// look for are those of the tables.
pub fn values_are_known_by_name()
    ensures { ValuesAreKnownByName }
{}
