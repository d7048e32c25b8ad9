//! Facts about the definitions, each a function with an empty body.

ghost use Rattle.link_message_types.specs.Laws.{NumbersAreKept, MasksAreKept, LayerTypesAreNamed, HeadersAreSixteenBytes};
ghost use Rattle.link_message_types.specs.Laws.{ConstantsAreNamed};

/// A number is converted to a value and back without change, for address families and each number
/// type.
pub fn numbers_are_kept()
    ensures { NumbersAreKept }
{}

/// A number of 4 bytes is read as a list of masks and joined to the same number.
pub fn masks_are_kept()
    ensures { MasksAreKept }
{}

/// A layer type is converted to its number and back without change.
pub fn layer_types_are_named()
    ensures { LayerTypesAreNamed }
{}

/// A header is written as 16 bytes.
pub fn headers_are_sixteen_bytes()
    ensures { HeadersAreSixteenBytes }
{}

/// The constant of each flag has the bits of its name, and the alias of a layer type is that type.
/// These are laws, since flags that are swapped together with their list would satisfy the contract
/// of every function.
pub fn constants_are_named()
    ensures { ConstantsAreNamed }
{}
