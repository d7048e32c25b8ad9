//! Laws of the definitions. No function here calls anything.
#![tactic(auto, using(crate::proofs::Equal::laws))]

ghost use Rattle.link_capture.specs.EqualRoutes.{EqualEntriesMeanEqualRoutes, RoutesReadBackEqual};

/// The type and the body of a message determine it, up to `==`.
pub fn equal_entries_mean_equal_routes()
    ensures { EqualEntriesMeanEqualRoutes }
{}

/// A serialised message that is read back under any header of its type and length is the same value
/// by `==`: the contract of `deserialize` says that the message it returns has the type and body of
/// `reads`.
pub fn routes_read_back_equal()
    ensures { RoutesReadBackEqual }
{}
