//! Lists of attributes, from some attribute on: for walks through the nested lists of a link.

ghost use Rattle.std.specs.Prelude.{◌≡◌};
ghost use Rattle.link_capture_walks.specs.Listings.{after_info, listing, whole};

use link_tables::{InForce, NO_KINDS, next_force};

/// The rest of a list of attributes: which list it is, by a table of type `T`, the kinds of link
/// and of port in force there, and whether peers inside the list are judged.
#[derive(Clone, Copy)]
pub struct Listed<'a, T> {
    pub table: T,
    pub force: InForce<'a>,
    pub judged: bool,
}

impl<'a, T: Copy> Listed<'a, T> {
    /// Returns a list from its first attribute on.
    pub fn new(table: T, judged: bool) -> Self
        ensures { listing result ≡ whole table judged }
    {
        Listed {
            table,
            force: NO_KINDS,
            judged,
        }
    }

    /// Returns the rest of a list of link info after an attribute, whose kind has no flag bits.
    pub fn after_info(self, kind: u16, payload: &'a [u8]) -> Self
        ensures { listing result ≡ after_info (listing self.entry) kind payload.now }
    {
        Listed {
            table: self.table,
            force: next_force(self.force, kind, payload),
            judged: self.judged,
        }
    }
}
