//! Tables of the names of numbers and of bits, by index.

ghost use Rattle.std.specs.Prelude.{◌≡◌};
ghost use Rattle.link_lines_values.specs.Names.{texts_of};
ghost use Rattle.link_lines_values.specs.NumberTexts.{number_texts};

use crate::number_texts::PLAIN;
use crate::{
    bridge_texts, error_texts, flag_names, neighbour_texts, number_texts, route_texts,
    traffic_texts,
};

/// How many indexes the tables of one file have. Those that aren't used are for new tables.
pub(crate) const GROUP_SIZE: u8 = 32;

/// A number, or a bit, and its name.
pub type NumberText = (u32, &'static [u8]);

/// A table of numbers, or of bits in ascending order, with their names, by its index.
// Rows of attributes refer to a table by its index, since the prover takes more time over a
// constant than in proportion to the references inside.
#[derive(Clone, Copy)]
pub struct Numbers(pub u8);

impl Numbers {
    /// Returns the numbers, or the bits, with their names.
    // Most fields of records have no names.
    #[inline]
    #[tactic(auto, unfolding(crate::specs::NumberTexts::number_texts))]
    pub fn texts(self) -> &'static [NumberText]
        ensures { texts_of (λ b. b.now) result.now ≡ number_texts self }
    {
        if self.0 == PLAIN.0 {
            return &[];
        }
        self.texts_by_group()
    }

    // Returns the numbers, or the bits, of any table with their names.
    #[tactic(auto, unfolding(crate::specs::NumberTexts::number_texts))]
    fn texts_by_group(self) -> &'static [NumberText]
        ensures { texts_of (λ b. b.now) result.now ≡ number_texts self }
    {
        let index = self.0 % GROUP_SIZE;
        match self.0 / GROUP_SIZE {
            0 => number_texts::texts(index),
            1 => flag_names::texts(index),
            2 => route_texts::texts(index),
            3 => neighbour_texts::texts(index),
            4 => bridge_texts::texts(index),
            5 => error_texts::texts(index),
            6 => traffic_texts::texts(index),
            _ => &[],
        }
    }
}
