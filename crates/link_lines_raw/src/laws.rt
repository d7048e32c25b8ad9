//! Laws of the definitions: each function has an empty body, and its contract holds for all values.
#![tactic(auto, using(crate::proofs::Together::laws))]

ghost use Rattle.link_lines_raw.specs.Laws.{AcknowledgementsAreDetermined, BodiesAreDetermined};
ghost use Rattle.link_lines_raw.specs.Laws.{HeldPayloadsAreDetermined};
ghost use Rattle.link_lines_raw.specs.Laws.{RawAttributesAreDetermined, RawTablesAreDetermined};

/// The names of each table's rows are different, and the lines of each row determine what it holds.
pub fn raw_tables_are_determined()
    ensures { RawTablesAreDetermined }
{}

/// The line of a raw attribute and the lines below it determine the attribute.
pub fn raw_attributes_are_determined()
    ensures { RawAttributesAreDetermined }
{}

/// What follows a name, and the lines below it, determine a payload.
pub fn held_payloads_are_determined()
    ensures { HeldPayloadsAreDetermined }
{}

/// The lines of a body determine it.
pub fn bodies_are_determined()
    ensures { BodiesAreDetermined }
{}

/// The lines of an extended acknowledgement determine its attributes.
pub fn acknowledgements_are_determined()
    ensures { AcknowledgementsAreDetermined }
{}
