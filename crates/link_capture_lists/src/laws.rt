//! Laws of the definitions. No function here makes a call.
#![tactic(auto, using(crate::proofs::Together::laws))]

ghost use Rattle.link_capture_lists.specs.RowRules.{LinksAreTables, RowsAreTheTables};

/// The content of each row is that of the row in the grammar's table.
pub fn rows_are_the_tables()
    ensures { RowsAreTheTables }
{}

/// The attributes of a link of an address family are those of its table.
pub fn links_are_tables()
    ensures { LinksAreTables }
{}
