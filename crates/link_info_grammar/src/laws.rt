//! Laws of the tables of link info. No function here makes a call.
#![tactic(auto, using(crate::proofs::Families::laws))]

ghost use Rattle.link_info_grammar.specs.Laws.{InfoTablesAreBoundedAndAscend, InfoIsLawful, InfoGrammarIsLawful, TablesAreListed};
ghost use Rattle.link_info_grammar.specs.Laws.{InfoOfAnyFormIsInfoRule, UnlistedNamesHoldBytes};

/// No canonical attribute is more than 77 times as long as the attribute, kinds ascend, and no name
/// occurs twice.
pub fn tables_pass()
    ensures { InfoTablesAreBoundedAndAscend }
{}

/// Link info is lawful, under every lawful rule of peers.
pub fn info_is_lawful()
    ensures { InfoIsLawful }
{}

/// The rows of link info are lawful in every context, under every lawful rule of peers.
pub fn info_grammar_is_lawful()
    ensures { InfoGrammarIsLawful }
{}

/// Each kind that has a table has a listed name.
pub fn tables_are_listed()
    ensures { TablesAreListed }
{}

/// Link info as the payload of an attribute has the rule of a list of link info.
pub fn info_is_a_payload()
    ensures { InfoOfAnyFormIsInfoRule }
{}

/// Data under a name that isn't listed are raw bytes.
pub fn unlisted_names_hold_bytes()
    ensures { UnlistedNamesHoldBytes }
{}
