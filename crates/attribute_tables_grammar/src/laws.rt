//! Laws of the definitions. No function here makes a call.
#![tactic(auto, using(crate::proofs::Together::laws))]

ghost use Rattle.attribute_tables_grammar.specs.Laws.{CanonicalListsAreSplit, TablesAreLawful, BytesAreLawful};
ghost use Rattle.attribute_tables_grammar.specs.Laws.{CanonicalPayloadsDetermineMeanings, PayloadsKeepMeanings};
ghost use Rattle.attribute_tables_grammar.specs.Laws.{ShortPayloadsFit, OldPayloadsAreMigrated, OneContext};
ghost use Rattle.attribute_tables_grammar.specs.Laws.{RulesWithoutPeersAreOne};
ghost use Rattle.attribute_tables_grammar.specs.Laws.{TableGrammarsAreLawful, RowsAreLookedUp, NamesAreLookedUp};
ghost use Rattle.attribute_tables_grammar.specs.Laws.{ReadingsUnfold, ReadingsDetermineRules, FirstOnlyIsRead, PortsAreEntries};
ghost use Rattle.attribute_tables_grammar.specs.Laws.{ContextsUnfold, ListsAreReadBack, RowsWithoutListsFit};
ghost use Rattle.attribute_tables_grammar.specs.Laws.{TableRowsAreLawful, MeasuresUnfold, MeasuresDetermineRules, CanonicalListsUnfold};
ghost use Rattle.attribute_tables_grammar.specs.Laws.{WritingUnfolds, KeptAttributesUnfold, SamenessUnfolds, AttributesAreCompared};

/// The canonical encoding of a list is cut into the attributes that the list keeps, each in its
/// canonical form.
pub fn canonical_lists_are_split()
    ensures { CanonicalListsAreSplit }
{}

/// Every payload of a table without large rows has a lawful rule, under every lawful rule of peers.
pub fn tables_are_lawful()
    ensures { TablesAreLawful }
{}

/// The rule that keeps peers as bytes is lawful.
pub fn peers_that_are_bytes_are_lawful()
    ensures { BytesAreLawful }
{}

/// Two accepted payloads are equivalent if and only if their canonical payloads are equal.
pub fn texts_determine_meanings()
    ensures { CanonicalPayloadsDetermineMeanings }
{}

/// A payload is equivalent to its canonical payload, if no list of ports inside it keeps nothing.
pub fn texts_keep_meanings()
    ensures { PayloadsKeepMeanings }
{}

/// A canonical payload of at most 65535 bytes fits: no length inside it exceeds that of the whole.
pub fn short_texts_fit()
    ensures { ShortPayloadsFit }
{}

/// The rule of a payload or a row without peers is the same under all rules of peers.
pub fn rules_without_peers_are_one()
    ensures { RulesWithoutPeersAreOne }
{}

/// An encoding that was canonical while peers were bytes is accepted under any rule of peers that
/// accepts the original bytes, and has their canonical encoding; it fits if they do, and has no
/// empty ports.
pub fn old_texts_are_migrated()
    ensures { OldPayloadsAreMigrated }
{}

/// Equivalent lists leave the same kinds in force.
pub fn same_lists_leave_one_context()
    ensures { OneContext }
{}

/// The rows of a table without large rows are lawful.
pub fn table_grammars_are_lawful()
    ensures { TableGrammarsAreLawful }
{}

/// A list of a table's rows has the rule of the rows that looking up each kind finds.
pub fn rows_are_looked_up()
    ensures { RowsAreLookedUp }
{}

/// The payload of a row fits, if the table holds no lists.
pub fn rows_without_lists_fit()
    ensures { RowsWithoutListsFit }
{}

/// The rule of a name is that of the payload that looking up the name finds, else the rule of raw
/// bytes.
pub fn names_are_looked_up()
    ensures { NamesAreLookedUp }
{}

/// Reading a list unfolds attribute by attribute: a kept attribute adds its canonical form, a
/// dropped one adds nothing. Nothing is read if a row rejects a kept attribute, or if the rest
/// begins with no attribute; at the end, what was read is the whole list.
pub fn readings_unfold()
    ensures { ReadingsUnfold }
{}

/// The reading of a list determines the results of its rule: if there is one, the rule accepts the
/// bytes, with its encoding as the canonical one; otherwise the rule rejects them.
pub fn readings_determine_rules()
    ensures { ReadingsDetermineRules }
{}

/// A list of only its first attribute is read as that attribute's canonical form; there is no
/// reading if its row rejects it, or if the bytes begin with no attribute.
pub fn single_first_attributes_are_read()
    ensures { FirstOnlyIsRead }
{}

/// A non-empty list of ports has the rule of a list of entries of kind 1; an empty one is rejected.
/// An accepted list of ports is empty if and only if it keeps no entry, or a list of ports inside an
/// entry is empty.
pub fn ports_are_entries()
    ensures { PortsAreEntries }
{}

/// A list that is accepted and fits, and in which no ports are empty, is read from its canonical
/// encoding as from its own bytes.
pub fn lists_are_read_back()
    ensures { ListsAreReadBack }
{}

/// The context after a list unfolds attribute by attribute, and an attribute leaves in force what
/// its canonical form does.
pub fn contexts_unfold()
    ensures { ContextsUnfold }
{}

/// The row that looking up a kind finds is lawful, in a table without large rows.
pub fn table_rows_are_lawful()
    ensures { TableRowsAreLawful }
{}

/// Measuring a list unfolds attribute by attribute: a kept attribute adds the measure of its
/// payload, with a header; a dropped one counts only as an attribute. There is no measure if a row
/// rejects a kept attribute, or if the rest begins with no attribute; at the end, the sum is the
/// measure of the whole list.
pub fn measures_unfold()
    ensures { MeasuresUnfold }
{}

/// The measure of a walk over whole bytes is that of their rule, and determines the rule's results.
/// A list of only its first attribute has the measure of that attribute. A list kind that requires
/// an attribute rejects the empty list.
pub fn measures_determine_rules()
    ensures { MeasuresDetermineRules }
{}

/// Bytes are already canonical if each attribute is, and is padded with zeros.
pub fn canonical_lists_unfold()
    ensures { CanonicalListsUnfold }
{}

/// Writing an accepted list that fits unfolds attribute by attribute: the payload of a kept
/// attribute fits, and the remaining capacity is enough for it. The rest never begins with no
/// attribute.
pub fn writing_unfolds()
    ensures { WritingUnfolds }
{}

/// The attributes that a list keeps unfold attribute by attribute: a kept one comes first, followed
/// by those of the rest; a dropped one adds nothing. Bytes that begin with no attribute are no
/// list.
pub fn kept_attributes_unfold()
    ensures { KeptAttributesUnfold }
{}

/// Comparing two lists unfolds over the attributes that each keeps, whether or not they are
/// accepted: they are equivalent if the next two attributes are, and the rests.
pub fn sameness_unfolds()
    ensures { SamenessUnfolds }
{}

/// Two attributes under one look-up are equivalent if and only if their kinds are equal and their
/// payloads are equivalent under the first one's row. Equivalent attributes of link info leave the
/// same kinds in force.
pub fn attributes_are_compared()
    ensures { AttributesAreCompared }
{}
