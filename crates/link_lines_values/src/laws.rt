//! Laws of the definitions: each function has an empty body, and its contract holds for all values.
#![tactic(auto, using(crate::proofs::Together::laws))]

ghost use Rattle.link_lines_values.specs.Laws.{AddressesAreDetermined, AddressSizesAreDetermined, BytesAreDetermined, DigitsAreDetermined};
ghost use Rattle.link_lines_values.specs.Laws.{NumbersAreDetermined, RecordsAreDetermined, SettingsAreDetermined, SizedValuesAreDetermined};
ghost use Rattle.link_lines_values.specs.Laws.{CountersAreDetermined, CountersAreOnALine, FieldsAreDetermined, FieldsAreOnALine};
ghost use Rattle.link_lines_values.specs.Laws.{NonzeroCountersAreDetermined};
ghost use Rattle.link_lines_values.specs.Laws.{ValuesAreOnALine};
ghost use Rattle.link_lines_values.specs.ExactLaws.{RawValuesAreDetermined};

/// The text of bytes in hex, with or without colons, determines the bytes; that of bytes in quotes
/// determines them up to a NUL at the end.
pub fn bytes_are_determined()
    ensures { BytesAreDetermined }
{}

/// Digits, in decimal or in hex, determine their number and what follows them, if that is empty or
/// begins with a byte below the digits.
pub fn digits_are_determined()
    ensures { DigitsAreDetermined }
{}

/// The text of a number determines it among numbers of one size, whatever names follow it.
pub fn numbers_are_determined()
    ensures { NumbersAreDetermined }
{}

/// The text of an address determines it among addresses of one size.
pub fn addresses_are_determined()
    ensures { AddressesAreDetermined }
{}

/// The texts of sets of flags, of an optional byte, of two port numbers, and of booleans that are 0
/// or 1 determine them.
pub fn settings_are_determined()
    ensures { SettingsAreDetermined }
{}

/// No address of 4 bytes has the text of one of 16.
pub fn address_sizes_are_determined()
    ensures { AddressSizesAreDetermined }
{}

/// The text of a record determines it among records of one size, whether fields that are zero are
/// left out or not.
pub fn records_are_determined()
    ensures { RecordsAreDetermined }
{}

/// The fields that are shown determine a record without booleans, whatever separates names from
/// values.
pub fn fields_are_determined()
    ensures { FieldsAreDetermined }
{}

/// The text of fields is on one line if the names that it may show are, and is empty or begins with
/// a space.
pub fn fields_are_on_a_line()
    ensures { FieldsAreOnALine }
{}

/// The text of counters, of fewer than 2^64 bytes, determines them.
pub fn counters_are_determined()
    ensures { CountersAreDetermined }
{}

/// The counters that aren't zero determine all counters among those of one size, of fewer than 2^64
/// bytes.
pub fn nonzero_counters_are_determined()
    ensures { NonzeroCountersAreDetermined }
{}

/// The text of counters is on one line if the names that it may show are, and is empty or begins
/// with a space.
pub fn counters_are_on_a_line()
    ensures { CountersAreOnALine }
{}

/// A value's text is on one line, and is empty or begins with a space.
pub fn values_are_on_a_line()
    ensures { ValuesAreOnALine }
{}

/// The text of a payload determines it among payloads of one size, if its format knows the size;
/// and no such text begins as that of bytes after the word `bytes` does.
pub fn sized_values_are_determined()
    ensures { SizedValuesAreDetermined }
{}

/// The text of a raw attribute's payload determines it if its format does; it is empty or begins
/// with a space, is on one line if its format is, and doesn't begin with the word ` nested`.
#[tactic(auto, using(crate::proofs::ExactDetermined::raw_values_determined))]
pub fn raw_values_are_determined()
    ensures { RawValuesAreDetermined }
{}
