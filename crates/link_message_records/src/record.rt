//! Records that consist of fields, one after the other.

ghost use Rattle.std.specs.Prelude.{◌≡◌, ◌↔◌, ◌+◌, ◌-◌, ◌++◌, ◌≤◌, ⊤, true, false, length, drop, IsOk, IfOk, IfErr};
ghost use Rattle.netlink_packet_core.specs.Attributes.{zeros};
ghost use Rattle.netlink_packet_core.specs.Errors.{is_memory};
ghost use Rattle.link_message_records.specs.Records.{with_zeros};
ghost use Rattle.attribute_tables_grammar.specs.Shapes.{Shape, accepts, meaning, encoding, fixed_record};

use super::fields::Fields;
use netlink_packet_core::{DecodeError, Emitable};

/// A record that consists of fields, one after the other, followed by zeros: `N` bytes in all.
pub trait FieldRecord<const N: usize>: Sized {
    /// The fields, in the order of the bytes.
    type Fields: Fields;

    /// The fields of a record.
    ghost fields_of: { Self → Self.Fields };

    /// Each number in the record that has a name is represented by the variant of that name.
    ghost is_named: { Self → Type 0 } = { λ _. ⊤ };

    /// Returns the record with these fields.
    fn from_fields(fields: Self::Fields) -> Self
        ensures fields { fields_of result ≡ fields }
        ensures named { is_named result };

    /// Returns the fields.
    fn fields(&self) -> Self::Fields
        ensures { result ≡ fields_of self.now };

    /// Reads the record at the start of a payload; the bytes after it are dropped. Allocates
    /// nothing.
    ///
    /// # Errors
    ///
    /// A refusal if the payload is shorter than the fields.
    #[tactic(auto, using(crate::proofs::Pairs::paddings))]
    fn parse(payload: &[u8]) -> Result<Self, DecodeError>
        ensures size { IsOk result
            ↔ (accepts (fixed_record Self.Fields.size N) payload.now ≡ true) }
        ensures text { IfOk result
            (λ v. with_zeros (N - Self.Fields.size) (Self.Fields.bytes (fields_of v))
            ≡ encoding (fixed_record Self.Fields.size N)
            (meaning (fixed_record Self.Fields.size N) payload.now)) }
        ensures named { IfOk result (λ v. is_named v) }
        ensures err { IfErr result (λ e. is_memory e ≡ false) }
    {
        match Self::Fields::read_prefix(payload) {
            Some((fields, _)) => Ok(Self::from_fields(fields)),
            None => Err(DecodeError::invalid_number(N, payload.len())),
        }
    }

    /// The fields are within the record.
    ghost fills_record: { Self.Fields.size + (N - Self.Fields.size) ≡ N };
}

/// Writes a record to the start of a buffer, and leaves the rest of the buffer unchanged.
pub(crate) fn write_record<R: FieldRecord<N>, const N: usize>(value: &R, buffer: &mut [u8])
    requires { N ≤ length buffer.old }
    ensures { buffer.new
        ≡ with_zeros (N - R.Fields.size) (R.Fields.bytes (R.fields_of value.now)) ++ drop N buffer.old }
{
    let (prefix, _) = buffer.split_at_mut(N);
    let size = value.fields().write_prefix(prefix);
    let (_, rest) = prefix.split_at_mut(size);
    fill_zeros(rest);
}

/// Returns the bytes of a record.
pub(crate) fn bytes_of<R: FieldRecord<N>, const N: usize>(value: &R) -> [u8; N]
    ensures { result ≡ with_zeros (N - R.Fields.size) (R.Fields.bytes (R.fields_of value.now)) }
{
    let mut bytes = [0; N];
    write_record(value, &mut bytes);
    bytes
}

/// Writes a value to a buffer of its size.
#[tactic(auto, using(crate::proofs::Pairs::whole_texts))]
pub fn emit_record<R: Emitable>(value: &R, buffer: &mut [u8])
    requires ready { R.can_emit value.now }
    requires buffer_size { length buffer.old ≡ length (R.text value.now) }
    ensures { buffer.new ≡ R.text value.now }
{
    value.emit(buffer);
}

/// Fills a buffer with zeros.
fn fill_zeros(buffer: &mut [u8])
    ensures { buffer.new ≡ zeros (length buffer.old) }
{
    buffer.fill(0);
}
