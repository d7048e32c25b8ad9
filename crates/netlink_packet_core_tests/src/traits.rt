ghost use Rattle.std.specs.Prelude.{◌≡◌, ◌==◌, ◌≤◌, ◌+◌, ◌++◌, [], ◌∷◌, ⊤, true, false, length, drop, slice_index, IfOk};

use netlink_packet_core::{DecodeError, Emitable, Parseable, ParseableParametrized};
use std::alloc::Global;

/// Two bytes.
#[derive(Debug, PartialEq, Eq, Drop)]
struct Pair(u8, u8);

impl Emitable for Pair {
    ghost text = { λ p. p.0 ∷ p.1 ∷ [] };

    ghost can_emit = { λ _. ⊤ };

    fn buffer_len(&self) -> usize {
        2
    }

    fn emit(&self, buffer: &mut [u8]) {
        let (prefix, _) = buffer.split_at_mut(2);
        prefix.copy_from_slice(&[self.0, self.1]);
    }
}

impl<'a> Parseable<&'a [u8]> for Pair {
    ghost can_parse = { λ _. ⊤ };

    ghost accepts = { λ b. length b.now == 2 };

    ghost may_allocate = { λ _. false };

    ghost gives = { λ b p. b.now ≡ p.0 ∷ p.1 ∷ [] };

    fn parse(_alloc: Global, buf: &&'a [u8]) -> Result<Self, DecodeError> {
        match *buf {
            [first, second] => Ok(Pair(*first, *second)),
            bytes => Err(DecodeError::invalid_number(2, bytes.len())),
        }
    }
}

impl<'a> ParseableParametrized<&'a [u8], usize> for Pair {
    ghost can_parse = { λ b at. at + 2 ≤ length b.now };

    ghost accepts = { λ _ _. true };

    ghost may_allocate = { λ _ _. false };

    ghost gives = { λ b at p. (p.0 ≡ slice_index b.now at) × (p.1 ≡ slice_index b.now (at + 1)) };

    fn parse_with_param(
        _alloc: Global,
        buf: &&'a [u8],
        params: usize,
    ) -> Result<Self, DecodeError> {
        Ok(Pair(buf[params], buf[params + 1]))
    }
}

fn rewrite<T: Emitable>(value: &T, buffer: &mut [u8]) -> usize
    requires ready { T.can_emit value.now }
    requires capacity { length (T.text value.now) ≤ length buffer.old }
    ensures { buffer.new ≡ T.text value.now ++ drop (length (T.text value.now)) buffer.old }
{
    value.emit(buffer);
    value.buffer_len()
}

fn read<B, T: Parseable<B>>(alloc: Global, buf: &B) -> Result<T, DecodeError>
    requires { T.can_parse buf.now }
    ensures { IfOk result (λ v. T.gives buf.now v) }
{
    T::parse(alloc, buf)
}

fn read_at<B, T: ParseableParametrized<B, usize>>(
    alloc: Global,
    buf: &B,
    at: usize,
) -> Result<T, DecodeError>
    requires { T.can_parse buf.now at }
    ensures { IfOk result (λ v. T.gives buf.now at v) }
{
    T::parse_with_param(alloc, buf, at)
}

#[test]
fn a_value_is_written_and_read(rt: HostRuntime) {
    let mut buffer = [9u8; 3];
    assert!(rt; rewrite(&Pair(1, 2), &mut buffer) == 2);
    assert!(rt; buffer.as_slice() == [1u8, 2, 9].as_slice());
    assert!(rt; read(rt.alloc(), &&buffer[..2]) == Ok(Pair(1, 2)));
    let refused: Result<Pair, DecodeError> = read(rt.alloc(), &buffer.as_slice());
    assert!(rt; refused.is_err());
    let pair = read_at(rt.alloc(), &buffer.as_slice(), 1);
    assert!(rt; pair == Ok(Pair(2, 9)));
}
