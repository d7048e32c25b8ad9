ghost use Rattle.std.specs.Prelude.{◌≡◌, ◌+◌, ◌≤◌, length};
ghost use Rattle.netlink_packet_core.specs.Bytes.{put_at};

use netlink_packet_core::{ByteLend, ByteView, ByteViewMut};
use std::test::Fail;

/// Writes two bytes to any storage that can be overwritten, and returns its length.
fn write_two<T: ByteViewMut>(storage: &mut T, at: usize, bytes: &[u8; 2]) -> usize
    requires { at + 2 ≤ length (T.ByteView.bytes storage.old) }
    ensures { T.ByteView.bytes storage.new ≡ put_at at bytes.now (T.ByteView.bytes storage.old) }
{
    storage.write_at(at, bytes);
    storage.as_bytes().len()
}

#[test]
fn bytes_are_written_at_each_storage(rt: HostRuntime) -> Result<(), Fail> {
    let mut array = [1u8, 2, 3, 4];
    assert!(rt; write_two(&mut array.as_mut_slice(), 1, &[8, 9]) == 4);
    assert!(rt; array == [1, 8, 9, 4]);
    let mut vector = [1u8, 2, 3, 4].to_vec(rt.alloc())?;
    assert!(rt; write_two(&mut vector, 2, &[8, 9]) == 4);
    vector.part_mut(3, 4).fill(5);
    assert!(rt; write_two(&mut &mut vector, 0, &[6, 7]) == 4);
    assert!(rt; vector.as_slice() == [6u8, 7, 8, 5].as_slice());
    Ok(())
}
