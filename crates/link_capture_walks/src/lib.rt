// Walks through nested lists of attributes: the list that a walk is in (`Listed`), what it collects,
// and the bytes with which it goes on.
#![tactic(auto)]

ghost use Rattle.std.specs.Prelude.{◌≡◌, ◌≤◌, drop, length};

mod listed;

pub use listed::Listed;

/// Returns the bytes after the first `skipped`.
pub fn following(bytes: &[u8], skipped: usize) -> &[u8]
    requires { skipped ≤ length bytes.now }
    ensures { result.now ≡ drop skipped bytes.now }
{
    &bytes[skipped..]
}
