//! Lines.

ghost use Rattle.std.specs.Prelude.{◌≡◌, ◌≤◌, ◌++◌, ◌∷◌, [], length};

use arrayvec::ArrayString;

/// Returns a text as a line. It is on the stack, so no allocation can fail while a fault is
/// reported.
pub(crate) fn line(text: &str) -> ArrayString<129>
    requires { length text.now ≤ 128 }
    ensures { result.bytes ≡ text.now ++ 10 ∷ [] }
{
    let mut line = ArrayString::new();
    line.push_str(text);
    line.push_str("\n");
    line
}
