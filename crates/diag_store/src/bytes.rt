//! Bytes of a length that has a bound.

ghost use Rattle.std.specs.Prelude.{◌≡◌, ◌≤◌, length};

use arrayvec::ArrayVec;

/// These bytes.
pub(crate) fn bytes_of<const MOST: usize>(bytes: &[u8]) -> ArrayVec<u8, MOST>
    requires { length bytes.now ≤ MOST }
    ensures { result.items ≡ bytes.now }
{
    let Ok(bytes) = ArrayVec::try_from(bytes) else {
        unreachable!()
    };
    bytes
}
