//! The bytes of hex text, appended to a list. (The library `hex` looks at each digit by itself.)

ghost use Rattle.std.specs.Prelude.{◌≡◌, ◌≤◌, ◌+◌, ◌/◌, ◌++◌, [], length, IsOk, vec_len, vec_capacity};
ghost use Rattle.std.specs.Result.{result_unwrap_or};
ghost use Rattle.hex.specs.Hex.{decode_of};

use crate::table::byte;

/// Appends the bytes that hex text of either case writes, two digits a byte, where there is room for them.
pub fn read_hex(bytes: &mut Vec<u8>, text: &[u8])
    requires hex { IsOk (decode_of text.now) }
    requires room { vec_len bytes.old + length text.now / 2 ≤ vec_capacity bytes.old }
    ensures items { bytes.new.items
        ≡ bytes.old.items ++ result_unwrap_or (decode_of text.now) [] }
    ensures len { vec_len bytes.new ≡ vec_len bytes.old + length text.now / 2 }
    ensures capacity { vec_capacity bytes.new ≡ vec_capacity bytes.old }
{
    for count in 0..text.len() / 2 {
        bytes.push_reserved(byte(text[2 * count], text[2 * count + 1]));
    }
}
