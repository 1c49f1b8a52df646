//! How long names are in the names of files.
ghost use Rattle.std.specs.Prelude.{◌≡◌, ◌≤◌, length};
ghost use Rattle.server_data.specs.Names.{escaped_name, file_name_byte, stands_as_it_is};

/// How many bytes a name takes in the name of a file: one for a letter, a digit or `_` of ASCII, and
/// three for any other byte, which is written as `@` and two hexadecimal digits. The name has at
/// most 67,108,864 bytes. Takes no memory.
pub fn escaped_length(name: &[u8]) -> usize
    requires { length name.now ≤ 67108864 }
    ensures { result ≡ length (escaped_name name.now) }
{
    let mut size: usize = 0;
    for byte in name {
        size += byte_size(*byte);
    }
    size
}

fn byte_size(byte: u8) -> usize
    ensures value { result ≡ length (file_name_byte byte) }
    ensures bound { result ≤ 3 }
{
    if stands(byte) { 1 } else { 3 }
}

fn stands(byte: u8) -> bool
    ensures { result ≡ stands_as_it_is byte }
{
    (b'a' <= byte && byte <= b'z')
        || ((b'A' <= byte && byte <= b'Z') || ((b'0' <= byte && byte <= b'9') || byte == b'_'))
}
