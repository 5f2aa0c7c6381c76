ghost use Rattle.std.specs.Prelude.{◌≡◌, length, nat_eq, nat_le};
ghost use Rattle.values.specs.Bytes.{each, printable};
ghost use Rattle.values.specs.Names.{filled_if};

// Whether each byte is the one given.
pub(crate) fn all_are(byte: u8, bytes: &[u8]) -> bool
    ensures { result ≡ each (nat_eq byte) bytes.now }
{
    bytes.iter().all(|b| *b == byte)
}

pub(crate) fn all_printable(bytes: &[u8]) -> bool
    ensures { result ≡ each printable bytes.now }
{
    bytes.iter().all(|b| matches!(b, b' '..=b'~'))
}

// The bytes filled up with spaces to sixteen; none where there are more.
pub fn fill(bytes: &[u8]) -> Option<[u8; 16]>
    ensures { result ≡ filled_if (nat_le (length bytes.now) 16) bytes.now }
{
    let len = bytes.len();
    if len > 16 {
        return None;
    }
    let mut filled = [b' '; 16];
    filled[0..len].copy_from_slice(bytes);
    Some(filled)
}
