ghost use Rattle.std.specs.Prelude.{◌≡◌};
ghost use Rattle.values.specs.Kept.{bytes_held};

// Sixteen bytes in two numbers, eight to a number with the first byte highest, so that the order of
// the numbers is the order byte by byte.
#[derive(Clone, Copy, Debug, PartialEq, Eq, PartialOrd, Ord)]
pub struct SixteenBytes {
    pub(crate) high: u64,
    pub(crate) low: u64,
}

impl From<[u8; 16]> for SixteenBytes {
    ghost from_gives = { λ bs s. bytes_held s ≡ bs };

    fn from(bytes: [u8; 16]) -> SixteenBytes {
        let [a, b, c, d, e, f, g, h, i, j, k, l, m, n, o, p] = bytes;
        SixteenBytes {
            high: u64::from_be_bytes([a, b, c, d, e, f, g, h]),
            low: u64::from_be_bytes([i, j, k, l, m, n, o, p]),
        }
    }
}

impl From<SixteenBytes> for [u8; 16] {
    ghost from_gives = { λ s bs. bs ≡ bytes_held s };

    fn from(held: SixteenBytes) -> [u8; 16] {
        let mut bytes = [0; 16];
        bytes[..8].copy_from_slice(&held.high.to_be_bytes());
        bytes[8..].copy_from_slice(&held.low.to_be_bytes());
        bytes
    }
}
