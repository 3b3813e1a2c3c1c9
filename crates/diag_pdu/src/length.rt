//! The lengths of the frames of segmented messages (ISO 15765-2:2016, 9.5; ISO 11898-1, data length code).

ghost use Rattle.std.specs.Prelude.{◌≡◌, ◌≤◌};
ghost use Rattle.diag_pdu.specs.Length.{in_bytes, length_of, next_length};

/// How long the frames of a segmented message are: RX_DL where it is received, TX_DL where it is sent. On classic CAN they
/// have 8 bytes, on CAN FD 8 to 64.
#[derive(Clone, Copy)]
pub enum DataLength {
    Dl8,
    Dl12,
    Dl16,
    Dl20,
    Dl24,
    Dl32,
    Dl48,
    Dl64,
}

impl DataLength {
    /// That of a FirstFrame of so many bytes; None where no FirstFrame has so many.
    #[inline(always)]
    pub fn of(bytes: usize) -> Option<DataLength>
        ensures { result ≡ length_of bytes }
    {
        match bytes {
            8 => Some(DataLength::Dl8),
            12 => Some(DataLength::Dl12),
            16 => Some(DataLength::Dl16),
            20 => Some(DataLength::Dl20),
            24 => Some(DataLength::Dl24),
            32 => Some(DataLength::Dl32),
            48 => Some(DataLength::Dl48),
            64 => Some(DataLength::Dl64),
            _ => None,
        }
    }

    /// The number of bytes.
    #[inline(always)]
    pub fn in_bytes(self) -> u16
        ensures value { result ≡ in_bytes self }
        ensures fits { (8 ≤ result) × (result ≤ 64) }
    {
        match self {
            DataLength::Dl8 => 8,
            DataLength::Dl12 => 12,
            DataLength::Dl16 => 16,
            DataLength::Dl20 => 20,
            DataLength::Dl24 => 24,
            DataLength::Dl32 => 32,
            DataLength::Dl48 => 48,
            DataLength::Dl64 => 64,
        }
    }
}

/// The least length of a frame that has room for so many bytes, of those that frames of CAN FD have.
pub(crate) fn next_length(count: usize) -> usize
    requires { count ≤ 64 }
    ensures next { result ≡ next_length count }
    ensures room { (count ≤ result) × (result ≤ 64) }
{
    match count {
        0..=8 => count,
        9..=12 => 12,
        13..=16 => 16,
        17..=20 => 20,
        21..=24 => 24,
        25..=32 => 32,
        33..=48 => 48,
        _ => 64,
    }
}
