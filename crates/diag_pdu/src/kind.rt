//! The kinds of frames (ISO 15765-2:2016, 9.6), and the lengths that they imply.

ghost use Rattle.std.specs.Prelude.{◌≡◌, ℕ, ◌<◌, ◌≤◌, ◌+◌, Some, length, take, drop, slice_index, ◌*◌};
ghost use Rattle.diag_pdu.specs.Kind.{Ignored, Single, says, kind, single_kind, long_single_kind, first_kind, escape_kind, flow_kind, escape_length, IsRead, IsShort};
ghost use Rattle.diag_pdu.specs.Length.{in_bytes, length_of, single_most};
ghost use Rattle.diag_pdu.specs.Cut.{head_size, consecutive_count, gone_with};

use crate::length::DataLength;
use crate::pci::Pci;

impl Pci<'_> {
    /// What a frame of these bytes, at most 64, is, where messages of up to `max` bytes are taken. The high half
    /// of the first byte tells the kind.
    #[tactic(auto, unfolding(crate::specs::Kind::kind))]
    #[inline(always)]
    pub fn read(bytes: &[u8], max: u16) -> Pci<'_>
        requires { length bytes.now ≤ 64 }
        ensures kind { says result ≡ kind bytes.now max }
        ensures read { IsRead max (kind bytes.now max) }
        ensures short { length bytes.now ≤ 8 → IsShort (kind bytes.now max) }
    {
        let Some((control, rest)) = bytes.split_first() else {
            return Pci::Ignored;
        };
        let low = *control % 16;
        match *control / 16 {
            0 => single(low, bytes),
            1 => first(low, bytes, max),
            2 => Pci::Consecutive {
                sequence_number: low,
                part: rest,
            },
            3 => flow(low, bytes),
            _ => Pci::Ignored,
        }
    }
}

#[inline(always)]
fn single(count: u8, bytes: &[u8]) -> Pci<'_>
    requires some { 1 ≤ length bytes.now }
    requires few { length bytes.now ≤ 64 }
    ensures kind { says result ≡ single_kind count bytes.now }
    ensures read { (max : ℕ) → IsRead max (single_kind count bytes.now) }
    ensures short { length bytes.now ≤ 8 → IsShort (single_kind count bytes.now) }
{
    let len = usize::from(count);
    if len >= 1 && len <= 7 && len < bytes.len() && bytes.len() <= 8 {
        return Pci::Single(&bytes[1..1 + len]);
    }
    match long_single(count, bytes) {
        0 => Pci::Ignored,
        len => Pci::Single(&bytes[2..2 + len]),
    }
}

/// How many bytes the message has of a SingleFrame of more than 8 bytes, behind the first two; 0 where its length isn't valid, and
/// of shorter frames. (A call that answers a number, so that a usual one needn't be put together with it, or lie in memory.)
#[inline(never)]
fn long_single(count: u8, bytes: &[u8]) -> usize
    requires other { length bytes.now ≤ 8 → single_kind count bytes.now ≡ Ignored }
    requires few { length bytes.now ≤ 64 }
    ensures none { result ≡ 0 → single_kind count bytes.now ≡ Ignored }
    ensures some { 0 < result → single_kind count bytes.now ≡ Single (take result (drop 2 bytes.now)) }
    ensures fits { 0 < result → (result + 2 ≤ length bytes.now) × (8 < length bytes.now) }
{
    if bytes.len() <= 8 {
        return 0;
    }
    let len = usize::from(bytes[1]);
    if count == 0 && len >= 8 && len + 2 <= bytes.len() {
        len
    } else {
        0
    }
}

#[inline(always)]
fn first(high: u8, bytes: &[u8], max: u16) -> Pci<'_>
    requires few { length bytes.now ≤ 64 }
    requires nibble { high < 16 }
    requires some { 1 ≤ length bytes.now }
    ensures kind { says result
        ≡ first_kind (high * 256 + slice_index bytes.now 1) (length_of (length bytes.now)) bytes.now max }
    ensures read { IsRead max
        (first_kind (high * 256 + slice_index bytes.now 1) (length_of (length bytes.now)) bytes.now max) }
{
    let Some(rx_dl) = DataLength::of(bytes.len()) else {
        return Pci::Ignored;
    };
    let len = u16::from(high) * 256 + u16::from(bytes[1]);
    if len == 0 {
        escape(rx_dl, bytes, max)
    } else if len <= single_most(rx_dl) {
        Pci::Ignored
    } else if len > max {
        Pci::Overflow
    } else {
        Pci::First {
            len,
            rx_dl,
            head: &bytes[2..],
        }
    }
}

#[inline(never)]
fn escape(rx_dl: DataLength, bytes: &[u8], max: u16) -> Pci<'_>
    requires { length_of (length bytes.now) ≡ Some rx_dl }
    ensures kind { says result ≡ escape_kind (escape_length bytes.now) rx_dl bytes.now max }
    ensures read { IsRead max (escape_kind (escape_length bytes.now) rx_dl bytes.now max) }
{
    let len = u32::from_be_bytes([bytes[2], bytes[3], bytes[4], bytes[5]]);
    if len <= 4095 {
        Pci::Ignored
    } else if len > u32::from(max) {
        Pci::Overflow
    } else {
        Pci::First {
            len: len as u16,
            rx_dl,
            head: &bytes[6..],
        }
    }
}

#[inline(always)]
fn flow(flow_status: u8, bytes: &[u8]) -> Pci<'_>
    ensures kind { says result ≡ flow_kind flow_status bytes.now }
    ensures read { (max : ℕ) → IsRead max (flow_kind flow_status bytes.now) }
{
    if bytes.len() < 3 {
        return Pci::Ignored;
    }
    Pci::FlowControl {
        flow_status,
        block_size: bytes[1],
        st_min: bytes[2],
    }
}

/// The longest message of a SingleFrame of that length.
#[inline(always)]
pub fn single_most(d: DataLength) -> u16
    ensures { result ≡ single_most d }
{
    match d {
        DataLength::Dl8 => 7,
        longer => longer.in_bytes() - 2,
    }
}

/// How many bytes of a message stand in its FirstFrame of that length.
#[inline(always)]
pub fn head_size(d: DataLength, len: u16) -> u16
    ensures { result ≡ head_size d len }
{
    d.in_bytes() - if len <= 4095 { 2 } else { 6 }
}

/// How many bytes go with the FirstFrame and so many ConsecutiveFrames of that length.
#[inline(always)]
pub fn gone_with(d: DataLength, len: u16, count: u16) -> usize
    ensures { result ≡ gone_with d len count }
{
    usize::from(head_size(d, len)) + (usize::from(d.in_bytes()) - 1) * usize::from(count)
}

/// How many ConsecutiveFrames of that length a message has.
#[inline(always)]
pub fn consecutive_count(d: DataLength, len: u16) -> u16
    ensures { result ≡ consecutive_count d len }
{
    let behind = u32::from(len.saturating_sub(head_size(d, len)));
    match d {
        DataLength::Dl8 => ((behind + 6) / 7) as u16,
        longer => {
            let part = u32::from(longer.in_bytes()) - 1;
            ((behind + part - 1) / part) as u16
        }
    }
}
