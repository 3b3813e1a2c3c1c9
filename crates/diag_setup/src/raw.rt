//! A setup before its values are looked at.

ghost use Rattle.std.specs.Prelude.{◌≡◌, ℕ};

use crate::items::Items;

/// A setup as it was read: numbers of any size, lists of any length, in any order. The range that stands at a field is
/// what `check` lets through.
#[derive(Drop)]
pub struct RawSetup {
    /// P2Server_max in milliseconds, 0 to 65535 (ISO 14229-1:2013, 9.2).
    pub p2_ms: u32,
    /// P2*Server_max in units of 10 ms, 0 to 65535 (ISO 14229-1:2013, 9.2).
    pub p2_star_10ms: u32,
    /// S3Server in milliseconds, 1 to 600000.
    pub s3_ms: u32,
    /// N_Bs in milliseconds, 1 to 60000 (ISO 15765-2:2016, 9.8).
    pub n_bs_ms: u32,
    /// N_Cr in milliseconds, 1 to 60000 (ISO 15765-2:2016, 9.8).
    pub n_cr_ms: u32,
    /// BS, 0 to 255 (ISO 15765-2:2016, 9.6.5); 0 is no limit.
    pub block_size: u32,
    /// STmin as its byte (ISO 15765-2:2016, 9.6.5): 0 to 127 are milliseconds, 241 to 249 are 100 to 900 microseconds.
    pub st_min: u32,
    /// The longest request, in bytes, 8 to 65535.
    pub max_request: u32,
    /// Whether frames are padded to 8 bytes.
    pub pad: bool,
    /// The byte that pads them, 0 to 255, and that fills longer ones.
    pub pad_byte: u32,
    /// TX_DL of the frames to testers that talk by CAN FD: 8, 12, 16, 20, 24, 32, 48 or 64 bytes (ISO 15765-2:2016, 9.5).
    pub tx_dl: u32,
    /// The flags in the lines of these frames, 0 to 15.
    pub fd_flags: u32,
    /// DTCStatusAvailabilityMask, 0 to 255 (ISO 14229-1:2013, 11.3).
    pub availability: u32,
    /// The CAN identifier of functional requests, 0 to 0x7FF, of the testers of 11 bits that have none of their own.
    pub functional: u32,
    /// Wrong keys until the delay, 1 to 255 (ISO 14229-1:2013, 9.4).
    pub attempts: u32,
    /// The delay after them, in milliseconds, 1 to 600000.
    pub delay_ms: u32,
    /// 1 to 8 testers, no two of one name. No two CAN identifiers of the setup are equal, but for the functional ones of testers
    /// that all talk by CAN FD, or all by classic CAN.
    pub testers: Items<RawTester>,
    /// Up to 1024 data identifiers, no two equal.
    pub dids: Items<RawDid>,
    /// Up to 4096 DTCs, no two equal.
    pub dtcs: Items<RawDtc>,
    /// Up to 256 routines, no two of one identifier.
    pub routines: Items<RawRoutine>,
    /// Up to 4 security levels, no two of one sub-function.
    pub levels: Items<RawLevel>,
    /// Up to 1024 rows of answers, in the order in which they are looked at, of up to 65536 templates in all.
    pub answers: Items<RawAnswer>,
    /// Up to 256 patterns of requests whose answers aren't compared with a recording's.
    pub ignore: Items<RawPattern>,
}

/// A tester, by its place in the list.
#[derive(Drop)]
pub struct RawTester {
    /// 1 to 16 letters, digits or `_` of ASCII.
    pub name: Items<u8>,
    /// The CAN identifier of its requests, 0 to 0x7FF, or to 0x1FFFFFFF where they have 29 bits.
    pub request: u32,
    /// The CAN identifier of the responses to it, of as many bits.
    pub response: u32,
    /// Whether its identifiers have 29 bits.
    pub extended: bool,
    /// The CAN identifier of its functional requests, of as many bits; where it is left out, 0x18DB33F1 of 29 bits (ISO
    /// 15765-4), or that of 11 bits of the setup.
    pub functional: Option<u32>,
    /// Whether it and the unit talk by CAN FD.
    pub fd: bool,
}

/// A data identifier with its first value.
#[derive(Drop)]
pub struct RawDid {
    /// dataIdentifier, 0 to 0xFFFF (ISO 14229-1:2013, C.1).
    pub id: u32,
    /// Its first value, 1 to 255 bytes.
    pub value: Items<u8>,
    /// The sub-function of the level that reading needs; 0 is open.
    pub read_level: u32,
    /// Whether it can be written.
    pub write: bool,
    /// The sub-function of the level that writing needs; 0 is open.
    pub write_level: u32,
    /// Whether its value varies from run to run of a unit, so that it isn't compared with a recording's.
    pub varies: bool,
}

/// A DTC with its status.
#[derive(Clone, Copy, PartialEq, Eq, Debug, Drop)]
pub struct RawDtc {
    /// The code of three bytes, 0 to 0xFFFFFE.
    pub code: u32,
    /// statusOfDTC, 0 to 255 (ISO 14229-1:2013, D.2).
    pub status: u32,
}

/// A routine.
#[derive(Drop)]
pub struct RawRoutine {
    /// routineIdentifier, 0 to 0xFFFF (ISO 14229-1:2013, 13.2).
    pub id: u32,
    /// How long it runs, in milliseconds, 1 to 600000.
    pub time_ms: u32,
    /// What it gives when it is done, 0 to 32 bytes.
    pub result: Items<u8>,
    /// The sub-function of the level that it needs; 0 is open.
    pub level: u32,
    /// A DTC of the list, which gets the status beside it when the routine is done.
    pub on_done: Option<RawDtc>,
}

/// A seed with its key.
#[derive(Drop)]
pub struct RawKeyRow {
    /// 1 to 255 bytes, not all of them 0.
    pub seed: Items<u8>,
    /// 1 to 255 bytes.
    pub key: Items<u8>,
}

/// A security level: its odd sub-function and its rows.
#[derive(Drop)]
pub struct RawLevel {
    /// The sub-function requestSeed, odd, 1 to 65 (ISO 14229-1:2013, 9.4).
    pub request_seed: u32,
    /// Whether every key of the length of its keys is right.
    pub any_key: bool,
    /// Whether its seeds vary from run to run of a unit, so that they aren't compared with a recording's.
    pub varies: bool,
    /// 1 to 64 rows, whose seeds have one length, and whose keys have one.
    pub rows: Items<RawKeyRow>,
}

/// An item of a pattern: what a byte of a request has to be.
#[derive(Clone, Copy, Drop)]
pub enum PatternItem {
    /// This byte.
    Byte(u8),
    /// Any byte.
    Any,
}

/// A pattern of requests.
#[derive(Drop)]
pub struct RawPattern {
    /// 1 to 64 items: the bytes that the requests begin with.
    pub items: Items<PatternItem>,
    /// Whether they may have more bytes behind those.
    pub more: bool,
}

/// An item of a template: a byte of an answer.
#[derive(Clone, Copy, Drop)]
pub enum TemplateItem {
    /// This byte.
    Byte(u8),
    /// The byte of the request at this index, from 0, which each request of the pattern has.
    OfRequest(u8),
    /// A byte that differs from time to time, so that it isn't compared with a recording's. It is sent as 0.
    Varies,
}

/// A row of answers: for which requests it is, what is answered, and how long after the request.
#[derive(Drop)]
pub struct RawAnswer {
    /// 1 to 64 items: the bytes of the requests that it is for.
    pub pattern: Items<PatternItem>,
    /// Whether a request may have more bytes behind those.
    pub more: bool,
    /// 1 to 4096 templates of up to 4095 items, of which the answers are made in turn; none leaves the answer to the
    /// services. A template of no items sends nothing.
    pub reply: Option<Items<Items<TemplateItem>>>,
    /// The session that it is for, 1 to 126 (ISO 14229-1:2013, 9.2); 0 is any.
    pub session: u32,
    /// The sub-function of the level that it needs; 0 is open.
    pub level: u32,
    /// The session that it enters, 1 to 126; 0 is none, and the only value where there is no reply.
    pub enter: u32,
    /// How long after the request the answer goes, in milliseconds, 0 to 600000, and so soon that at most 255 times
    /// *response pending* (ISO 14229-1:2013, A.1) comes before it.
    pub after_ms: u32,
}

/// A row of a table, which has a key of its own.
pub trait Keyed {
    ghost key_of: { Self → ℕ };

    /// Its key.
    fn key(&self) -> u32
        ensures { result ≡ key_of self.now };
}
