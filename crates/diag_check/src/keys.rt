//! The keys of a setup: the table that says what each may hold. A new key is a row of it.

use std::fmt;

/// The table of a setup that a key stands in.
#[derive(Clone, Copy, PartialEq, Eq)]
pub enum Table {
    /// The whole unit: the top of the file.
    Unit,
    Tester,
    Did,
    Code,
    Routine,
    Level,
    /// A seed with its key, of a level.
    LevelRow,
    Answer,
}

impl Table {
    /// As it stands between `[[` and `]]`.
    pub fn path(self) -> &'static str {
        match self {
            Table::Unit => "",
            Table::Tester => "tester",
            Table::Did => "did",
            Table::Code => "code",
            Table::Routine => "routine",
            Table::Level => "level",
            Table::LevelRow => "level.row",
            Table::Answer => "answer",
        }
    }

    /// The table with this path between `[[` and `]]`.
    pub fn of(path: &str) -> Option<Table> {
        for key in &KEYS {
            if let Kind::Rows(table, _) = key.kind {
                if table.path() == path {
                    return Some(table);
                }
            }
        }
        None
    }
}

/// What a key may hold.
#[derive(Clone, Copy)]
pub enum Kind {
    /// A number from the first to the second.
    Number(u32, u32),
    /// A byte, as the bits of a status.
    Byte,
    /// An identifier from 0 to this one, which is told in hex.
    Identifier(u32),
    /// STmin as its byte (ISO 15765-2:2016, 9.6.5).
    Separation,
    /// TX_DL: how long the longest frames are (ISO 15765-2:2016, 9.5).
    DataLength,
    /// The odd sub-function of a security level (ISO 14229-1:2013, 9.4).
    SubFunction,
    /// The code of a `[[code]]`. Whether one has it is looked at last, so here it is any number.
    KnownCode,
    /// 0 or the sub of a `[[level]]`; here it is any number, too.
    KnownLevel,
    Truth,
    /// A tester's name.
    Name,
    /// Bytes in hex, from so many to so many.
    Bytes(usize, usize),
    /// The bytes of a seed.
    Seed,
    /// The pattern of a row of answers.
    Pattern,
    /// The templates of a row of answers.
    Templates,
    /// A list of patterns.
    Patterns,
    /// The tables of a list, at most so many.
    Rows(Table, usize),
}

/// Whether a key has to be there.
#[derive(Clone, Copy)]
pub enum Need {
    Must,
    May,
    /// It counts beside this key alone, and has to be there then.
    Beside(&'static str),
}

/// A row of the table of keys.
pub struct Key {
    /// The key as the table writes it, as `tester.name`.
    pub path: &'static str,
    /// Its name in its table, as `name`.
    pub name: &'static str,
    pub table: Table,
    pub kind: Kind,
    pub need: Need,
}

/// The most rows of answers.
pub const MOST_ANSWERS: usize = 1024;

/// The greatest identifier of 11 bits.
pub const MOST_STANDARD: u32 = 0x7FF;

/// The greatest identifier of 29 bits.
const MOST_EXTENDED: u32 = 0x1FFF_FFFF;

/// The greatest number of a DTC.
pub const MOST_CODE: u32 = 0xFF_FFFE;

/// A key of the whole unit, which may be left out.
macro_rules! unit {
    ($name:literal, $kind:expr) => {
        Key {
            path: $name,
            name: $name,
            table: Table::Unit,
            kind: $kind,
            need: Need::May,
        }
    };
}

/// A key of a list's tables.
macro_rules! key {
    ($path:literal, $name:literal, $table:expr, $kind:expr, $need:expr) => {
        Key {
            path: $path,
            name: $name,
            table: $table,
            kind: $kind,
            need: $need,
        }
    };
}

/// All keys, in the order in which a setup is read.
pub static KEYS: [Key; 55] = [
    unit!("p2_ms", Kind::Number(0, 65_535)),
    unit!("p2_star_10ms", Kind::Number(0, 65_535)),
    unit!("s3_ms", Kind::Number(1, 600_000)),
    unit!("n_bs_ms", Kind::Number(1, 60_000)),
    unit!("n_cr_ms", Kind::Number(1, 60_000)),
    unit!("block_size", Kind::Number(0, 255)),
    unit!("st_min", Kind::Separation),
    unit!("max_request", Kind::Number(8, 65_535)),
    unit!("pad", Kind::Truth),
    unit!("pad_byte", Kind::Byte),
    unit!("tx_dl", Kind::DataLength),
    unit!("fd_flags", Kind::Number(0, 15)),
    unit!("availability", Kind::Byte),
    unit!("functional", Kind::Identifier(MOST_STANDARD)),
    unit!("attempts", Kind::Number(1, 255)),
    unit!("delay_ms", Kind::Number(1, 600_000)),
    unit!("ignore", Kind::Patterns),
    unit!("tester", Kind::Rows(Table::Tester, 8)),
    unit!("did", Kind::Rows(Table::Did, 1024)),
    unit!("code", Kind::Rows(Table::Code, 4096)),
    unit!("routine", Kind::Rows(Table::Routine, 256)),
    unit!("level", Kind::Rows(Table::Level, 4)),
    unit!("answer", Kind::Rows(Table::Answer, MOST_ANSWERS)),
    key!("tester.name", "name", Table::Tester, Kind::Name, Need::Must),
    key!(
        "tester.request",
        "request",
        Table::Tester,
        Kind::Identifier(MOST_EXTENDED),
        Need::Must
    ),
    key!(
        "tester.response",
        "response",
        Table::Tester,
        Kind::Identifier(MOST_EXTENDED),
        Need::Must
    ),
    key!(
        "tester.extended",
        "extended",
        Table::Tester,
        Kind::Truth,
        Need::May
    ),
    key!(
        "tester.functional",
        "functional",
        Table::Tester,
        Kind::Identifier(MOST_EXTENDED),
        Need::May
    ),
    key!("tester.fd", "fd", Table::Tester, Kind::Truth, Need::May),
    key!(
        "did.id",
        "id",
        Table::Did,
        Kind::Identifier(0xFFFF),
        Need::Must
    ),
    key!(
        "did.value",
        "value",
        Table::Did,
        Kind::Bytes(1, 255),
        Need::Must
    ),
    key!(
        "did.read_level",
        "read_level",
        Table::Did,
        Kind::KnownLevel,
        Need::May
    ),
    key!("did.write", "write", Table::Did, Kind::Truth, Need::May),
    key!(
        "did.write_level",
        "write_level",
        Table::Did,
        Kind::KnownLevel,
        Need::May
    ),
    key!("did.varies", "varies", Table::Did, Kind::Truth, Need::May),
    key!(
        "code.code",
        "code",
        Table::Code,
        Kind::Identifier(MOST_CODE),
        Need::Must
    ),
    key!("code.status", "status", Table::Code, Kind::Byte, Need::Must),
    key!(
        "routine.id",
        "id",
        Table::Routine,
        Kind::Identifier(0xFFFF),
        Need::Must
    ),
    key!(
        "routine.time_ms",
        "time_ms",
        Table::Routine,
        Kind::Number(1, 600_000),
        Need::Must
    ),
    key!(
        "routine.result",
        "result",
        Table::Routine,
        Kind::Bytes(0, 32),
        Need::May
    ),
    key!(
        "routine.level",
        "level",
        Table::Routine,
        Kind::KnownLevel,
        Need::May
    ),
    key!(
        "routine.code",
        "code",
        Table::Routine,
        Kind::KnownCode,
        Need::May
    ),
    key!(
        "routine.status",
        "status",
        Table::Routine,
        Kind::Byte,
        Need::Beside("code")
    ),
    key!(
        "level.sub",
        "sub",
        Table::Level,
        Kind::SubFunction,
        Need::Must
    ),
    key!(
        "level.any_key",
        "any_key",
        Table::Level,
        Kind::Truth,
        Need::May
    ),
    key!(
        "level.varies",
        "varies",
        Table::Level,
        Kind::Truth,
        Need::May
    ),
    key!(
        "level.row",
        "row",
        Table::Level,
        Kind::Rows(Table::LevelRow, 64),
        Need::May
    ),
    key!(
        "level.row.seed",
        "seed",
        Table::LevelRow,
        Kind::Seed,
        Need::Must
    ),
    key!(
        "level.row.key",
        "key",
        Table::LevelRow,
        Kind::Bytes(1, 255),
        Need::Must
    ),
    key!(
        "answer.request",
        "request",
        Table::Answer,
        Kind::Pattern,
        Need::Must
    ),
    key!(
        "answer.reply",
        "reply",
        Table::Answer,
        Kind::Templates,
        Need::May
    ),
    key!(
        "answer.session",
        "session",
        Table::Answer,
        Kind::Number(0, 126),
        Need::May
    ),
    key!(
        "answer.level",
        "level",
        Table::Answer,
        Kind::KnownLevel,
        Need::May
    ),
    key!(
        "answer.enter",
        "enter",
        Table::Answer,
        Kind::Number(0, 126),
        Need::May
    ),
    key!(
        "answer.after_ms",
        "after_ms",
        Table::Answer,
        Kind::Number(0, 600_000),
        Need::May
    ),
];

impl Key {
    /// Whether it holds a list of tables.
    pub fn is_list(&self) -> bool {
        matches!(self.kind, Kind::Rows(..))
    }
}

impl Kind {
    /// Whether it holds a number.
    pub fn is_number(self) -> bool {
        matches!(
            self,
            Kind::Number(..)
                | Kind::Byte
                | Kind::Identifier(_)
                | Kind::Separation
                | Kind::DataLength
                | Kind::SubFunction
                | Kind::KnownCode
                | Kind::KnownLevel
        )
    }

    /// Whether its numbers are usually written in hex.
    pub fn is_in_hex(self) -> bool {
        matches!(self, Kind::Byte | Kind::Identifier(_) | Kind::KnownCode)
    }

    /// What a value of the kind is, in words, whatever its range.
    fn is_what(self) -> &'static str {
        match self {
            Kind::Number(..)
            | Kind::Byte
            | Kind::Identifier(_)
            | Kind::Separation
            | Kind::DataLength
            | Kind::SubFunction => "a whole number",
            Kind::KnownCode => "the code of a [[code]]",
            Kind::KnownLevel => "0 or the sub of a [[level]]",
            Kind::Truth => "true or false",
            Kind::Name => "a text in quotes",
            Kind::Bytes(..) | Kind::Seed => {
                "bytes in hex, in quotes, two digits each and nothing between them"
            }
            Kind::Pattern => {
                "a pattern, in quotes: items of two hex digits or .. each, and maybe one * at its end"
            }
            Kind::Templates => {
                "a list of templates: items of two hex digits, $ and one hex digit, or ?? each"
            }
            Kind::Patterns => {
                "a list of patterns: items of two hex digits or .. each, and maybe one * at its end"
            }
            Kind::Rows(..) => "a list of tables",
        }
    }
}

/// What a value of a kind is, in words, and of a number its range, too.
#[derive(Clone, Copy)]
pub struct Wanted(pub Kind);

impl fmt::Display for Wanted {
    fn fmt<W: fmt::Write>(&self, f: &mut fmt::Formatter<W>) -> fmt::Result {
        let kind = self.0;
        let what = kind.is_what();
        match kind {
            Kind::Identifier(MOST_EXTENDED) => {
                write!(
                    f,
                    "{what} from 0 to 0x{MOST_STANDARD:X}, with extended = true to 0x{MOST_EXTENDED:X}"
                )
            }
            Kind::Number(..) | Kind::Byte | Kind::Identifier(_) | Kind::Separation => {
                write!(f, "{what} from {kind}")
            }
            Kind::DataLength | Kind::SubFunction => write!(f, "{kind}"),
            _ => f.write_str(what),
        }
    }
}

/// What is allowed, in words.
impl fmt::Display for Kind {
    fn fmt<W: fmt::Write>(&self, f: &mut fmt::Formatter<W>) -> fmt::Result {
        match self {
            Kind::Number(least, most) => write!(f, "{least} to {most}"),
            Kind::Byte => write!(f, "0 to 255"),
            Kind::Identifier(most) => write!(f, "0 to 0x{most:X}"),
            Kind::Separation => write!(f, "0 to 127 or 241 to 249"),
            Kind::DataLength => write!(f, "8, 12, 16, 20, 24, 32, 48 or 64"),
            Kind::SubFunction => write!(f, "an odd number from 1 to 65"),
            Kind::Name => write!(f, "1 to 16 ASCII letters, digits or _"),
            Kind::Bytes(least, most) => write!(f, "{least} to {most} bytes"),
            Kind::Seed => write!(f, "1 to 255 bytes, not all zero"),
            Kind::Pattern => write!(f, "1 to 64 items"),
            Kind::Templates => write!(f, "1 to 4096 templates of at most 4095 items each"),
            Kind::Patterns => write!(f, "at most 256 patterns of 1 to 64 items each"),
            Kind::Rows(_, most) => write!(f, "at most {most}"),
            Kind::KnownCode | Kind::KnownLevel | Kind::Truth => write!(f, "{}", self.is_what()),
        }
    }
}
