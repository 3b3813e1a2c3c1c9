//! Replaying a journal's text as it is read, entry by entry; none is kept.
ghost use Rattle.std.specs.Prelude.{◌≡◌, ◌+◌, ◌++◌, ◌∷◌, ◌≤◌, ◌↔◌, ◌≢◌, [], true, false, ℕ, List, length, Err, None, Some, IfOk, IfErr, IfSome, IfNone, OnOk, OnErr, IsTrue, option_copied, option_map};
ghost use Rattle.std.specs.Bool.{OnTrue, OnFalse};
ghost use Rattle.hex.specs.Hex.{encode_upper};
ghost use Rattle.diag_setup.specs.declared.raw.RawSetup.{RawSetup};
ghost use Rattle.diag_ecu.specs.State.{opening};
ghost use Rattle.diag_ecu.specs.Respond as ecu;
ghost use Rattle.diag_desk.specs.declared.entry.Entry.{Entry};
ghost use Rattle.diag_desk.specs.Entry.{IsEntry, IsMessage};
ghost use Rattle.diag_desk.specs.Fault.{FaultAt};
ghost use Rattle.diag_desk.specs.FaultText.{text_fault_text};
ghost use Rattle.diag_desk.specs.Following.{Answered, AsksEcu, Followed, FollowedIn, Follows, HasFollowed, HasRequest, HasTaken, IsReplayed, IsUsual, Plays, TextDiffers, read_so_far};
ghost use Rattle.diag_desk.specs.Legal.{after_step, is_ticks, reply_to};
ghost use Rattle.diag_desk.specs.Line.{HasHex, IsHex, IsHexReply, decoded, fronted, kind_code, line_entry, request_kind};
ghost use Rattle.diag_desk.specs.declared.line.Kind.TheVariants as kind;
ghost use Rattle.diag_desk.specs.PartRead.{HasNoNext};
ghost use Rattle.diag_can.specs.Pieces.{TakesLines};
ghost use Rattle.diag_can.specs.BusLine.{HasNoFeed};

use crate::clocks::Clocks;
use crate::entry::MOST_ENTRIES;
use crate::flat::{append_hex, decoded_len, tell_bytes};
use crate::line::{Line, LineStep, cut};
use crate::next::{LineFault, clock_with, next_line};
use crate::read::{JournalFault, version_of};
use crate::usual::{
    ReadFront, behind, behind_lent, behind_reply, count_front, is_functional, line_front,
    read_front, read_request, short_front,
};
use crate::version::JournalVersion;
use diag_ecu::{Decision, Ecu, Effect};
use diag_pdu::Message;
use diag_setup::{Setup, TesterId};
use std::alloc::{AllocError, Global};
use std::error::Error;
use std::fmt;

/// What the replay of a text leaves.
#[derive(Drop)]
pub struct Replayed {
    /// The number of entries.
    pub entries: usize,
    /// The ECU after them.
    pub ecu: Ecu,
}

/// Why a text is not replayed to its end.
#[derive(Clone, Copy, PartialEq, Eq, Debug, Drop)]
pub enum TextFault {
    /// The first line at fault, counted from 1.
    Line(usize),
    /// No line is at fault. The first entry, counted from 1, whose tester isn't in the setup or whose reply isn't the
    /// ECU's.
    Differs(usize),
}

impl fmt::Display for TextFault {
    ghost output = { λ x. Some (text_fault_text x) };

    fn fmt<W: fmt::Write>(&self, f: &mut fmt::Formatter<W>) -> fmt::Result {
        match self {
            TextFault::Line(n) => write!(f, "journal line {n}"),
            TextFault::Differs(n) => write!(f, "entry {n} differs"),
        }
    }
}

impl Error for TextFault {}

/// The ECU that plays the entries, up to the first that differs.
#[derive(Drop)]
pub(crate) struct Play {
    ecu: Ecu,
    /// The first entry that differs, counted from 1.
    differs: Option<usize>,
    /// The messages of one line.
    bytes: Vec<u8>,
}

/// What is known of the entries that were read so far.
#[derive(Drop)]
pub(crate) struct Follower {
    version: JournalVersion,
    clocks: Clocks,
    count: usize,
    play: Play,
}

impl Play {
    /// Plays an entry, the one of this number, unless one before it differs.
    fn take(
        &mut self,
        alloc: Global,
        setup: &Setup,
        number: usize,
        line: &Line<'_>,
    ) -> Result<(), AllocError>
        requires hex { HasHex line.now.step }
        requires entry { IsEntry (line_entry line.now) }
        ensures ok { OnOk result ((past : List Entry)
            → number ≡ length past + 1
            → Plays setup.now self.old past
            → Plays setup.now self.new (past ++ line_entry line.now ∷ [])) }
        ensures memory { OnErr result ((self.old.differs ≡ None)
            × (line.now.who ≤ length setup.now.testers)
            × (is_ticks (line_entry line.now).step ≡ false)) }
    {
        if self.differs.is_some() {
            return Ok(());
        }
        if self.plays(alloc, setup, line)? {
            return Ok(());
        }
        self.differs = Some(number);
        Ok(())
    }

    /// Plays an entry where its tester is in the setup and the ECU's reply is its own; whether it is so.
    fn plays(&mut self, alloc: Global, setup: &Setup, line: &Line<'_>) -> Result<bool, AllocError>
        requires hex { HasHex line.now.step }
        requires entry { IsEntry (line_entry line.now) }
        ensures differs { self.new.differs ≡ self.old.differs }
        ensures yes { IfOk result (λ same. OnTrue same (let e = line_entry line.now in
            (e.who ≤ length setup.now.testers)
            × (e.reply ≡ reply_to self.old.ecu e.who e.step)
            × (self.new.ecu ≡ after_step self.old.ecu e.who e.step))) }
        ensures no { IfOk result (λ same. OnFalse same (let e = line_entry line.now in
            e.who ≤ length setup.now.testers
            → e.reply ≡ reply_to self.old.ecu e.who e.step
            → ⊥)) }
        ensures memory { OnErr result ((line.now.who ≤ length setup.now.testers)
            × (is_ticks (line_entry line.now).step ≡ false)) }
    {
        if setup.testers() < usize::from(line.who.number()) {
            return Ok(false);
        }
        match line.step {
            LineStep::Request {
                functional,
                message,
                reply,
            } => self.answers(alloc, line.who, functional, message, reply),
            LineStep::Ticks(count) => {
                self.ecu.ticks(line.who, count);
                Ok(true)
            }
        }
    }

    /// Whether the ECU's reply to a request is this one; where it is, the ECU settles.
    fn answers(
        &mut self,
        alloc: Global,
        who: TesterId,
        functional: bool,
        message: &[u8],
        reply: Option<&[u8]>,
    ) -> Result<bool, AllocError>
        requires hex { IsHex message.now }
        requires reply { IsHexReply (option_copied reply) }
        ensures differs { self.new.differs ≡ self.old.differs }
        ensures reply { IfOk result (λ same. IsTrue same
            ↔ (option_map decoded (option_copied reply.entry)
            ≡ ecu.reply self.old.ecu who functional (decoded message.now))) }
        ensures state { IfOk result (λ same. OnTrue same
            (self.new.ecu ≡ ecu.after_request self.old.ecu who (decoded message.now))) }
    {
        read_into(&mut self.bytes, message)?;
        let message = Message::of(alloc, self.bytes.as_slice())?;
        let mut said = None;
        let decided = self
            .ecu
            .put_reply(who, functional, message.bytes(), &mut said)?;
        if !is_said(&mut self.bytes, reply, said.as_ref())? {
            return Ok(false);
        }
        self.ecu.apply(who, message.bytes(), decided);
        Ok(true)
    }

    /// Plays a request that is read from the front of a text, where the reply there is the ECU's; what follows the line.
    ///
    /// None where it isn't, where there is no request, and where memory is refused: then the ECU is as before.
    #[inline(always)]
    fn answers_front<'a>(
        &mut self,
        who: TesterId,
        functional: bool,
        text: &'a [u8],
    ) -> Option<&'a [u8]>
        ensures differs { self.new.differs ≡ self.old.differs }
        ensures some { IfSome result (λ rest.
            Answered self.old.ecu self.new.ecu who functional text.now rest.now) }
        ensures none { IfNone result (self.new.ecu ≡ self.old.ecu) }
    {
        if let Some(front) = read_request(text) {
            return answers_read(&mut self.ecu, who, functional, front);
        }
        let (bytes, rest) = short_front(text);
        let bytes = bytes.as_slice();
        if let Some(rest) = behind(b' ', rest) {
            if is_message(bytes) {
                return answers_bytes(&mut self.ecu, who, functional, bytes, rest);
            }
        }
        self.answers_long(who, functional, text)
    }

    /// It too, for a request of any length, which is read into memory.
    #[inline(never)]
    fn answers_long<'a>(
        &mut self,
        who: TesterId,
        functional: bool,
        text: &'a [u8],
    ) -> Option<&'a [u8]>
        ensures differs { self.new.differs ≡ self.old.differs }
        ensures some { IfSome result (λ rest.
            Answered self.old.ecu self.new.ecu who functional text.now rest.now) }
        ensures none { IfNone result (self.new.ecu ≡ self.old.ecu) }
    {
        let Ok(text) = read_front(&mut self.bytes, text) else {
            return None;
        };
        let Some(text) = behind(b' ', text) else {
            return None;
        };
        let bytes = self.bytes.as_slice();
        if !is_message(bytes) {
            return None;
        }
        answers_bytes(&mut self.ecu, who, functional, bytes, text)
    }
}

/// Has the ECU take a request for one identifier where the reply at the front of a text is its own; what follows the
/// line. None where it isn't: then the ECU is as before.
#[inline(always)]
fn answers_read<'a>(
    ecu: &mut Ecu,
    who: TesterId,
    functional: bool,
    front: ReadFront<'a>,
) -> Option<&'a [u8]>
    ensures some { IfSome result (λ rest. Answered ecu.old ecu.new who functional
        (encode_upper (0x22 ∷ front.entry.high ∷ front.entry.low ∷ []) ++ 32 ∷ front.entry.rest.now)
        rest.now) }
    ensures none { IfNone result (ecu.new ≡ ecu.old) }
{
    tell_read(front.high, front.low);
    if ecu.has_answers() {
        return None;
    }
    let lent = ecu.lent_reply(who, functional, front.high, front.low);
    let Some(text) = behind_lent(lent, front.rest) else {
        return None;
    };
    let Some(rest) = behind(b'\n', text) else {
        return None;
    };
    let nothing = Decision {
        effect: Effect::Nothing,
        after_ms: 0,
    };
    ecu.apply(who, &[0x22, front.high, front.low], nothing);
    Some(rest)
}

/// Whether so many bytes are a message.
fn is_message(bytes: &[u8]) -> bool
    ensures { IsTrue result ↔ IsMessage bytes.now }
{
    tell_bytes(bytes);
    !bytes.is_empty() && bytes.len() <= Message::MAX
}

/// Tells that a request for one identifier is a message.
fn tell_read(high: u8, low: u8)
    ensures { IsMessage (0x22 ∷ high ∷ low ∷ []) }
{
    tell_bytes(&[0x22, high, low]);
}

/// Has the ECU take a request where the reply at the front of a text is its own; what follows the line. None where it
/// isn't, and where memory is refused: then the ECU is as before.
#[inline(always)]
fn answers_bytes<'a>(
    ecu: &mut Ecu,
    who: TesterId,
    functional: bool,
    bytes: &[u8],
    text: &'a [u8],
) -> Option<&'a [u8]>
    requires { IsMessage bytes.now }
    ensures some { IfSome result (λ rest. Answered ecu.old ecu.new who functional
        (encode_upper bytes.now ++ 32 ∷ text.now) rest.now) }
    ensures none { IfNone result (ecu.new ≡ ecu.old) }
{
    let mut said = None;
    let Ok(decided) = ecu.put_reply(who, functional, bytes, &mut said) else {
        return None;
    };
    let Some(text) = behind_reply(said.as_ref(), text) else {
        return None;
    };
    let Some(rest) = behind(b'\n', text) else {
        return None;
    };
    ecu.apply(who, bytes, decided);
    Some(rest)
}

/// The bytes of a message's hex text, in place of what the list had.
fn read_into(bytes: &mut Vec<u8>, text: &[u8]) -> Result<(), AllocError>
    requires { IsHex text.now }
    ensures { OnOk result (bytes.new.items ≡ decoded text.now) }
{
    bytes.clear();
    bytes.reserve(decoded_len(text))?;
    append_hex(bytes, text);
    Ok(())
}

/// Whether a reply in hex is the ECU's.
fn is_said(
    bytes: &mut Vec<u8>,
    text: Option<&[u8]>,
    said: Option<&Message>,
) -> Result<bool, AllocError>
    requires { IsHexReply (option_copied text) }
    ensures { IfOk result (λ same. IsTrue same
        ↔ (option_map decoded (option_copied text.entry) ≡ option_copied said.entry)) }
{
    match (text, said) {
        (Some(text), Some(said)) => {
            read_into(bytes, text)?;
            Ok(bytes.as_slice() == said.bytes())
        }
        (None, None) => Ok(true),
        _ => Ok(false),
    }
}

impl Follower {
    /// Nothing was read so far.
    fn new(alloc: Global, ecu: Ecu) -> Follower
        ensures { (setup : RawSetup) → ecu ≡ opening setup → Follows setup result [] }
    {
        Follower {
            version: JournalVersion::Plain,
            clocks: Clocks::new(),
            count: 0,
            play: Play {
                ecu,
                differs: None,
                bytes: Vec::new(alloc),
            },
        }
    }

    /// Takes the line at the front of a text where it is of the usual form, and gives what follows it: an entry without a
    /// stamp, whose reply is the ECU's. None where it isn't, and where memory is refused.
    #[inline(always)]
    fn take_usual<'a>(&mut self, setup: &Setup, text: &'a [u8]) -> Option<&'a [u8]>
        requires { (past : List Entry) × Follows setup.now self.old past }
        ensures some { IfSome result (λ rest. (past : List Entry)
            → Follows setup.now self.old past
            → FollowedIn setup.now self.old self.new past text.now rest.now) }
        ensures none { IfNone result ((past : List Entry)
            → Follows setup.now self.old past
            → Follows setup.now self.new past) }
        ensures version { self.new.version ≡ self.old.version }
    {
        let JournalVersion::Plain = self.version else {
            return None;
        };
        if self.count >= MOST_ENTRIES || self.play.differs.is_some() {
            return None;
        }
        let Some(front) = line_front(text) else {
            return None;
        };
        if setup.testers() < usize::from(front.who.number()) {
            return None;
        }
        match is_functional(front.kind) {
            Some(functional) => self.take_request(setup, front.who, functional, front.rest),
            None => self.take_ticks(setup, front.who, front.rest),
        }
    }

    /// Takes the rest of a request's line.
    #[inline(always)]
    fn take_request<'a>(
        &mut self,
        setup: &Setup,
        who: TesterId,
        functional: bool,
        text: &'a [u8],
    ) -> Option<&'a [u8]>
        requires usual { IsUsual setup.now self.old who }
        ensures some { IfSome result (λ rest. (past : List Entry)
            → Follows setup.now self.old past
            → FollowedIn setup.now self.old self.new past
            (fronted (48 + who) (kind_code (request_kind functional)) text.now) rest.now) }
        ensures none { IfNone result ((past : List Entry)
            → Follows setup.now self.old past
            → Follows setup.now self.new past) }
        ensures version { self.new.version ≡ self.old.version }
    {
        // (for its contract: a tester's number is at most 8)
        let _number = who.number();
        let Some(rest) = self.play.answers_front(who, functional, text) else {
            return None;
        };
        self.count += 1;
        Some(rest)
    }

    /// Takes the rest of a line of ticks.
    fn take_ticks<'a>(&mut self, setup: &Setup, who: TesterId, text: &'a [u8]) -> Option<&'a [u8]>
        requires usual { IsUsual setup.now self.old who }
        requires follows { (past : List Entry) × Follows setup.now self.old past }
        ensures some { IfSome result (λ rest. (past : List Entry)
            → Follows setup.now self.old past
            → FollowedIn setup.now self.old self.new past
            (fronted (48 + who) (kind_code kind.Ticks) text.now) rest.now) }
        ensures none { IfNone result (self.new ≡ self.old) }
        ensures version { self.new.version ≡ self.old.version }
    {
        // (for its contract: a tester's number is at most 8)
        let _number = who.number();
        let Some(front) = count_front(text) else {
            return None;
        };
        let clock = self.clocks.at(who) + u64::from(front.count.get());
        self.clocks.set(who, clock);
        self.play.ecu.ticks(who, front.count);
        self.count += 1;
        Some(front.rest)
    }

    /// Takes the line that comes next.
    fn take(&mut self, alloc: Global, setup: &Setup, line: &[u8]) -> Result<(), LineFault>
        requires { (past : List Entry) × Follows setup.now self.old past }
        ensures ok { OnOk result ((past : List Entry)
            → Follows setup.now self.old past
            → Followed setup.now self.old self.new past line.now) }
        ensures version { self.new.version ≡ self.old.version }
        ensures wrong { IfErr result (λ fault. fault ≡ LineFault.Wrong
            → (past : List Entry)
            → Follows setup.now self.old past
            → HasNoNext (read_so_far self.old.version past) line.now) }
        ensures memory { IfErr result (λ fault. fault ≡ LineFault.Memory
            → (past : List Entry)
            → Follows setup.now self.old past
            → AsksEcu setup.now self.old past line.now) }
    {
        let Some(entry) = next_line(self.version, &self.clocks, line) else {
            return Err(LineFault::Wrong);
        };
        if self.count >= MOST_ENTRIES {
            return Err(LineFault::Wrong);
        }
        let clock = clock_with(&self.clocks, &entry);
        let number = self.count + 1;
        match self.play.take(alloc, setup, number, &entry) {
            Ok(()) => {}
            Err(_) => return Err(LineFault::Memory),
        }
        self.clocks.set(entry.who, clock);
        self.count = number;
        Ok(())
    }

    /// Takes the whole lines at the front of a text, and gives what is begun behind them.
    fn take_lines<'a>(
        &mut self,
        alloc: Global,
        setup: &Setup,
        text: &'a [u8],
    ) -> Result<&'a [u8], JournalFault>
        requires { (seen : List ℕ) × HasFollowed setup.now self.old seen }
        ensures ok { IfOk result (λ rest. TakesLines (HasFollowed setup.now self.old)
            (HasFollowed setup.now self.new) text.now rest.now) }
        ensures line { IfErr result (λ fault.
            (n : ℕ) → fault ≡ JournalFault.Line n
            → (seen : List ℕ) → HasFollowed setup.now self.old seen
            → (more : List ℕ) → FaultAt (seen ++ (text.now ++ more)) n) }
        ensures memory { result ≡ Err JournalFault.Memory
            → (seen more : List ℕ) → HasFollowed setup.now self.old seen
            → HasRequest setup.now (seen ++ (text.now ++ more)) }
    {
        let mut rest = text;
        while !rest.is_empty() {
            if let Some(after) = self.take_usual(setup, rest) {
                rest = after;
                continue;
            }
            let number = self.count + 2;
            let Some((line, after)) = cut(rest, b'\n') else {
                return Ok(rest);
            };
            match self.take(alloc, setup, line) {
                Ok(()) => {}
                Err(fault) => return Err(fault.at(number)),
            }
            rest = after;
        }
        Ok(rest)
    }
}

/// The replay of a journal's text of either version that comes in pieces, in one pass and without keeping its entries.
///
/// It is `read_journal` and then `replay`: a line at fault comes first, wherever it stands, and then the first entry
/// that differs. Memory can be refused at any line.
#[derive(Drop)]
pub struct TextReplay {
    /// The first line at fault: what follows it is not looked at.
    fault: Option<usize>,
    /// Whether the header was taken.
    headed: bool,
    follower: Follower,
}

impl TextReplay {
    /// The replay of a text of which nothing was taken.
    ///
    /// # Errors
    /// `AllocError` where memory is refused.
    pub fn new(alloc: Global, setup: &Setup) -> Result<TextReplay, AllocError>
        ensures { IfOk result (λ replay. HasTaken setup.now replay []) }
    {
        let ecu = Ecu::new(alloc, setup)?;
        Ok(TextReplay {
            fault: None,
            headed: false,
            follower: Follower::new(alloc, ecu),
        })
    }

    /// Takes the whole lines at the front of what follows in the text, and gives what is begun behind them. Behind a line
    /// at fault nothing is looked at, and all is taken.
    ///
    /// # Errors
    /// `AllocError` where memory is refused, which is asked for a request alone, before which no entry differs: the replay
    /// can't go on then.
    pub fn take_lines<'a>(
        &mut self,
        alloc: Global,
        setup: &Setup,
        text: &'a [u8],
    ) -> Result<&'a [u8], AllocError>
        requires { (seen : List ℕ) × HasTaken setup.now self.old seen }
        ensures took { IfOk result (λ rest. TakesLines (HasTaken setup.now self.old)
            (HasTaken setup.now self.new) text.now rest.now) }
        ensures memory { OnErr result ((seen more : List ℕ)
            → HasTaken setup.now self.old seen
            → HasRequest setup.now (seen ++ (text.now ++ more))) }
    {
        if self.fault.is_some() {
            return Ok(&[]);
        }
        if self.headed {
            return self.take_entries(alloc, setup, text);
        }
        let Some((first, rest)) = cut(text, b'\n') else {
            return Ok(text);
        };
        let Some(version) = version_of(first) else {
            self.fault = Some(1);
            return Ok(&[]);
        };
        self.headed = true;
        self.follower.version = version;
        self.take_entries(alloc, setup, rest)
    }

    /// The same behind the header, where no line is at fault.
    fn take_entries<'a>(
        &mut self,
        alloc: Global,
        setup: &Setup,
        text: &'a [u8],
    ) -> Result<&'a [u8], AllocError>
        requires headed { self.old.headed ≡ true }
        requires well { self.old.fault ≡ None }
        requires taken { (seen : List ℕ) × HasTaken setup.now self.old seen }
        ensures took { IfOk result (λ rest. TakesLines (HasTaken setup.now self.old)
            (HasTaken setup.now self.new) text.now rest.now) }
        ensures memory { OnErr result ((seen more : List ℕ)
            → HasTaken setup.now self.old seen
            → HasRequest setup.now (seen ++ (text.now ++ more))) }
    {
        match self.follower.take_lines(alloc, setup, text) {
            Ok(rest) => Ok(rest),
            Err(JournalFault::Line(n)) => {
                self.fault = Some(n);
                Ok(&[])
            }
            Err(JournalFault::Memory) => Err(AllocError),
        }
    }

    /// What the text comes to that ends with these bytes of a line, or with none.
    ///
    /// # Errors
    /// `Line` and `Differs`.
    pub fn finish(self, begun: &[u8]) -> Result<Replayed, TextFault>
        requires taken { (setup : RawSetup) × (seen : List ℕ) × HasTaken setup self seen }
        requires line { HasNoFeed begun.now }
        ensures ok { IfOk result (λ r. (setup : RawSetup) (seen : List ℕ)
            → HasTaken setup self seen
            → IsReplayed setup (seen ++ begun.now) r.entries r.ecu) }
        ensures line { IfErr result (λ fault. (n : ℕ) → fault ≡ TextFault.Line n
            → (setup : RawSetup) (seen : List ℕ)
            → HasTaken setup self seen
            → FaultAt (seen ++ begun.now) n) }
        ensures differs { IfErr result (λ fault. (n : ℕ) → fault ≡ TextFault.Differs n
            → (setup : RawSetup) (seen : List ℕ)
            → HasTaken setup self seen
            → TextDiffers setup (seen ++ begun.now) n) }
    {
        let TextReplay {
            fault,
            headed,
            follower,
        } = self;
        let Follower { count, play, .. } = follower;
        if let Some(n) = fault {
            return Err(TextFault::Line(n));
        }
        if !headed {
            return Err(TextFault::Line(1));
        }
        if !begun.is_empty() {
            return Err(TextFault::Line(count + 2));
        }
        match play.differs {
            None => Ok(Replayed {
                entries: count,
                ecu: play.ecu,
            }),
            Some(n) => Err(TextFault::Differs(n)),
        }
    }
}
