//! The exchanges of a tester that aren't over.

ghost use Rattle.std.specs.Prelude.{◌≡◌, ◌≤◌, ◌+◌, ◌++◌, ◌∷◌, [], true, false, drop, slice_get, IfSome, IfNone, IfOk, IsSome, if◌then◌else◌, map, Some, None, length, take, vec_len, vec_capacity, IsOk, OnOk, OnErr};
ghost use Rattle.std.specs.List.{filter, list_any};
ghost use Rattle.diag_exchange.specs.Over.{Unasked};
ghost use Rattle.diag_exchange.specs.Taking.{Ended, IsUnchanged, Stands, Took, TookSilently};
ghost use Rattle.diag_exchange.specs.Streaming.{asked_again, finish, goes_on, hear, hears_it, is_done, may_hear, opened, told, IsLast};
ghost use Rattle.diag_exchange.specs.declared.happening.Happening.TheVariants.{Asked, Began, Came, Lost};

use crate::happening::{AskedRequest, Heard, Start};
use crate::open_box::OpenBox;
use crate::over::Over;
use diag_pdu::Message;
use std::alloc::{AllocError, Global};

/// The exchanges of a tester that aren't over, and the message that is coming in.
#[derive(Drop)]
pub struct Exchanges {
    /// The exchanges, in the order of their requests.
    pub live: Vec<OpenBox>,
    /// The first frame of the message that is coming in.
    pub coming: Option<Start>,
}

/// Hands out the exchanges that are over, where the newest happening is a request or not.
fn take_out(live: &mut Vec<OpenBox>, asked: bool, over: &mut Vec<Over>)
    requires room { vec_len over.old + vec_len live.old ≤ vec_capacity over.old }
    ensures live { live.new.items ≡ filter (goes_on asked) live.old.items }
    ensures over { over.new.items ≡ over.old.items
        ++ map told (filter (is_done asked) live.old.items) }
    ensures len { vec_len over.new + vec_len live.new ≡ vec_len over.old + vec_len live.old }
    ensures shorter { vec_len live.new ≤ vec_len live.old }
    ensures capacity { vec_capacity over.new ≡ vec_capacity over.old }
    ensures room { vec_capacity live.new ≡ vec_capacity live.old }
{
    let mut at = 0;
    for _turn in 0..live.len() {
        if live[at].get().is_done(asked) {
            let done = live.remove(at);
            over.push_reserved(Over::exchange(done));
        } else {
            at += 1;
        }
    }
}

/// A request is complete behind each of them.
fn ask_again(live: &mut Vec<OpenBox>, request: &AskedRequest)
    ensures items { live.new.items ≡ map (asked_again request.now) live.old.items }
    ensures len { vec_len live.new ≡ vec_len live.old }
    ensures room { vec_capacity live.new ≡ vec_capacity live.old }
{
    for index in 0..live.len() {
        live[index].ask_again(request);
    }
}

/// The index of the latest candidate for a message that begins so, or of the latest loud one.
fn latest(live: &[OpenBox], loud: bool, start: &Start) -> Option<usize>
    ensures { IsLast (may_hear loud start.now) live.now result }
{
    let mut index = live.len();
    while index > 0 {
        index -= 1;
        if live[index].get().may_hear(loud, start) {
            return Some(index);
        }
    }
    None
}

/// The index of the exchange that hears the message that is coming in.
fn hearer(live: &[OpenBox]) -> Option<usize>
    ensures { IsLast hears_it live.now result }
{
    let mut index = live.len();
    while index > 0 {
        index -= 1;
        if live[index].get().hears {
            return Some(index);
        }
    }
    None
}

/// A message begins: the latest loud candidate hears it, or where there is none the latest silent one.
fn hear(live: &mut Vec<OpenBox>, start: &Start)
    ensures items { live.new.items ≡ hear start.now live.old.items }
    ensures len { vec_len live.new ≡ vec_len live.old }
{
    if let Some(index) = latest(live.as_slice(), true, start) {
        live[index].hear();
        return;
    }
    if let Some(index) = latest(live.as_slice(), false, start) {
        live[index].hear();
    }
}

/// The message that was coming in never will be complete.
fn hear_no_more(live: &mut Vec<OpenBox>)
    ensures items { live.new.items ≡ finish None live.old.items }
    ensures len { vec_len live.new ≡ vec_len live.old }
{
    if let Some(index) = hearer(live.as_slice()) {
        live[index].hear_no_more();
    }
}

/// The message that was coming in is complete: the exchange that heard it has it; where there is none, it is over itself.
#[inline(always)]
fn answer(alloc: Global, live: &mut Vec<OpenBox>, heard: Heard) -> Result<Option<Over>, AllocError>
    ensures ok { OnOk result (live.new.items ≡ finish (Some heard) live.old.items) }
    ensures unasked { IfOk result (λ unasked. unasked
        ≡ if list_any hears_it live.old.items then None else Some (Unasked heard)) }
    ensures err { OnErr result (live.new.items ≡ live.old.items) }
    ensures len { vec_len live.new ≡ vec_len live.old }
{
    match hearer(live.as_slice()) {
        Some(index) => {
            live[index].take(heard)?;
            Ok(None)
        }
        None => Ok(Some(Over::unasked(alloc, heard)?)),
    }
}

impl Exchanges {
    /// Nothing has happened.
    pub fn new(alloc: Global) -> Exchanges
        ensures { Stands result [] }
    {
        Exchanges {
            live: Vec::new(alloc),
            coming: None,
        }
    }

    /// A request is complete, of which nothing was heard; what is over with it is put behind `over`.
    ///
    /// # Errors
    /// `AllocError` where memory is refused, and then nothing has changed.
    #[inline(always)]
    pub fn ask(&mut self, asked: OpenBox, over: &mut Vec<Over>) -> Result<(), AllocError>
        requires { asked ≡ opened asked.request }
        ensures ok { OnOk result (Took self.old self.new over.old.items over.new.items
            (Asked asked.request)) }
        ensures coming { OnOk result (self.new.coming ≡ self.old.coming) }
        ensures err { OnErr result (IsUnchanged self.old self.new) }
        ensures out { OnErr result (over.new.items ≡ over.old.items) }
    {
        over.reserve(self.live.len())?;
        self.live.reserve(1)?;
        ask_again(&mut self.live, &asked.get().request);
        take_out(&mut self.live, true, over);
        self.live.push_reserved(asked);
        Ok(())
    }

    /// A message of the unit begins; nothing is over with it.
    #[inline(always)]
    pub fn begin(&mut self, start: Start)
        requires { self.old.coming ≡ None }
        ensures took { TookSilently self.old self.new (Began start) }
        ensures coming { self.new.coming ≡ Some start }
    {
        hear(&mut self.live, &start);
        self.coming = Some(start);
    }

    /// The message that began is complete; what is over with it is put behind `over`.
    ///
    /// # Errors
    /// `AllocError` where memory is refused, or as `Open::take`, and then nothing has changed.
    #[inline(always)]
    pub fn come(&mut self, bytes: Message, over: &mut Vec<Over>) -> Result<(), AllocError>
        requires { IsSome self.old.coming }
        ensures ok { OnOk result (Took self.old self.new over.old.items over.new.items
            (Came bytes)) }
        ensures coming { OnOk result (self.new.coming ≡ None) }
        ensures err { OnErr result (IsUnchanged self.old self.new) }
        ensures out { OnErr result (over.new.items ≡ over.old.items) }
    {
        let Some(start) = self.coming else {
            unreachable!()
        };
        let most = self.live.len().checked_add(1).ok_or(AllocError)?;
        over.reserve(most)?;
        let alloc = *over.allocator();
        let unasked = answer(alloc, &mut self.live, Heard { start, bytes })?;
        take_out(&mut self.live, false, over);
        if let Some(unasked) = unasked {
            over.push_reserved(unasked);
        }
        self.coming = None;
        Ok(())
    }

    /// The message that began never will be complete; what is over with it is put behind `over`.
    ///
    /// # Errors
    /// `AllocError` where memory is refused, and then nothing has changed.
    pub fn lose(&mut self, over: &mut Vec<Over>) -> Result<(), AllocError>
        ensures ok { OnOk result (Took self.old self.new over.old.items over.new.items Lost) }
        ensures coming { OnOk result (self.new.coming ≡ None) }
        ensures err { OnErr result (IsUnchanged self.old self.new) }
        ensures out { OnErr result (over.new.items ≡ over.old.items) }
    {
        over.reserve(self.live.len())?;
        hear_no_more(&mut self.live);
        take_out(&mut self.live, false, over);
        self.coming = None;
        Ok(())
    }

    /// Where all has happened, the exchanges that aren't over are put behind `over`, in memory of their own.
    ///
    /// # Errors
    /// `AllocError` where memory is refused; then some of them may be there. Where all are over, none is asked for.
    pub fn left(&self, alloc: Global, over: &mut Vec<Over>) -> Result<(), AllocError>
        ensures ok { OnOk result (Ended self.now over.old.items over.new.items) }
        ensures front { take (length over.old.items) over.new.items ≡ over.old.items }
        ensures none { self.now.live.items ≡ [] → IsOk result }
    {
        for open in &self.live {
            over.push(Over::exchange(open.try_copy(alloc)?))?;
        }
        Ok(())
    }
}
