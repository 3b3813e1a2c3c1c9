//! What C calls.

ghost use Rattle.std.specs.Prelude.{◌≡◌, ◌≤◌, ◌<◌, ◌/◌, ◌++◌, ◌∷◌, [], false, true, length, None, Some, IfOk, IfErr, IfSome, IsSome, option_map, slice_get, ◌⊎◌};
ghost use Rattle.diag_can.specs.Line.{is_fd_length};
ghost use Rattle.diag_config.specs.Setup.{setup_of};
ghost use Rattle.diag_config.specs.Fault.{Fails};
ghost use Rattle.diag_setup.specs.Setup.{did_id};
ghost use Rattle.diag_store.specs.Dids.{value_of, write_answer};
ghost use Rattle.diag_store.specs.Dtcs.{row_pair, status_of};
ghost use Rattle.diag_world.specs.Server.{quiet_of, server_of};
ghost use Rattle.uds_unit.specs.Calls.{Both, CopiedInto, CopiesWhole, HandedReply, Opened, Refused, Sets, SetsOr, TellsCode, TellsFault, TellsNumber, TellsOr, TellsValue, Took, TookFrame, close_status, code_status, all_of, fault_line, frame_of, heard, identifier_of, session_told, told_fd, told_id, write_status};
ghost use Rattle.uds_unit.specs.Moments.{due_us, moment_us};
ghost use Rattle.uds_unit.specs.History.{SetStatus, SetValue};

use crate::clock::moment_us;
use crate::device::Device;
use crate::given::GivenFrame;
use crate::handle::Handle;
use crate::status::{CLOSED, DONE, LENGTH, MEMORY, NO_FRAME, NONE, ROOM, UNKNOWN, fault_status};
use diag_bus::Drawn;
use diag_can::CanId;
use diag_config::{ConfigFault, read_setup};
use diag_ecu::Ecu;
use diag_store::DidFault;
use std::alloc::{AllocError, Global};
use std::mem;

/// The bit that C sets in an identifier of 29 bits.
const EXTENDED: u32 = 1 << 31;

/// A frame that is due.
#[repr(C)]
#[derive(Drop)]
pub struct Reply {
    /// When, in microseconds.
    pub at_us: u64,
    /// Its identifier; of one of 29 bits with bit 31.
    pub id: u32,
    /// The tester that it is for, by its place in the setup from 1.
    pub tester: u8,
    /// How many bytes it has.
    pub len: u8,
    /// 1 of a frame of CAN FD, 0 of a classic one.
    pub fd: u8,
    /// Its bytes, and behind them zeros.
    pub bytes: [u8; 64],
}

/// The session, and who holds it.
#[repr(C)]
#[derive(Drop)]
pub struct Session {
    /// The number of the session: 1 is the default one.
    pub session: u8,
    /// The tester in it, by its place in the setup from 1; 0 in the default session.
    pub holder: u8,
}

/// A DTC.
#[repr(C)]
#[derive(Drop)]
pub struct Code {
    /// The code of three bytes.
    pub code: u32,
    /// Its status.
    pub status: u8,
}

/// Copies as much as fits.
fn copy_into(out: &mut [u8], text: &[u8])
    ensures { CopiedInto out.old out.new text.now }
{
    let count = text.len().min(out.len());
    out[..count].copy_from_slice(&text[..count]);
}

/// The unit of the setup that these bytes say, on the heap.
fn made(alloc: Global, config: &[u8], wanted: bool) -> Result<Box<Device>, ConfigFault>
    ensures opened { IfOk result (λ whole. Opened whole.value config.now wanted) }
    ensures fault { IfErr result (λ fault. Fails fault (setup_of config.now)) }
{
    let setup = read_setup(alloc, config)?;
    let Ok(device) = Device::new(alloc, setup, wanted) else {
        return Err(ConfigFault::Memory);
    };
    match Box::new(alloc, device) {
        Ok(whole) => Ok(whole),
        Err(_) => Err(ConfigFault::Memory),
    }
}

/// The line of a setup's fault, as the program tells it.
fn fault_line(alloc: Global, fault: &ConfigFault) -> Result<Vec<u8>, AllocError>
    ensures { IfOk result (λ line. line.items ≡ fault_line fault.now) }
{
    match fault {
        ConfigFault::Memory => b"uds_play: memory\n".to_vec(alloc),
        fault => {
            let text = format!(in alloc; "uds_play: config: {fault}\n")?;
            Ok(text.into_bytes())
        }
    }
}

/// The same, ended by a 0.
fn ended_line(alloc: Global, fault: &ConfigFault) -> Result<Vec<u8>, AllocError>
    ensures { IfOk result (λ line. line.items ≡ fault_line fault.now ++ 0 ∷ []) }
{
    let mut line = fault_line(alloc, fault)?;
    line.push(0)?;
    Ok(line)
}

/// Tells a fault of a setup as the program does, and want of memory where there is none for that.
fn tell(alloc: Global, fault: ConfigFault, text: &mut [u8]) -> u32
    ensures { TellsFault fault text.old text.new result }
{
    match ended_line(alloc, &fault) {
        Ok(line) => {
            copy_into(text, line.as_slice());
            fault_status(&fault)
        }
        Err(_) => {
            copy_into(text, b"uds_play: memory\n\0");
            MEMORY
        }
    }
}

/// Opens a unit of the setup that these bytes say, with a journal where one is wanted.
fn open(alloc: Global, unit: &mut Handle, config: &[u8], wanted: bool, text: &mut [u8]) -> u32
    ensures opened { result ≡ 0 → IfSome unit.new.unit (λ device. Opened device config.now wanted) }
    ensures is_open { result ≡ 0 → IsSome unit.new.unit }
    ensures refused { 1 ≤ result → unit.new.unit ≡ None }
    ensures fault { 1 ≤ result → Refused config.now text.old text.new result }
    ensures untouched { result ≡ 0 → text.new ≡ text.old }
{
    drop(mem::replace(unit, Handle::closed(alloc)).into_box());
    match made(alloc, config, wanted) {
        Ok(whole) => {
            *unit = Handle::opened(whole);
            DONE
        }
        Err(fault) => tell(alloc, fault, text),
    }
}

/// Opens a unit of a setup in TOML; one that was open is freed first. Where the setup is at fault the unit isn't open, and
/// the text gets the line that the program tells, ended by a 0, as far as it fits.
#[unsafe(no_mangle)]
pub extern "C" fn uds_unit_open(
    alloc: Global,
    unit: &mut Handle,
    config: &[u8],
    text: &mut [u8],
) -> u32
    ensures opened { result ≡ 0 → IfSome unit.new.unit (λ device. Opened device config.now false) }
    ensures is_open { result ≡ 0 → IsSome unit.new.unit }
    ensures refused { 1 ≤ result → unit.new.unit ≡ None }
    ensures fault { 1 ≤ result → Refused config.now text.old text.new result }
    ensures untouched { result ≡ 0 → text.new ≡ text.old }
{
    open(alloc, unit, config, false, text)
}

/// The same with a journal.
#[unsafe(no_mangle)]
pub extern "C" fn uds_unit_open_with_journal(
    alloc: Global,
    unit: &mut Handle,
    config: &[u8],
    text: &mut [u8],
) -> u32
    ensures opened { result ≡ 0 → IfSome unit.new.unit (λ device. Opened device config.now true) }
    ensures is_open { result ≡ 0 → IsSome unit.new.unit }
    ensures refused { 1 ≤ result → unit.new.unit ≡ None }
    ensures fault { 1 ≤ result → Refused config.now text.old text.new result }
    ensures untouched { result ≡ 0 → text.new ≡ text.old }
{
    open(alloc, unit, config, true, text)
}

/// The identifier that C tells so: of 11 bits, or with bit 31 of 29 bits.
fn identifier_of(id: u32) -> Option<CanId>
    ensures { result ≡ identifier_of id }
{
    if id >= EXTENDED {
        return CanId::extended(id - EXTENDED);
    }
    if id >= 0x800 {
        return None;
    }
    CanId::new(id as u16)
}

/// The frame with this identifier and these bytes, if there is such a frame.
fn frame_of(id: u32, bytes: &[u8]) -> Option<GivenFrame<'_>>
    ensures { result ≡ frame_of id bytes.now }
{
    if !is_frame_length(bytes.len()) {
        return None;
    }
    match identifier_of(id) {
        Some(id) => Some(GivenFrame { id, bytes }),
        None => None,
    }
}

/// Whether a frame, classic or of CAN FD, can have so many bytes.
#[inline(always)]
fn is_frame_length(count: usize) -> bool
    ensures is { result ≡ is_fd_length count }
    ensures fits { result ≡ true → count ≤ 64 }
{
    matches!(count, 0..=8 | 12 | 16 | 20 | 24 | 32 | 48 | 64)
}

/// How C is told an identifier.
fn told_id(id: CanId) -> u32
    ensures { result ≡ told_id id }
{
    if id.is_extended() {
        EXTENDED + id.get()
    } else {
        id.get()
    }
}

/// How C is told whether a frame is one of CAN FD.
fn told_fd(fd: bool) -> u8
    ensures { result ≡ told_fd fd }
{
    if fd { 1 } else { 0 }
}

/// Gives a unit a moment in microseconds, and the frame then, if there is one.
fn give(device: &mut Device, at_us: u64, frame: Option<GivenFrame<'_>>) -> u32
    ensures { Took device.old device.new (at_us / 1000) frame.entry result }
{
    match device.take(at_us / 1000, frame) {
        Ok(()) => DONE,
        Err(_) => MEMORY,
    }
}

/// What a unit hears of a frame: one of more than 8 bytes is of CAN FD, which is heard where its identifier is read by it.
#[inline(always)]
fn heard<'a>(device: &Device, frame: GivenFrame<'a>) -> Option<GivenFrame<'a>>
    ensures { result ≡ heard device.now.setup frame.entry }
{
    if frame.bytes.len() <= 8 || device.reads_long(frame.id) {
        Some(frame)
    } else {
        None
    }
}

/// The same with a frame; where there is none nothing is done.
fn give_frame(device: &mut Device, at_us: u64, frame: Option<GivenFrame<'_>>) -> u32
    ensures { TookFrame device.old device.new (at_us / 1000) frame.entry result }
{
    match frame {
        Some(frame) => {
            let heard = heard(device, frame);
            give(device, at_us, heard)
        }
        None => NO_FRAME,
    }
}

/// Takes a frame of the bus at a moment in microseconds; an earlier one counts as the latest so far. The identifier has 11
/// bits, or with bit 31 29 bits. One of more than 8 bytes that isn't for a tester that talks by CAN FD only lets the time pass.
#[unsafe(no_mangle)]
pub extern "C" fn uds_unit_frame(
    alloc: Global,
    unit: &mut Handle,
    at_us: u64,
    id: u32,
    bytes: &[u8],
) -> u32
    ensures closed { unit.old.unit ≡ None → result ≡ 16 }
    ensures took { Both unit.old.unit unit.new.unit
        (λ old new. TookFrame old new (at_us / 1000) (frame_of id bytes.now) result) }
{
    let Some(mut device) = mem::replace(unit, Handle::closed(alloc)).into_box() else {
        return CLOSED;
    };
    let status = give_frame(&mut device, at_us, frame_of(id, bytes));
    *unit = Handle::opened(device);
    status
}

/// Lets time pass to a moment in microseconds.
#[unsafe(no_mangle)]
pub extern "C" fn uds_unit_pass(alloc: Global, unit: &mut Handle, to_us: u64) -> u32
    ensures closed { unit.old.unit ≡ None → result ≡ 16 }
    ensures took { Both unit.old.unit unit.new.unit (λ old new. Took old new (to_us / 1000) None result) }
{
    let Some(mut device) = mem::replace(unit, Handle::closed(alloc)).into_box() else {
        return CLOSED;
    };
    let status = give(&mut device, to_us, None);
    *unit = Handle::opened(device);
    status
}

/// Writes out a frame that is due.
#[tactic(auto, using(crate::proofs::Replies::all_copied))]
fn put(out: &mut Reply, start: u64, fd: bool, drawn: &Drawn)
    ensures at { out.new.at_us ≡ moment_us start drawn.now.sent.at }
    ensures id { out.new.id ≡ told_id drawn.now.sent.frame.id }
    ensures tester { out.new.tester ≡ drawn.now.who }
    ensures len { out.new.len ≡ length drawn.now.sent.frame.bytes }
    ensures fd { out.new.fd ≡ told_fd fd }
    ensures bytes { out.new.bytes ≡ all_of drawn.now.sent.frame.bytes }
{
    let bytes = drawn.bytes.as_slice();
    out.at_us = moment_us(start, drawn.at);
    out.id = told_id(drawn.id);
    out.tester = drawn.who.number();
    out.bytes = [0; 64];
    out.len = bytes.len() as u8;
    out.fd = told_fd(fd);
    copy_into(&mut out.bytes, bytes);
}

/// Hands out the next frame that is due, if there is one.
fn hand_out(device: &mut Device, reply: &mut Reply) -> u32
    ensures handed { result ≡ 0 → HandedReply device.old device.new reply.new }
    ensures none { result ≡ 17 → (device.new ≡ device.old) × (device.old.waiting ≡ []) × (reply.new ≡ reply.old) }
    ensures only { (result ≡ 0) ⊎ (result ≡ 17) }
{
    let start = device.start();
    match device.next() {
        Some(drawn) => {
            let fd = device.is_fd(drawn.who);
            put(reply, start, fd, &drawn);
            DONE
        }
        None => NONE,
    }
}

/// Hands out the next frame that is due. Where there is none the reply is as it was.
#[unsafe(no_mangle)]
pub extern "C" fn uds_unit_next(alloc: Global, unit: &mut Handle, reply: &mut Reply) -> u32
    ensures closed { unit.old.unit ≡ None → (result ≡ 16) × (unit.new.unit ≡ None) × (reply.new ≡ reply.old) }
    ensures handed { result ≡ 0 → Both unit.old.unit unit.new.unit
        (λ old new. HandedReply old new reply.new) }
    ensures none { result ≡ 17 → (unit.new.unit ≡ unit.old.unit)
        × IfSome unit.old.unit (λ device. device.waiting ≡ []) × (reply.new ≡ reply.old) }
    ensures only { IsSome unit.old.unit → (result ≡ 0) ⊎ (result ≡ 17) }
{
    let Some(mut device) = mem::replace(unit, Handle::closed(alloc)).into_box() else {
        return CLOSED;
    };
    let status = hand_out(&mut device, reply);
    *unit = Handle::opened(device);
    status
}

/// The next moment at which a frame may fall due, in microseconds, where nothing comes in before; the greatest number where
/// nothing is waited for.
#[unsafe(no_mangle)]
pub extern "C" fn uds_unit_due(alloc: Global, unit: &mut Handle, at_us: &mut u64) -> u32
    ensures same { unit.new.unit ≡ unit.old.unit }
    ensures closed { unit.old.unit ≡ None → (result ≡ 16) × (at_us.new ≡ at_us.old) }
    ensures due { IfSome unit.old.unit (λ device. (result ≡ 0)
        × (at_us.new ≡ due_us device.clock (quiet_of (server_of device.server).ports))) }
{
    let Some(device) = mem::replace(unit, Handle::closed(alloc)).into_box() else {
        return CLOSED;
    };
    *at_us = device.due_us();
    *unit = Handle::opened(device);
    DONE
}

/// The session, and who holds it.
fn session_of(ecu: &Ecu) -> Session
    ensures { result ≡ session_told ecu.now ecu.now.holder }
{
    match ecu.holder() {
        None => Session {
            session: 1,
            holder: 0,
        },
        Some(who) => Session {
            session: ecu.session_of(who),
            holder: who.number(),
        },
    }
}

/// The session, and who holds it.
#[unsafe(no_mangle)]
pub extern "C" fn uds_unit_state(alloc: Global, unit: &mut Handle, state: &mut Session) -> u32
    ensures same { unit.new.unit ≡ unit.old.unit }
    ensures closed { unit.old.unit ≡ None → (result ≡ 16) × (state.new ≡ state.old) }
    ensures told { IfSome unit.old.unit (λ device. (result ≡ 0)
        × (state.new ≡ session_told device.server.ecu device.server.ecu.holder)) }
{
    let Some(device) = mem::replace(unit, Handle::closed(alloc)).into_box() else {
        return CLOSED;
    };
    *state = session_of(device.ecu());
    *unit = Handle::opened(device);
    DONE
}

/// A DTC with its status, by its place in rising order, from 0.
#[unsafe(no_mangle)]
pub extern "C" fn uds_unit_code(
    alloc: Global,
    unit: &mut Handle,
    index: usize,
    code: &mut Code,
) -> u32
    ensures same { unit.new.unit ≡ unit.old.unit }
    ensures closed { unit.old.unit ≡ None → (result ≡ 16) × (code.new ≡ code.old) }
    ensures told { IfSome unit.old.unit (λ device.
        TellsCode (option_map row_pair (slice_get device.server.ecu.dtcs index)) code.old code.new result) }
{
    let Some(device) = mem::replace(unit, Handle::closed(alloc)).into_box() else {
        return CLOSED;
    };
    let status = match device.ecu().dtcs().at(index) {
        Some((number, status)) => {
            *code = Code {
                code: number,
                status,
            };
            DONE
        }
        None => NONE,
    };
    *unit = Handle::opened(device);
    status
}

/// A data identifier, by its place in rising order, from 0.
#[unsafe(no_mangle)]
pub extern "C" fn uds_unit_identifier(
    alloc: Global,
    unit: &mut Handle,
    index: usize,
    id: &mut u16,
) -> u32
    ensures same { unit.new.unit ≡ unit.old.unit }
    ensures closed { unit.old.unit ≡ None → (result ≡ 16) × (id.new ≡ id.old) }
    ensures told { IfSome unit.old.unit (λ device.
        TellsNumber (option_map did_id (slice_get device.setup.dids index)) id.old id.new result) }
{
    let Some(device) = mem::replace(unit, Handle::closed(alloc)).into_box() else {
        return CLOSED;
    };
    let status = match device.identifier(index) {
        Some(number) => {
            *id = number;
            DONE
        }
        None => NONE,
    };
    *unit = Handle::opened(device);
    status
}

/// Copies a text where there is room for all of it, and tells how long it is.
fn copy_whole(out: &mut [u8], len: &mut usize, text: &[u8]) -> u32
    ensures { CopiesWhole text.now out.old out.new len.new result }
{
    *len = text.len();
    if out.len() < text.len() {
        return ROOM;
    }
    copy_into(out, text);
    DONE
}

/// Copies an identifier's value, where there is one, and tells how long it is.
fn copy_value(ecu: &Ecu, id: u16, out: &mut [u8], len: &mut usize) -> u32
    ensures { TellsValue (value_of ecu.now.dids id) out.old out.new len.old len.new result }
{
    match ecu.dids().get(id) {
        Some(value) => copy_whole(out, len, value),
        None => UNKNOWN,
    }
}

/// The value of a data identifier, where there is room for all of it; how long it is either way.
#[unsafe(no_mangle)]
pub extern "C" fn uds_unit_value(
    alloc: Global,
    unit: &mut Handle,
    id: u16,
    value: &mut [u8],
    len: &mut usize,
) -> u32
    ensures same { unit.new.unit ≡ unit.old.unit }
    ensures closed { unit.old.unit ≡ None → (result ≡ 16) × (value.new ≡ value.old) × (len.new ≡ len.old) }
    ensures told { IfSome unit.old.unit (λ device.
        TellsValue (value_of device.server.ecu.dids id) value.old value.new len.old len.new result) }
{
    let Some(device) = mem::replace(unit, Handle::closed(alloc)).into_box() else {
        return CLOSED;
    };
    let status = copy_value(device.ecu(), id, value, len);
    *unit = Handle::opened(device);
    status
}

/// Gives a data identifier another value, and tells what that answered.
fn set_value(device: &mut Device, id: u16, value: &[u8]) -> u32
    ensures status { result ≡ write_status (write_answer device.old.server.ecu.dids id value.now) }
    ensures set { SetsOr device.old device.new (SetValue id value.now) result }
{
    match device.set_value(id, value) {
        Ok(()) => DONE,
        Err(DidFault::Unknown) => UNKNOWN,
        Err(DidFault::Length) => LENGTH,
    }
}

/// Gives a data identifier another value, of the length that it has, as the ECU's own software does.
#[unsafe(no_mangle)]
pub extern "C" fn uds_unit_set_value(alloc: Global, unit: &mut Handle, id: u16, value: &[u8]) -> u32
    ensures closed { unit.old.unit ≡ None → result ≡ 16 }
    ensures status { IfSome unit.old.unit (λ device.
        result ≡ write_status (write_answer device.server.ecu.dids id value.now)) }
    ensures set { Both unit.old.unit unit.new.unit (λ old new. SetsOr old new (SetValue id value.now) result) }
{
    let Some(mut device) = mem::replace(unit, Handle::closed(alloc)).into_box() else {
        return CLOSED;
    };
    let status = set_value(&mut device, id, value);
    *unit = Handle::opened(device);
    status
}

/// Gives a DTC another status, and tells whether it is known.
fn set_code(device: &mut Device, code: u32, status: u8) -> u32
    ensures status { result ≡ code_status (status_of device.old.server.ecu.dtcs code) }
    ensures set { Sets device.old device.new (SetStatus code status) }
    ensures unknown { 1 ≤ result → device.new ≡ device.old }
{
    if device.set_status(code, status) {
        return DONE;
    }
    UNKNOWN
}

/// Gives a DTC another status, as the ECU's own software does; where there is no such DTC nothing is set.
#[unsafe(no_mangle)]
pub extern "C" fn uds_unit_set_code(alloc: Global, unit: &mut Handle, code: u32, status: u8) -> u32
    ensures closed { unit.old.unit ≡ None → result ≡ 16 }
    ensures status { IfSome unit.old.unit (λ device.
        result ≡ code_status (status_of device.server.ecu.dtcs code)) }
    ensures set { Both unit.old.unit unit.new.unit (λ old new. Sets old new (SetStatus code status)) }
    ensures unknown { Both unit.old.unit unit.new.unit (λ old new. 1 ≤ result → new ≡ old) }
{
    let Some(mut device) = mem::replace(unit, Handle::closed(alloc)).into_box() else {
        return CLOSED;
    };
    let answer = set_code(&mut device, code, status);
    *unit = Handle::opened(device);
    answer
}

/// Copies the journal's lines where there is room for all of them, and lets them go then.
fn tell_journal(device: &mut Device, text: &mut [u8], len: &mut usize) -> u32
    ensures copied { CopiesWhole device.old.text text.old text.new len.new result }
    ensures told { TellsOr device.old device.new result }
{
    let status = copy_whole(text, len, device.text());
    if status != DONE {
        return status;
    }
    device.text_was_told();
    DONE
}

/// The journal's lines since the last such call, where there is room for all of them; how long they are either way.
#[unsafe(no_mangle)]
pub extern "C" fn uds_unit_journal(
    alloc: Global,
    unit: &mut Handle,
    text: &mut [u8],
    len: &mut usize,
) -> u32
    ensures closed { unit.old.unit ≡ None → (result ≡ 16) × (text.new ≡ text.old) × (len.new ≡ len.old) }
    ensures copied { IfSome unit.old.unit (λ device. CopiesWhole device.text text.old text.new len.new result) }
    ensures told { Both unit.old.unit unit.new.unit (λ old new. TellsOr old new result) }
{
    let Some(mut device) = mem::replace(unit, Handle::closed(alloc)).into_box() else {
        return CLOSED;
    };
    let status = tell_journal(&mut device, text, len);
    *unit = Handle::opened(device);
    status
}

/// Frees the unit.
#[unsafe(no_mangle)]
pub extern "C" fn uds_unit_close(alloc: Global, unit: &mut Handle) -> u32
    ensures closed { unit.new.unit ≡ None }
    ensures status { result ≡ close_status unit.old.unit }
{
    match mem::replace(unit, Handle::closed(alloc)).into_box() {
        Some(_device) => DONE,
        None => CLOSED,
    }
}
