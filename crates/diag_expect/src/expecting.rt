//! Which bytes of a reply vary, and which requests are ignored.

ghost use Rattle.std.specs.Prelude.{◌≡◌, ◌≤◌, ◌+◌, ◌*◌, ◌++◌, flat_map, length, map, option_map, replicate, slice_index, Some, IfOk, IsSome, OnErr, OnOk};
ghost use Rattle.std.specs.List.{list_any};
ghost use Rattle.diag_ecu.specs.Respond.{ids_in};
ghost use Rattle.diag_expect.specs.Expecting.{data_marks, did_of, is_ignored, is_mark, item_mark, marks_at, own_marks, record_marks, seed_marks, seed_varies, template_marks, varies_at};

use diag_pdu::Message;
use diag_setup::{RawDid, Setup, TemplateItem};
use diag_store::{find_row, fits};
use std::alloc::{AllocError, Global};

/// Whether the answer to a request isn't compared.
pub(crate) fn is_ignored(setup: &Setup, p: &[u8]) -> bool
    ensures { result ≡ is_ignored setup.now p.now }
{
    setup
        .ignore()
        .iter()
        .any(|pattern| fits(pattern.items.as_slice(), pattern.more, p))
}

fn item_mark(item: TemplateItem) -> u8
    ensures { result ≡ item_mark item }
{
    match item {
        TemplateItem::Byte(_) | TemplateItem::OfRequest(_) => 0,
        TemplateItem::Varies => 2,
    }
}

/// The marks of the items of a template.
fn item_marks(alloc: Global, items: &[TemplateItem]) -> Result<Vec<u8>, AllocError>
    ensures { IfOk result (λ marks. marks.items ≡ map item_mark items.now) }
{
    items.iter().map(|item| item_mark(*item)).collect(alloc)
}

/// Whether some byte doesn't count.
fn any_mark(marks: &[u8]) -> bool
    ensures { result ≡ list_any is_mark marks.now }
{
    marks.iter().any(|mark| *mark != 0)
}

/// The marks of a template, where it leaves bytes open.
pub(crate) fn template_marks(
    alloc: Global,
    items: &[TemplateItem],
) -> Result<Option<Message>, AllocError>
    requires { length items.now ≤ 4095 }
    ensures { IfOk result (λ marks. marks ≡ template_marks items.now) }
{
    let marks = item_marks(alloc, items)?;
    if !any_mark(marks.as_slice()) {
        return Ok(None);
    }
    Ok(Some(Message::from_vec(marks)))
}

/// The marks of the model's own reply.
///
/// # Errors
/// `AllocError` where memory is refused, which is asked for only where there are marks.
pub(crate) fn own_marks(
    alloc: Global,
    setup: &Setup,
    p: &[u8],
    reply: &[u8],
) -> Result<Option<Message>, AllocError>
    requires asked { 1 ≤ length p.now }
    requires some { 1 ≤ length reply.now }
    requires few { length reply.now ≤ 65535 }
    ensures marks { IfOk result (λ marks. marks ≡ own_marks setup.now p.now reply.now) }
    ensures err { OnErr result (IsSome (own_marks setup.now p.now reply.now)) }
{
    match reply {
        [0x62, ..] => data_marks(alloc, setup, p, reply),
        [0x67, ..] => seed_marks(alloc, setup, reply),
        _ => Ok(None),
    }
}

/// The marks of values that a request reads.
fn data_marks(
    alloc: Global,
    setup: &Setup,
    p: &[u8],
    reply: &[u8],
) -> Result<Option<Message>, AllocError>
    requires asked { 1 ≤ length p.now }
    requires some { 1 ≤ length reply.now }
    requires few { length reply.now ≤ 65535 }
    ensures marks { IfOk result (λ marks. marks ≡ data_marks setup.now p.now reply.now) }
    ensures err { OnErr result (IsSome (data_marks setup.now p.now reply.now)) }
{
    let ids = &p[1..];
    if !any_varies(setup, ids) {
        return Ok(None);
    }
    let mut marks = Vec::with_capacity(alloc, reply.len())?;
    marks.push(0)?;
    add_marks(&mut marks, setup, ids)?;
    marks.truncate(reply.len());
    Ok(Some(Message::from_vec(marks)))
}

fn did_of(setup: &Setup, id: u32) -> Option<&RawDid>
    ensures { option_map (λ did. did.now) result ≡ did_of setup.now id }
{
    find_row(setup.dids(), id)
}

/// The identifier of two bytes.
fn id_of(high: u8, low: u8) -> u32
    ensures { result ≡ 256 * high + low }
{
    256 * u32::from(high) + u32::from(low)
}

/// Whether one of these identifiers, of two bytes each, varies.
fn any_varies(setup: &Setup, ids: &[u8]) -> bool
    ensures { result ≡ list_any (varies_at setup.now) (ids_in ids.now) }
{
    let mut rest = ids;
    while let [high, low, tail @ ..] = rest {
        if let Some(did) = did_of(setup, id_of(*high, *low))
            && did.varies
        {
            return true;
        }
        rest = tail;
    }
    false
}

/// Adds the marks of their records.
fn add_marks(marks: &mut Vec<u8>, setup: &Setup, ids: &[u8]) -> Result<(), AllocError>
    ensures { OnOk result (marks.new.items
        ≡ marks.old.items ++ flat_map (marks_at setup.now) (ids_in ids.now)) }
{
    let mut rest = ids;
    while let [high, low, tail @ ..] = rest {
        if let Some(did) = did_of(setup, id_of(*high, *low)) {
            add_record(marks, did)?;
        }
        rest = tail;
    }
    Ok(())
}

/// Adds the marks of an identifier with its value.
fn add_record(marks: &mut Vec<u8>, did: &RawDid) -> Result<(), AllocError>
    ensures { OnOk result (marks.new.items ≡ marks.old.items ++ record_marks (Some did.now)) }
{
    marks.push(0)?;
    marks.push(0)?;
    add_many(marks, did.value.len(), if did.varies { 1 } else { 0 })
}

/// Adds a mark so many times.
fn add_many(marks: &mut Vec<u8>, count: usize, mark: u8) -> Result<(), AllocError>
    ensures { OnOk result (marks.new.items ≡ marks.old.items ++ replicate count mark) }
{
    for _made in 0..count {
        marks.push(mark)?;
    }
    Ok(())
}

/// The marks of a seed.
fn seed_marks(alloc: Global, setup: &Setup, reply: &[u8]) -> Result<Option<Message>, AllocError>
    requires some { 1 ≤ length reply.now }
    requires few { length reply.now ≤ 65535 }
    ensures marks { IfOk result (λ marks. marks ≡ seed_marks setup.now reply.now) }
    ensures err { OnErr result (IsSome (seed_marks setup.now reply.now)) }
{
    if !any_seed_varies(setup, reply) {
        return Ok(None);
    }
    let mut marks = Vec::with_capacity(alloc, reply.len() + 2)?;
    marks.push(0)?;
    marks.push(0)?;
    add_many(&mut marks, reply.len(), 1)?;
    marks.truncate(reply.len());
    Ok(Some(Message::from_vec(marks)))
}

/// Whether the seeds of the level vary that a reply names.
fn any_seed_varies(setup: &Setup, reply: &[u8]) -> bool
    ensures { result ≡ list_any (seed_varies (slice_index reply.now 1)) setup.now.levels }
{
    let sub = match reply.get(1) {
        Some(sub) => u32::from(*sub),
        None => 0,
    };
    setup
        .levels()
        .iter()
        .any(|level| level.request_seed == sub && level.varies)
}
