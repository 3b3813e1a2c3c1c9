//! Records of DTCs, whose order isn't given.

ghost use Rattle.std.specs.Prelude.{◌≡◌, ◌≤◌, ◌<◌, ◌∷◌, ◌&&◌, true, bytes_eq, length, map, take, drop, IfOk, OnErr};
ghost use Rattle.diag_exchange.specs.Agreeing.{lists_records, records, same_in_any_order, same_records};

use std::alloc::{AllocError, Global};

/// Whether a reply lists DTCs, of which no order is given (ISO 14229-1:2013, 11.3).
fn lists_records(reply: &[u8]) -> bool
    ensures { result ≡ lists_records reply.now }
{
    matches!(reply, [0x59, 0x02 | 0x0A, ..])
}

/// The first record of a list, of four bytes or what there are, and the others.
fn first_record(list: &[u8]) -> (&[u8], &[u8])
    requires { 1 ≤ length list.now }
    ensures is { records list.now ≡ result.0.now ∷ records result.1.now }
    ensures shorter { length result.1.now < length list.now }
{
    list.split_at(list.len().min(4))
}

/// The records of a list, in their order.
///
/// # Errors
/// `AllocError` where memory is refused.
fn records(alloc: Global, list: &[u8]) -> Result<Vec<&[u8]>, AllocError>
    ensures { IfOk result (λ found. map (λ r. r.now) found.items ≡ records list.now) }
{
    let mut found = Vec::new(alloc);
    let mut rest = list;
    while !rest.is_empty() {
        let (first, others) = first_record(rest);
        found.push(first)?;
        rest = others;
    }
    Ok(found)
}

/// Whether two lists have the same records, each as often.
///
/// # Errors
/// `AllocError` where memory is refused.
fn same_records(alloc: Global, one: &[u8], other: &[u8]) -> Result<bool, AllocError>
    ensures { IfOk result (λ same. same ≡ same_records (records one.now) (records other.now)) }
{
    let mut ones = records(alloc, one)?;
    let mut others = records(alloc, other)?;
    ones.sort_unstable();
    others.sort_unstable();
    Ok(ones.as_slice() == others.as_slice())
}

/// Service, kind and mask of a list, and its records.
fn parts(list: &[u8]) -> (&[u8], &[u8])
    ensures head { result.0.now ≡ take 3 list.now }
    ensures records { result.1.now ≡ drop 3 list.now }
{
    list.split_at(list.len().min(3))
}

/// Whether a message has the records of a list of DTCs, in whatever order.
///
/// # Errors
/// `AllocError` where memory is refused, which is asked for only to compare records.
pub(crate) fn same_in_any_order(
    alloc: Global,
    sent: &[u8],
    reply: &[u8],
) -> Result<bool, AllocError>
    ensures same { IfOk result (λ same. same ≡ same_in_any_order sent.now reply.now) }
    ensures err { OnErr result ((lists_records reply.now && bytes_eq (take 3 sent.now) (take 3 reply.now)) ≡ true) }
{
    let (sent_head, sent_records) = parts(sent);
    let (head, wanted_records) = parts(reply);
    if !lists_records(reply) || sent_head != head {
        return Ok(false);
    }
    same_records(alloc, sent_records, wanted_records)
}
