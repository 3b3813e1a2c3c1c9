//! The lines of exchanges, written.

ghost use Rattle.std.specs.Prelude.{◌≡◌, ◌++◌, length, take, OnOk, OnErr};
ghost use Rattle.std.specs.List.{flat_map};
ghost use Rattle.diag_setup.specs.Rows.{in_order};
ghost use Rattle.diag_setup.specs.Setup.{name_of};
ghost use Rattle.diag_comparing.specs.Keeping.{judged_number, line_at, lines_at, written_at};

use crate::stamps::Stamps;
use diag_can::KeptStamp;
use diag_judge::Judged;
use diag_setup::{Setup, TesterId};
use diag_told::{capture_line, tell};
use std::alloc::AllocError;

/// A tester's name; none where the setup has no such tester.
fn name_of(setup: &Setup, who: TesterId) -> &[u8]
    ensures { result.now ≡ name_of setup.now who }
{
    if usize::from(who.number()) <= setup.testers() {
        setup.name(who)
    } else {
        &[]
    }
}

/// Puts exchanges in the order of their lines, those of one line as they stand.
fn sort(batch: &mut Vec<Judged>) -> Result<(), AllocError>
    ensures { OnOk result (batch.new.items ≡ in_order judged_number batch.old.items) }
{
    if batch.len() < 2 {
        return Ok(());
    }
    batch.sort_by_key(|judged| capture_line(&judged.over).number)?;
    Ok(())
}

/// Adds the line of an exchange.
#[inline(always)]
fn add_line(
    setup: &Setup,
    stamps: &Stamps,
    judged: &Judged,
    last: &mut KeptStamp,
    text: &mut Vec<u8>,
) -> Result<(), AllocError>
    ensures ok { OnOk result (text.new.items ≡ text.old.items ++ line_at setup.now stamps.now judged.now) }
    ensures err { OnErr result (text.new.items ≡ text.old.items) }
{
    let at = capture_line(&judged.over);
    let moment = stamps.moment(at.number, at.moment)?;
    tell(
        text,
        last,
        name_of(setup, judged.who),
        moment,
        &judged.over,
        judged.agrees,
    )
}

/// Adds the line of an exchange, unless it is left out.
fn write_one(
    setup: &Setup,
    stamps: &Stamps,
    differences: bool,
    judged: &Judged,
    last: &mut KeptStamp,
    text: &mut Vec<u8>,
) -> Result<(), AllocError>
    ensures ok { OnOk result (text.new.items
        ≡ text.old.items ++ written_at setup.now stamps.now differences judged.now) }
    ensures err { OnErr result (text.new.items ≡ text.old.items) }
{
    if differences && judged.agrees {
        return Ok(());
    }
    add_line(setup, stamps, judged, last, text)
}

/// Adds the lines of exchanges, as they stand; where memory is refused, some of them.
#[inline(always)]
fn write_each(
    setup: &Setup,
    stamps: &Stamps,
    differences: bool,
    batch: &[Judged],
    last: &mut KeptStamp,
    text: &mut Vec<u8>,
) -> Result<(), AllocError>
    ensures ok { OnOk result (text.new.items
        ≡ text.old.items ++ flat_map (written_at setup.now stamps.now differences) batch.now) }
    ensures err { OnErr result (take (length text.old.items) text.new.items ≡ text.old.items) }
{
    for judged in batch {
        write_one(setup, stamps, differences, judged, last, text)?;
    }
    Ok(())
}

/// Adds the lines of exchanges, in the order of their lines; with `differences` those that agree are left out. The last
/// stamp is kept for the next.
///
/// # Errors
/// `AllocError` where memory is refused; the text stays as it was.
pub(crate) fn write_batch(
    setup: &Setup,
    stamps: &Stamps,
    differences: bool,
    batch: &mut Vec<Judged>,
    last: &mut KeptStamp,
    text: &mut Vec<u8>,
) -> Result<(), AllocError>
    ensures ok { OnOk result (text.new.items
        ≡ text.old.items ++ lines_at setup.now stamps.now differences batch.old.items) }
    ensures err { OnErr result (text.new.items ≡ text.old.items) }
{
    sort(batch)?;
    let before = text.len();
    let written = write_each(setup, stamps, differences, batch.as_slice(), last, text);
    if written.is_err() {
        text.truncate(before);
    }
    written
}
