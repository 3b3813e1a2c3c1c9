//! How a verdict is told.

ghost use Rattle.std.specs.Prelude.{◌≡◌, ◌++◌, ℕ, List, codes, decimal, IfOk, OnOk};
ghost use Rattle.hex.specs.Hex.{encode_upper};
ghost use Rattle.diag_setup.specs.Setup.{name_of};
ghost use Rattle.diag_bus.specs.Comparing.{ComparesLines};
ghost use Rattle.diag_bus.specs.Verdict.{agreement_text, expected_text, verdict_text};
ghost use Rattle.diag_text.specs.Agreed.{agreed_status, agreed_text, compares_nothing};

use diag_bus::{Comparisons, Difference, Verdict};
use diag_can::{KeptBytes, write_hex};
use diag_setup::{Setup, TesterId};
use std::alloc::{AllocError, Global};

/// How many frames agree, a line a tester, where the verdict is that all do; and last that nothing was compared, where
/// the recording has no frame of any tester.
///
/// # Errors
/// `AllocError` where memory is refused.
pub fn agreement_text(
    alloc: Global,
    setup: &Setup,
    kept: &Comparisons,
) -> Result<Vec<u8>, AllocError>
    ensures { IfOk result (λ text. (lines : List (List ℕ)) → ComparesLines setup.now kept.now lines
        → text.items ≡ agreed_text setup.now lines) }
{
    let mut text = tester_lines(alloc, setup, kept)?;
    if compares_nothing(setup, kept) {
        text.extend_from_slice(b"nothing compared\n")?;
    }
    Ok(text)
}

/// The status that the program ends with, where the verdict is that all frames agree: 9 where there are none, else 0.
pub fn agreement_status(setup: &Setup, kept: &Comparisons) -> u8
    ensures { (lines : List (List ℕ)) → ComparesLines setup.now kept.now lines
        → result ≡ agreed_status setup.now lines }
{
    if compares_nothing(setup, kept) { 9 } else { 0 }
}

/// Whether the recording has no frame of any tester.
fn compares_nothing(setup: &Setup, kept: &Comparisons) -> bool
    ensures { (lines : List (List ℕ)) → ComparesLines setup.now kept.now lines
        → result ≡ compares_nothing setup.now lines }
{
    for index in 0..setup.testers() {
        let who = setup.who(index);
        if kept.recorded(who) > 0 {
            return false;
        }
    }
    true
}

/// A line for each tester with how many frames agree.
fn tester_lines(alloc: Global, setup: &Setup, kept: &Comparisons) -> Result<Vec<u8>, AllocError>
    ensures { IfOk result (λ text. (lines : List (List ℕ)) → ComparesLines setup.now kept.now lines
        → text.items ≡ agreement_text setup.now lines) }
{
    let mut text = Vec::new(alloc);
    for index in 0..setup.testers() {
        let who = setup.who(index);
        add_agreement(&mut text, setup.name(who), kept.recorded(who))?;
    }
    Ok(text)
}

/// Adds the line of a tester of whom so many frames agree.
fn add_agreement(text: &mut Vec<u8>, name: &[u8], count: u64) -> Result<(), AllocError>
    ensures { OnOk result (text.new.items
        ≡ text.old.items ++ (name.now ++ codes " " ++ decimal count ++ codes " frames agree\n")) }
{
    text.extend_from_slice(name)?;
    text.extend_from_slice(b" ")?;
    add_number(text, count)?;
    text.extend_from_slice(b" frames agree\n")
}

/// Adds a number in decimal.
fn add_number(text: &mut Vec<u8>, number: u64) -> Result<(), AllocError>
    ensures { OnOk result (text.new.items ≡ text.old.items ++ decimal number) }
{
    let digits = format!(in *text.allocator(); "{number}")?;
    text.extend_from_slice(digits.as_bytes())
}

/// What is told of a verdict: the first frame that differs or is missing. Nothing where all agree.
///
/// # Errors
/// `AllocError` where memory is refused.
pub fn verdict_text(alloc: Global, setup: &Setup, verdict: &Verdict) -> Result<Vec<u8>, AllocError>
    ensures { IfOk result (λ text. text.items ≡ verdict_text setup.now verdict.now) }
{
    match verdict {
        Verdict::Agrees => Ok(Vec::new(alloc)),
        Verdict::Differs(who, difference) => difference_text(
            alloc,
            name_of(setup, *who),
            difference,
        ),
        Verdict::Lacks { who, count, next } => lack_text(alloc, name_of(setup, *who), *count, next),
    }
}

/// A tester's name; none where the setup has no such tester.
fn name_of(setup: &Setup, who: TesterId) -> &[u8]
    ensures { result.now ≡ name_of setup.now who }
{
    if usize::from(who.number()) <= setup.testers() {
        setup.name(who)
    } else {
        &[]
    }
}

/// What is told of a frame that differs.
fn difference_text(
    alloc: Global,
    name: &[u8],
    difference: &Difference,
) -> Result<Vec<u8>, AllocError>
    ensures { IfOk result (λ text. text.items
        ≡ codes "line " ++ decimal difference.now.line ++ codes ": " ++ name.now ++ codes " sent "
        ++ encode_upper difference.now.sent ++ codes ", expected "
        ++ expected_text difference.now.expected) }
{
    let mut text = Vec::from_slice(alloc, b"line ")?;
    add_number(&mut text, difference.line)?;
    text.extend_from_slice(b": ")?;
    text.extend_from_slice(name)?;
    text.extend_from_slice(b" sent ")?;
    write_hex(&mut text, difference.sent.as_slice())?;
    text.extend_from_slice(b", expected ")?;
    match &difference.expected {
        Some(bytes) => write_hex(&mut text, bytes.as_slice())?,
        None => text.extend_from_slice(b"nothing")?,
    }
    Ok(text)
}

/// What is told where frames are missing.
fn lack_text(
    alloc: Global,
    name: &[u8],
    count: u64,
    next: &KeptBytes,
) -> Result<Vec<u8>, AllocError>
    ensures { IfOk result (λ text. text.items
        ≡ name.now ++ codes " sent " ++ decimal count ++ codes " frames, expected "
        ++ encode_upper next.now ++ codes " next") }
{
    let mut text = Vec::from_slice(alloc, name)?;
    text.extend_from_slice(b" sent ")?;
    add_number(&mut text, count)?;
    text.extend_from_slice(b" frames, expected ")?;
    write_hex(&mut text, next.as_slice())?;
    text.extend_from_slice(b" next")?;
    Ok(text)
}
