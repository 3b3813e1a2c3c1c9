//! What the end of a recording adds.

ghost use Rattle.std.specs.Prelude.{◌≡◌, ◌<◌, ◌+◌, ◌++◌, ℕ, List, [], codes, decimal, length, IfOk, OnOk, OnErr};
ghost use Rattle.std.specs.List.{list_any};
ghost use Rattle.diag_setup.specs.Setup.{name_of};
ghost use Rattle.diag_port.specs.Port.{Grew};
ghost use Rattle.diag_compare.specs.Compare.{closing, last_line, status};
ghost use Rattle.diag_compare.specs.Expects.{expects};
ghost use Rattle.diag_comparing.specs.Keeping.{CountsEach, EndsEach, HasTaken, count_lines, count_text, nothing_in, some_compared, some_differ, status_in};

use crate::exchange_lines::ExchangeLines;
use crate::telling::write_batch;
use diag_can::KeptStamp;
use diag_judge::{Counts, Judged, Tester};
use diag_setup::Setup;
use itoa::Buffer;
use std::alloc::{AllocError, Global};

/// The status where an exchange differs.
const DIFFERS: u8 = 8;

/// The status where nothing was compared.
const NOTHING_COMPARED: u8 = 9;

/// What is counted of each tester's exchanges, in order; those that aren't over are put behind `judged`, one tester behind the
/// other.
fn end_each(
    testers: &[Tester],
    alloc: Global,
    setup: &Setup,
    judged: &mut Vec<Judged>,
) -> Result<Vec<Counts>, AllocError>
    requires { length testers.now ≡ length setup.now.testers }
    ensures judged { OnOk result (EndsEach setup.now testers.now judged.old.items judged.new.items) }
    ensures counts { IfOk result (λ counts. CountsEach setup.now testers.now counts.items) }
    ensures many { IfOk result (λ counts. length counts.items ≡ length testers.now) }
{
    let mut counts = Vec::new(alloc);
    for index in 0..testers.len() {
        let who = setup.who(index);
        let own = testers[index].end(alloc, who, judged)?;
        counts.push(own)?;
    }
    Ok(counts)
}

fn add_word(text: &mut Vec<u8>, word: &[u8]) -> Result<(), AllocError>
    ensures { OnOk result (text.new.items ≡ text.old.items ++ word.now) }
{
    text.extend_from_slice(word)
}

fn add_number(text: &mut Vec<u8>, number: u64) -> Result<(), AllocError>
    ensures { OnOk result (text.new.items ≡ text.old.items ++ decimal number) }
{
    let mut buffer = Buffer::new();
    add_word(text, buffer.format(number).as_bytes())
}

/// Adds the line of a tester of this name.
fn add_count(text: &mut Vec<u8>, name: &[u8], counts: Counts) -> Result<(), AllocError>
    ensures { OnOk result (text.new.items ≡ text.old.items ++ count_text name.now counts) }
{
    add_word(text, name)?;
    add_word(text, b" ")?;
    add_number(text, counts.count)?;
    add_word(text, b" exchanges, ")?;
    add_number(text, counts.differ)?;
    add_word(text, b" differ\n")
}

/// Adds the lines of the testers.
fn add_counts(text: &mut Vec<u8>, setup: &Setup, counts: &[Counts]) -> Result<(), AllocError>
    requires { length counts.now ≡ length setup.now.testers }
    ensures { OnOk result (text.new.items ≡ text.old.items ++ count_lines setup.now 1 counts.now) }
{
    for index in 0..counts.len() {
        let who = setup.who(index);
        add_count(text, setup.name(who), counts[index])?;
    }
    Ok(())
}

fn any_differs(counts: &[Counts]) -> bool
    ensures { result ≡ list_any some_differ counts.now }
{
    counts.iter().any(|own| own.differ > 0)
}

fn any_compared(counts: &[Counts]) -> bool
    ensures { result ≡ list_any some_compared counts.now }
{
    counts.iter().any(|own| own.compared)
}

/// Whether nothing differs, and there is no message of the unit to compare.
fn is_nothing(counts: &[Counts]) -> bool
    ensures { result ≡ nothing_in counts.now }
{
    !any_differs(counts) && !any_compared(counts)
}

/// Says so, where it is so.
fn add_last(text: &mut Vec<u8>, nothing: bool) -> Result<(), AllocError>
    ensures { OnOk result (text.new.items ≡ text.old.items ++ last_line nothing) }
{
    if nothing {
        return text.extend_from_slice(b"nothing compared\n");
    }
    Ok(())
}

/// The status that the program ends with.
fn status(counts: &[Counts]) -> u8
    ensures { result ≡ status_in counts.now }
{
    if any_differs(counts) {
        return DIFFERS;
    }
    if is_nothing(counts) {
        return NOTHING_COMPARED;
    }
    0
}

impl ExchangeLines {
    /// Where the recording ends here: adds the lines of the exchanges that aren't over, those of the testers, and with status 9
    /// a line that says that nothing was compared. The status is 8 where an exchange differs; where all agree it is 0, and 9
    /// where nothing was compared.
    ///
    /// # Errors
    /// `AllocError` where memory is refused: the text is as it was.
    pub fn end(&self, alloc: Global, setup: &Setup, text: &mut Vec<u8>) -> Result<u8, AllocError>
        requires { length self.now.testers.items ≡ length setup.now.testers }
        ensures ok { OnOk result (Grew text.old.items text.new.items (λ more.
            (lines : List (List ℕ)) → HasTaken self.now setup.now lines []
            → more ≡ closing (expects setup.now) setup.now self.now.differences lines)) }
        ensures status { IfOk result (λ number. (lines : List (List ℕ)) → HasTaken self.now setup.now lines []
            → number ≡ status (expects setup.now) setup.now lines) }
        ensures err { OnErr result (text.new.items ≡ text.old.items) }
    {
        let mut judged = Vec::new(alloc);
        let counts = end_each(self.testers.as_slice(), alloc, setup, &mut judged)?;
        let mut end = Vec::new(alloc);
        write_batch(
            setup,
            &self.stamps,
            self.differences,
            &mut judged,
            &mut KeptStamp::new(),
            &mut end,
        )?;
        add_counts(&mut end, setup, counts.as_slice())?;
        add_last(&mut end, is_nothing(counts.as_slice()))?;
        text.extend_from_slice(end.as_slice())?;
        Ok(status(counts.as_slice()))
    }
}
