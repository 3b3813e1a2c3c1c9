//! The tests that the rows of answers have to pass.

ghost use Rattle.std.specs.Prelude.{◌≡◌, length, nat_le};
ghost use Rattle.std.specs.List.{list_all, sum_by};
ghost use Rattle.diag_setup.specs.Setup.{item_is_in_range, template_is_in_range, reply_is_in_range, enter_is_in_range, answer_is_in_range, answers_are_in_range, is_in_time, latest_answer_ms, template_count};

use crate::check::{Ranged, are_in_range, is_between_len};
use crate::items::Items;
use crate::raw::{RawAnswer, RawSetup, TemplateItem};

/// The most rows of answers.
const MOST_ANSWERS: usize = 1024;

/// The most templates of a row.
const MOST_TEMPLATES: usize = 4096;

/// The most templates of a setup.
const MOST_TEMPLATES_IN_ALL: usize = 65_536;

/// The most items of a template.
const MOST_TEMPLATE_ITEMS: usize = 4095;

/// How often *response pending* comes before an answer at most.
const MOST_PENDINGS: u64 = 255;

/// Whether an item names a byte only of those that each request of a pattern of so many items has.
fn item_is_in_range(item: &TemplateItem, pattern_items: usize) -> bool
    ensures { result ≡ item_is_in_range pattern_items item.now }
{
    match item {
        TemplateItem::OfRequest(at) => usize::from(*at) < pattern_items,
        TemplateItem::Byte(_) | TemplateItem::Varies => true,
    }
}

fn items_are_in_range(items: &[TemplateItem], pattern_items: usize) -> bool
    ensures { result ≡ list_all (item_is_in_range pattern_items) items.now }
{
    items
        .iter()
        .all(|item| item_is_in_range(item, pattern_items))
}

fn template_is_in_range(template: &[TemplateItem], pattern_items: usize) -> bool
    ensures { result ≡ template_is_in_range pattern_items template.now }
{
    template.len() <= MOST_TEMPLATE_ITEMS && items_are_in_range(template, pattern_items)
}

fn templates_are_in_range(templates: &[Items<TemplateItem>], pattern_items: usize) -> bool
    ensures { result ≡ list_all (template_is_in_range pattern_items) templates.now }
{
    templates.iter().all(|template| template_is_in_range(template.as_slice(), pattern_items))
}

impl RawAnswer {
    fn reply_is_in_range(&self) -> bool
        ensures { result ≡ reply_is_in_range (length self.now.pattern) self.now.reply }
    {
        match &self.reply {
            Some(templates) => {
                is_between_len(1, MOST_TEMPLATES, templates.len())
                    && templates_are_in_range(templates.as_slice(), self.pattern.len())
            }
            None => true,
        }
    }

    fn enter_is_in_range(&self) -> bool
        ensures { result ≡ enter_is_in_range self.now }
    {
        self.enter <= 126 && (self.enter == 0 || self.reply.is_some())
    }

    fn template_count(&self) -> usize
        ensures { result ≡ template_count self.now }
    {
        match &self.reply {
            Some(templates) => templates.len(),
            None => 0,
        }
    }
}

impl Ranged for RawAnswer {
    ghost in_range = { answer_is_in_range };

    fn is_in_range(&self) -> bool {
        is_between_len(1, 64, self.pattern.len())
            && self.reply_is_in_range()
            && self.session <= 126
            && self.enter_is_in_range()
            && self.after_ms <= 600_000
    }
}

/// Whether there are at most so many templates in all.
fn has_few_templates(rows: &[RawAnswer]) -> bool
    ensures { result ≡ nat_le (sum_by template_count rows.now) 65536 }
{
    let mut left = MOST_TEMPLATES_IN_ALL;
    for row in rows {
        let count = row.template_count();
        if left < count {
            return false;
        }
        left -= count;
    }
    true
}

fn all_are_in_time(rows: &[RawAnswer], latest_ms: u64) -> bool
    ensures { result ≡ list_all (is_in_time latest_ms) rows.now }
{
    rows.iter().all(|row| u64::from(row.after_ms) <= latest_ms)
}

/// The latest that an answer goes, in milliseconds after its request.
fn latest_answer_ms(p2_ms: u32, p2_star_10ms: u32) -> u64
    ensures { result ≡ latest_answer_ms p2_ms p2_star_10ms }
{
    let p2_star_ms = 10 * u64::from(p2_star_10ms);
    u64::from(p2_ms) + MOST_PENDINGS * p2_star_ms.max(1)
}

impl RawSetup {
    pub(crate) fn answers_are_in_range(&self) -> bool
        ensures { result ≡ answers_are_in_range self.now }
    {
        let rows = self.answers.as_slice();
        are_in_range(rows, MOST_ANSWERS)
            && all_are_in_time(rows, latest_answer_ms(self.p2_ms, self.p2_star_10ms))
            && has_few_templates(rows)
    }
}
