//! The table of answers: rows that answer requests before the services do, and say how long after a request its answer
//! goes.

ghost use Rattle.std.specs.Prelude.{◌≡◌, ◌≤◌, ◌<◌, ◌+◌, ◌↔◌, IfOk, IsTrue, [], length, map, option_map, option_copied, position, slice_get};
ghost use Rattle.std.specs.List.{All};
ghost use Rattle.diag_setup.specs.Fits.{AnswerFits};
ghost use Rattle.diag_store.specs.Answers.{is_of, any_late, fits, row_first, filled_item, filled, template_now, has_reply, applies, index_for, row_for, next_after, rows_moved_on};
ghost use Rattle.diag_store.specs.Opening.{answer_row, opening_answers};

use diag_setup::{Items, PatternItem, RawAnswer, Setup, TemplateItem};
use std::alloc::{AllocError, Global};
use std::marker::Model;

/// What a tester has access to: its session, and the level that is open to it.
#[derive(Clone, Copy)]
pub struct Access {
    /// The number of its session (ISO 14229-1:2013, 9.2).
    pub session: u8,
    /// The odd sub-function of the level that is unlocked for it.
    pub unlocked: Option<u8>,
}

/// The items of a pattern.
#[derive(Drop)]
pub struct Pattern {
    items: Vec<PatternItem>,
}

impl Model for Pattern {
    ghost use Rattle.std.specs.Prelude.{List};
    ghost use Rattle.diag_setup.specs.declared.raw.PatternItem.{PatternItem};

    ghost Value = { List PatternItem };

    ghost view = { λ d. d.items.items };
}

/// The items of a template, 4095 at most.
#[derive(Drop)]
pub struct Template {
    items: Vec<TemplateItem>,
}

impl Model for Template {
    ghost use Rattle.std.specs.Prelude.{List};
    ghost use Rattle.diag_setup.specs.declared.raw.TemplateItem.{TemplateItem};

    ghost Value = { List TemplateItem };

    ghost view = { λ d. d.items.items };

    ghost use Rattle.std.specs.Prelude.{length, ◌≤◌};

    ghost invariant = { λ d. length d.items.items ≤ 4095 };
}

/// The templates of a row, 4096 at most.
#[derive(Drop)]
pub struct Templates {
    rows: Vec<Template>,
}

impl Model for Templates {
    ghost use Rattle.std.specs.Prelude.{List, length, ◌≤◌};
    ghost use Rattle.diag_setup.specs.declared.raw.TemplateItem.{TemplateItem};

    ghost Value = { List (List TemplateItem) };

    ghost view = { λ d. d.rows.items };

    ghost invariant = { λ d. length d.rows.items ≤ 4096 };
}

/// A row: which requests it is for, and what is answered.
#[derive(Drop)]
pub struct AnswerRow {
    /// The bytes of the requests.
    pub pattern: Pattern,
    /// Whether a request may have more bytes behind those.
    pub more: bool,
    /// Of what the answers are made in turn; none leaves the answer to the services.
    pub templates: Templates,
    /// The session that it is for; 0 is any.
    pub session: u8,
    /// The odd sub-function of the level that it needs; 0 is open.
    pub level: u8,
    /// The session that it enters; 0 is none.
    pub enter: u8,
    /// How long after the request the answer goes, in milliseconds.
    pub after_ms: u32,
    /// Which template is next, from 0.
    pub next: u16,
}

/// The rows in the setup's order, 1024 at most.
///
/// What the first byte of a request has to be stands apart, so that a look at it costs no look at its row.
#[derive(Drop)]
pub struct Answers {
    rows: Vec<AnswerRow>,
    firsts: Vec<PatternItem>,
    /// Whether a row has its answer go later than at once.
    delays: bool,
}

impl Model for Answers {
    ghost use Rattle.std.specs.Prelude.{List};
    ghost use Rattle.diag_store.specs.declared.answers.AnswerRow.{AnswerRow};

    ghost Value = { List AnswerRow };

    ghost view = { λ d. d.rows.items };

    ghost use Rattle.std.specs.Prelude.{◌≡◌, ◌≤◌, length, map};
    ghost use Rattle.diag_store.specs.Answers.{any_late, row_first};

    ghost invariant = { λ d.
        (length d.rows.items ≤ 1024)
        × (d.firsts.items ≡ map row_first d.rows.items)
        × (d.delays ≡ any_late d.rows.items) };
}

impl Answers {
    /// The rows at the opening, where memory isn't refused.
    pub fn new(alloc: Global, setup: &Setup) -> Result<Answers, AllocError>
        ensures { IfOk result (λ answers. answers ≡ opening_answers setup.now) }
    {
        let answers = setup.answers();
        let mut firsts = Vec::new(alloc);
        let mut rows = Vec::new(alloc);
        for answer in answers {
            let row = answer_row(alloc, answer)?;
            firsts.push(row.first())?;
            rows.push(row)?;
        }
        let delays = any_late(&rows);
        Ok(Answers {
            rows,
            firsts,
            delays,
        })
    }

    /// Another table with the same rows, where memory isn't refused.
    pub fn try_copy(&self) -> Result<Answers, AllocError>
        ensures { IfOk result (λ copy. copy ≡ self.now) }
    {
        let firsts = self.firsts.clone()?;
        let mut rows = Vec::new(*self.rows.allocator());
        for row in &self.rows {
            rows.push(row.try_copy()?)?;
        }
        Ok(Answers {
            rows,
            firsts,
            delays: self.delays,
        })
    }

    /// Whether there is no row.
    #[inline(always)]
    pub fn is_empty(&self) -> bool
        ensures { IsTrue result ↔ (self.now ≡ []) }
    {
        self.rows.is_empty()
    }

    /// Whether a row has its answer go later than at once.
    #[inline(always)]
    pub fn any_late(&self) -> bool
        ensures { result ≡ any_late self.now }
    {
        self.delays
    }

    /// The first row that applies to a request of a tester that has access to so much, behind its index.
    ///
    /// It costs one look at the first byte of each row, and one at each row that this byte fits, up to that row.
    pub fn row_for(&self, access: Access, p: &[u8]) -> Option<(u16, &AnswerRow)>
        requires { 1 ≤ length p.now }
        ensures index { option_map (λ found. found.0) result ≡ index_for self.now access p.now }
        ensures row { option_map (λ found. found.1.now) result ≡ row_for self.now access p.now }
    {
        let rows = self.rows.as_slice();
        match index_in(&self.firsts, rows, access, p) {
            Some(index) => Some((index as u16, &rows[index])),
            None => None,
        }
    }

    /// The row at an index.
    pub fn row(&self, index: u16) -> Option<&AnswerRow>
        ensures { option_copied result ≡ slice_get self.now index }
    {
        self.rows.get(index as usize)
    }

    /// The next template of the row at an index moves on, after the last to the first.
    pub fn move_on(&mut self, index: u16)
        ensures { self.new ≡ rows_moved_on self.old index }
    {
        move_on(&mut self.rows, index as usize);
    }
}

fn any_late(rows: &[AnswerRow]) -> bool
    ensures { result ≡ any_late rows.now }
{
    rows.iter().any(|row| row.after_ms > 0)
}

/// The index of the first row that applies.
fn index_in(firsts: &[PatternItem], rows: &[AnswerRow], access: Access, p: &[u8]) -> Option<usize>
    requires some { 1 ≤ length p.now }
    requires firsts { firsts.now ≡ map row_first rows.now }
    ensures { result ≡ position (applies access p.now) rows.now }
{
    for (index, first) in firsts.iter().enumerate() {
        if !is_of(*first, p[0]) {
            continue;
        }
        if rows[index].applies(access, p) {
            return Some(index);
        }
    }
    None
}

fn move_on(rows: &mut [AnswerRow], index: usize)
    ensures { rows.new ≡ rows_moved_on rows.old index }
{
    if index < rows.len() {
        let row = &mut rows[index];
        row.next = row.template_after();
    }
}

impl AnswerRow {
    /// What the first byte of a request has to be.
    fn first(&self) -> PatternItem
        ensures { result ≡ row_first self.now }
    {
        match self.pattern.items.first() {
            Some(item) => *item,
            None => PatternItem::Any,
        }
    }

    /// Whether the row applies to a request.
    fn applies(&self, access: Access, p: &[u8]) -> bool
        ensures { result ≡ applies access p.now self.now }
    {
        fits(&self.pattern.items, self.more, p)
            && (self.session == 0 || self.session == access.session)
            && (self.level == 0 || access.unlocked == Some(self.level))
    }

    /// Whether the row answers, and doesn't leave that to the services.
    pub fn has_reply(&self) -> bool
        ensures { result ≡ has_reply self.now }
    {
        !self.templates.rows.is_empty()
    }

    /// The items of the next template.
    pub fn template_now(&self) -> &[TemplateItem]
        ensures is { result.now ≡ template_now self.now }
        ensures few { length result.now ≤ 4095 }
    {
        match self.templates.rows.get(self.next as usize) {
            Some(template) => template.items.as_slice(),
            None => &[],
        }
    }

    /// The next template, filled by a request.
    pub fn filled(&self, alloc: Global, p: &[u8]) -> Result<Vec<u8>, AllocError>
        ensures bytes { IfOk result (λ bytes. bytes.items ≡ filled (template_now self.now) p.now) }
        ensures few { IfOk result (λ bytes. length bytes.items ≤ 4095) }
    {
        match self.templates.rows.get(self.next as usize) {
            Some(template) => template.filled(alloc, p),
            None => Ok(Vec::new(alloc)),
        }
    }

    /// Which template is next once one has answered.
    fn template_after(&self) -> u16
        ensures { result ≡ next_after self.now }
    {
        let count = self.templates.len();
        if count == 0 {
            return self.next;
        }
        ((self.next as usize + 1) % count) as u16
    }

    fn try_copy(&self) -> Result<AnswerRow, AllocError>
        ensures { IfOk result (λ copy. copy ≡ self.now) }
    {
        let pattern = self.pattern.try_copy()?;
        let templates = self.templates.try_copy()?;
        Ok(AnswerRow {
            pattern,
            more: self.more,
            templates,
            session: self.session,
            level: self.level,
            enter: self.enter,
            after_ms: self.after_ms,
            next: self.next,
        })
    }
}

impl Pattern {
    fn try_copy(&self) -> Result<Pattern, AllocError>
        ensures { IfOk result (λ copy. copy ≡ self.now) }
    {
        let items = self.items.clone()?;
        Ok(Pattern { items })
    }
}

impl Template {
    fn filled(&self, alloc: Global, p: &[u8]) -> Result<Vec<u8>, AllocError>
        ensures bytes { IfOk result (λ bytes. bytes.items ≡ filled self.now p.now) }
        ensures few { IfOk result (λ bytes. length bytes.items ≤ 4095) }
    {
        fill(alloc, &self.items, p)
    }

    fn try_copy(&self) -> Result<Template, AllocError>
        ensures { IfOk result (λ copy. copy ≡ self.now) }
    {
        let items = self.items.clone()?;
        Ok(Template { items })
    }
}

impl Templates {
    fn len(&self) -> usize
        ensures same { result ≡ length self.now }
        ensures few { result ≤ 4096 }
    {
        self.rows.len()
    }

    fn try_copy(&self) -> Result<Templates, AllocError>
        ensures { IfOk result (λ copy. copy ≡ self.now) }
    {
        let mut rows = Vec::new(*self.rows.allocator());
        for row in &self.rows {
            rows.push(row.try_copy()?)?;
        }
        Ok(Templates { rows })
    }
}

/// Whether a byte is the one of an item.
fn is_of(item: PatternItem, b: u8) -> bool
    ensures { result ≡ is_of item b }
{
    match item {
        PatternItem::Byte(n) => n == b,
        PatternItem::Any => true,
    }
}

/// Whether a request fits a pattern: it has the bytes of its items, and behind them none, or any where more may come.
pub fn fits(items: &[PatternItem], more: bool, p: &[u8]) -> bool
    ensures { result ≡ fits items.now more p.now }
{
    if p.len() < items.len() {
        return false;
    }
    for (index, item) in items.iter().enumerate() {
        if !is_of(*item, p[index]) {
            return false;
        }
    }
    more || p.len() == items.len()
}

/// The byte that an item stands for in the answer to a request.
fn filled_item(item: TemplateItem, p: &[u8]) -> u8
    ensures { result ≡ filled_item p.now item }
{
    match item {
        TemplateItem::Byte(n) => n,
        TemplateItem::OfRequest(k) => match p.get(k as usize) {
            Some(b) => *b,
            None => 0,
        },
        TemplateItem::Varies => 0,
    }
}

/// A template, filled by a request.
fn fill(alloc: Global, items: &[TemplateItem], p: &[u8]) -> Result<Vec<u8>, AllocError>
    ensures bytes { IfOk result (λ bytes. bytes.items ≡ filled items.now p.now) }
    ensures len { IfOk result (λ bytes. length bytes.items ≡ length items.now) }
{
    let mut bytes = Vec::with_capacity(alloc, items.len())?;
    for item in items {
        bytes.push_reserved(filled_item(*item, p));
    }
    Ok(bytes)
}

fn answer_row(alloc: Global, row: &RawAnswer) -> Result<AnswerRow, AllocError>
    requires { AnswerFits row.now }
    ensures { IfOk result (λ made. made ≡ answer_row row.now) }
{
    let pattern = Pattern {
        items: row.pattern.as_slice().to_vec(alloc)?,
    };
    let templates = match &row.reply {
        Some(reply) => templates_of(alloc, reply.as_slice())?,
        None => Templates {
            rows: Vec::new(alloc),
        },
    };
    Ok(AnswerRow {
        pattern,
        more: row.more,
        templates,
        session: row.session as u8,
        level: row.level as u8,
        enter: row.enter as u8,
        after_ms: row.after_ms,
        next: 0,
    })
}

fn templates_of(alloc: Global, templates: &[Items<TemplateItem>]) -> Result<Templates, AllocError>
    requires few { length templates.now ≤ 4096 }
    requires short { All (λ template. length template ≤ 4095) templates.now }
    ensures { IfOk result (λ made. made ≡ templates.now) }
{
    let mut rows = Vec::new(alloc);
    for template in templates {
        rows.push(template_of(alloc, template)?)?;
    }
    Ok(Templates { rows })
}

fn template_of(alloc: Global, template: &Items<TemplateItem>) -> Result<Template, AllocError>
    requires { length template.now ≤ 4095 }
    ensures { IfOk result (λ made. made ≡ template.now) }
{
    let items = template.as_slice().to_vec(alloc)?;
    Ok(Template { items })
}
