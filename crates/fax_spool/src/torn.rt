//! Calls that lack a page, by records of which some are damaged.
ghost use Rattle.std.specs.Prelude.{◌≡◌, ◌++◌, [], IfOk, OnOk};
ghost use Rattle.std.specs.List.{list_any};
ghost use Rattle.fax_spool.specs.Torn.{call_of, has_damage, is_damaged, is_next, is_of, is_of_any, is_previous, lacks_after, lacks_before, same_call, torn_among, torn_by, torn_calls};

use crate::{PageRecord, SpoolRecord, WaitingPage};
use std::alloc::{AllocError, Global};
use std::marker::Model;

/// Which call of all: in which life it came, under which number, and on which line.
pub struct CallName {
    /// The life of the process.
    pub life: u32,
    /// The number of the call on its line.
    pub call: u32,
    /// The name of its line.
    pub line: Vec<u8>,
}

impl Drop for CallName {
    fn drop(self) {
        let CallName {
            life: _life,
            call: _call,
            line: _line,
        } = self;
    }
}

impl Model for CallName {
    ghost use Rattle.fax_spool.specs.Torn.{CallName as CallNameValue};

    ghost Value = { CallNameValue };

    ghost view = { λ c. record { life = c.life; call = c.call; line = c.line.items } };
}

impl CallName {
    /// The call of a page.
    fn of_page(alloc: Global, page: &PageRecord<'_>) -> Result<CallName, AllocError>
        ensures { IfOk result (λ name. name ≡ call_of page.now) }
    {
        Ok(CallName {
            life: page.life,
            call: page.call,
            line: page.line.to_vec(alloc)?,
        })
    }

    /// Whether a page came in this call.
    fn has(&self, page: &WaitingPage) -> bool
        ensures { result ≡ is_of page.now self.now }
    {
        self.life == page.life
            && self.call == page.call
            && self.line.as_slice() == page.line.as_slice()
    }
}

/// Whether a page came in one of these calls.
pub fn is_torn(calls: &[CallName], page: &WaitingPage) -> bool
    ensures { result ≡ is_of_any calls.now page.now }
{
    for name in calls {
        if name.has(page) {
            return true;
        }
    }
    false
}

/// The calls that lack a page by the records of two files, in the order of their pages; a call may be named more than once. Where no
/// record is damaged there is none.
pub(crate) fn torn_calls(
    alloc: Global,
    olds: &[SpoolRecord<'_>],
    news: &[SpoolRecord<'_>],
) -> Result<Vec<CallName>, AllocError>
    ensures { IfOk result (λ calls. calls.items ≡ torn_calls (olds.now ++ news.now)) }
{
    let mut calls = Vec::new(alloc);
    if !has_damage(olds) && !has_damage(news) {
        return Ok(calls);
    }
    push_torn(&mut calls, alloc, &[], olds, news)?;
    push_torn(&mut calls, alloc, olds, news, &[])?;
    Ok(calls)
}

/// The torn calls of records that stand before and after others.
fn push_torn(
    calls: &mut Vec<CallName>,
    alloc: Global,
    before: &[SpoolRecord<'_>],
    records: &[SpoolRecord<'_>],
    after: &[SpoolRecord<'_>],
) -> Result<(), AllocError>
    ensures { OnOk result (calls.new.items
        ≡ calls.old.items ++ torn_among before.now records.now after.now) }
{
    for (i, kept) in records.iter().enumerate() {
        push_torn_by(
            calls,
            alloc,
            kept,
            before,
            &records[..i],
            &records[i + 1..],
            after,
        )?;
    }
    Ok(())
}

/// The call of a record's page, where a page lacks beside it: by the records far before it and near, and those near after it and far.
fn push_torn_by(
    calls: &mut Vec<CallName>,
    alloc: Global,
    kept: &SpoolRecord<'_>,
    far_before: &[SpoolRecord<'_>],
    before: &[SpoolRecord<'_>],
    after: &[SpoolRecord<'_>],
    far_after: &[SpoolRecord<'_>],
) -> Result<(), AllocError>
    ensures { OnOk result (calls.new.items ≡ calls.old.items
        ++ torn_by (far_before.now ++ before.now) kept.now (after.now ++ far_after.now)) }
{
    let SpoolRecord::Page(page) = kept else {
        return Ok(());
    };
    if lacks_before(far_before, before, page) || lacks_after(page, after, far_after) {
        calls.push(CallName::of_page(alloc, page)?)?;
    }
    Ok(())
}

/// Whether the page before this one in its call lacks, and a damaged record may be its own.
#[tactic(auto, using(crate::proofs::TornCalls::before_parts))]
fn lacks_before(far: &[SpoolRecord<'_>], near: &[SpoolRecord<'_>], page: &PageRecord<'_>) -> bool
    ensures { result ≡ lacks_before (far.now ++ near.now) page.now }
{
    page.number > 1
        && !has_previous(near, page)
        && !has_previous(far, page)
        && (has_damage(far) || has_damage(near))
}

/// Whether the page after this one in its call lacks, and a damaged record may be its own.
#[tactic(auto, using(crate::proofs::TornCalls::after_parts))]
fn lacks_after(page: &PageRecord<'_>, near: &[SpoolRecord<'_>], far: &[SpoolRecord<'_>]) -> bool
    ensures { result ≡ lacks_after page.now (near.now ++ far.now) }
{
    !page.closes
        && !has_next(near, page)
        && !has_next(far, page)
        && (has_damage(near) || has_damage(far))
}

/// Whether one of these records is that of the page before this one in its call. The last ones are looked at first.
fn has_previous(records: &[SpoolRecord<'_>], page: &PageRecord<'_>) -> bool
    ensures { result ≡ list_any (is_previous page.now) records.now }
{
    let mut end = records.len();
    while end > 0 {
        end -= 1;
        if is_previous(page, &records[end]) {
            return true;
        }
    }
    false
}

/// Whether one of these records is that of the page after this one in its call.
fn has_next(records: &[SpoolRecord<'_>], page: &PageRecord<'_>) -> bool
    ensures { result ≡ list_any (is_next page.now) records.now }
{
    for kept in records {
        if is_next(page, kept) {
            return true;
        }
    }
    false
}

/// Whether one of these records is damaged.
fn has_damage(records: &[SpoolRecord<'_>]) -> bool
    ensures { result ≡ has_damage records.now }
{
    for kept in records {
        if is_damaged(kept) {
            return true;
        }
    }
    false
}

/// Whether a record is that of the page after this one in its call.
fn is_next(page: &PageRecord<'_>, kept: &SpoolRecord<'_>) -> bool
    ensures { result ≡ is_next page.now kept.now }
{
    match kept {
        SpoolRecord::Page(other) => {
            is_of_call(page, other) && u64::from(other.number) == u64::from(page.number) + 1
        }
        SpoolRecord::Ended(_) => false,
        SpoolRecord::Epoch(_) => false,
        SpoolRecord::Damaged => false,
    }
}

/// Whether a record is that of the page before this one in its call.
fn is_previous(page: &PageRecord<'_>, kept: &SpoolRecord<'_>) -> bool
    ensures { result ≡ is_previous page.now kept.now }
{
    match kept {
        SpoolRecord::Page(other) => {
            is_of_call(page, other) && u64::from(page.number) == u64::from(other.number) + 1
        }
        SpoolRecord::Ended(_) => false,
        SpoolRecord::Epoch(_) => false,
        SpoolRecord::Damaged => false,
    }
}

/// Whether two pages came in one call.
pub(crate) fn is_of_call(page: &PageRecord<'_>, other: &PageRecord<'_>) -> bool
    ensures { result ≡ same_call page.now other.now }
{
    page.life == other.life && page.call == other.call && page.line == other.line
}

/// Whether a record is damaged.
pub(crate) fn is_damaged(kept: &SpoolRecord<'_>) -> bool
    ensures { result ≡ is_damaged kept.now }
{
    match kept {
        SpoolRecord::Damaged => true,
        SpoolRecord::Page(_) => false,
        SpoolRecord::Ended(_) => false,
        SpoolRecord::Epoch(_) => false,
    }
}
