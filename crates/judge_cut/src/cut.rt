// An exchange as a part of its connection's items.
ghost use Rattle.std.specs.Prelude.{◌≡◌, ◌≤◌, ◌<◌, ◌+◌, ◌||◌, ◌++◌, ◌∷◌, [], ℕ, IfOk, true, false, length, drop, get_or};
ghost use Rattle.host_trace.specs.declared.items.Item.{Item as AnItem};
ghost use Rattle.host_base.specs.declared.site.Site.{Site as ASite};
ghost use Rattle.trace_model.specs.Closes.{closes};
ghost use Rattle.trace_model.specs.Exchange.{first_exchange};
ghost use Rattle.trace_model.specs.Exchanges.{current, following, has_ended, left_over, next_of};
ghost use Rattle.judge_cut.specs.Views.{IsAt, exchange_of};

use host_base::{Bytes, NoMemory};
use host_trace::Item;
use std::alloc::Global;

/// The exchange that goes on after some of a connection's items.
#[derive(Drop)]
pub struct View<'t> {
    pub own: &'t [Item],
    pub number: u128,
    pub rest: Bytes,
    pub closed: bool,
    pub start: usize,
    pub end: usize,
}

/// What the cut looks at.
pub trait Cuts {
    ghost site: { Self → ASite };

    ghost conn: { Self → ℕ };

    fn has_ended(&self, e: &View) -> Result<bool, NoMemory>
        ensures { IfOk result (λ yes. yes ≡ has_ended (site self.now) (conn self.now) (exchange_of e.now)) };

    fn left_over(&self, e: &View) -> Result<Bytes, NoMemory>
        ensures { IfOk result (λ rest. rest ≡ left_over (site self.now) (conn self.now) (exchange_of e.now)) };

    fn closes(&self, e: &View) -> Result<bool, NoMemory>
        ensures { IfOk result (λ yes. yes ≡ closes (site self.now) (conn self.now) (exchange_of e.now)) };
}

/// The first exchange, before any item.
pub fn first<'t>(alloc: Global, own: &'t [Item]) -> View<'t>
    ensures first { exchange_of result ≡ first_exchange }
    ensures at { IsAt result own.now 0 }
{
    View {
        own,
        number: 0,
        rest: Bytes::new(alloc),
        closed: false,
        start: 0,
        end: 0,
    }
}

impl<'t> View<'t> {
    ghost use Rattle.std.specs.Prelude.{◌≡◌, ◌≤◌, length};
    ghost use Rattle.judge_cut.specs.Views.{exchange_of};

    /// Its items.
    pub fn items(&self) -> &'t [Item]
        requires start { self.now.start ≤ self.now.end }
        requires end { self.now.end ≤ length self.now.own.now }
        ensures { result.now ≡ (exchange_of self.now).items }
    {
        &self.own[self.start..self.end]
    }
}

// Whether an answer closes the connection, that of the exchange or an earlier one.
fn closes_from<J: Cuts>(judge: &J, e: &View) -> Result<bool, NoMemory>
    ensures { IfOk result (λ yes. yes ≡ (e.now.closed || closes (J.site judge.now) (J.conn judge.now) (exchange_of e.now))) }
{
    if e.closed {
        return Ok(true);
    }
    judge.closes(e)
}

// The exchange that follows one that has ended.
fn following<'t, J: Cuts>(judge: &J, e: View<'t>) -> Result<View<'t>, NoMemory>
    requires some { e.start < e.end }
    requires number { e.number ≤ e.start }
    requires end { e.end ≤ length e.own.now }
    ensures follows { IfOk result (λ next. exchange_of next ≡ following (J.site judge.now) (J.conn judge.now) (exchange_of e.entry)) }
    ensures at { IfOk result (λ next. IsAt next e.entry.own.now e.entry.end) }
{
    let rest = judge.left_over(&e)?;
    let closed = closes_from(judge, &e)?;
    let View {
        own,
        number,
        rest: _,
        closed: _,
        start: _,
        end,
    } = e;
    Ok(View {
        own,
        number: number + 1,
        rest,
        closed,
        start: end,
        end,
    })
}

// The exchange with the next item.
fn pushed<'t>(e: View<'t>) -> View<'t>
    requires { e.end < length e.own.now }
    ensures { result ≡ record e.entry { end = e.entry.end + 1 } }
{
    let View {
        own,
        number,
        rest,
        closed,
        start,
        end,
    } = e;
    View {
        own,
        number,
        rest,
        closed,
        start,
        end: end + 1,
    }
}

// The exchange that goes on after the next item.
fn next_of<'t, J: Cuts>(judge: &J, e: View<'t>) -> Result<View<'t>, NoMemory>
    requires start { e.start ≤ e.end }
    requires number { e.number ≤ e.start }
    requires end { e.end < length e.own.now }
    ensures next { (x : AnItem) → x ≡ get_or e.entry.own.now e.entry.end x
        → IfOk result (λ next. exchange_of next ≡ next_of (J.site judge.now) (J.conn judge.now) (exchange_of e.entry) x) }
    ensures at { IfOk result (λ next. IsAt next e.entry.own.now (e.entry.end + 1)) }
{
    let longer = pushed(e);
    if judge.has_ended(&longer)? {
        return following(judge, longer);
    }
    Ok(longer)
}

/// The exchange that goes on after all of a connection's items.
pub fn current<'t, J: Cuts>(judge: &J, alloc: Global, own: &'t [Item]) -> Result<View<'t>, NoMemory>
    ensures { IfOk result (λ e. exchange_of e ≡ current (J.site judge.now) (J.conn judge.now) own.now) }
{
    let mut e = first(alloc, own);
    for i in 0..own.len() {
        let _item = &own[i];
        e = next_of(judge, e)?;
    }
    Ok(e)
}
