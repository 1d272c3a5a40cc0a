//! What a link keeps between two lines, apart from the accepted changes.
ghost use Rattle.std.specs.Prelude.{◌≡◌, ◌+◌, ◌<◌, ◌≤◌, ◌^◌, [], ◌∷◌, ◌++◌, length, Some, None, IfOk, IfSome};
ghost use Rattle.std.specs.Prelude.{IfNone, MatchOption, OnOk, OnErr, nat_le, unwrap_or};
ghost use Rattle.std.specs.Option.{option_copied};
ghost use Rattle.std.specs.Result.{result_err};
ghost use Rattle.std.specs.Bool.{OnTrue, OnFalse};
ghost use Rattle.agg_model.specs.Batch.{content_of, value_length};
ghost use Rattle.session_link.specs.State.{number_refusal};
ghost use Rattle.session_link.specs.Links.{open_of, transactions_without, IsPlaceOf};

use crate::limits::Limits;
use agg_model::{Batch, Change};
use agg_outside::{ListOf, Memory};
use line_words::Reply;
use state_store::View;
use std::alloc::Global;
use std::mem;

/// An open transaction.
#[derive(Drop)]
pub struct Transaction {
    /// Its number on this link, from 1.
    pub number: u64,
    /// What it reads of the store.
    pub view: View,
}

/// What a link keeps between two lines.
#[derive(Drop)]
pub struct Link {
    /// The changes since the last commit.
    pub pending: Batch,
    /// The content of the pending changes.
    pub content: u64,
    /// The current transaction number.
    pub current: Option<u64>,
    /// How many transactions were opened.
    pub opens: u64,
    /// Those that are open, in the order in which they were opened.
    pub transactions: ListOf<Transaction>,
}

impl Link {
    ghost use Rattle.session_link.specs.Links.{first_link};

    /// Takes no memory.
    pub fn new(alloc: Global) -> Link
        ensures { result ≡ first_link }
    {
        Link {
            pending: Batch::new(alloc),
            content: 0,
            current: None,
            opens: 0,
            transactions: ListOf::new(alloc),
        }
    }

    /// Makes `number` the current one, which has to be below `far` and above the current one. An
    /// `Err` is why it can't be, as it is replied.
    pub fn set_number(&mut self, number: u64, far: u64) -> Result<(), Reply>
        ensures refused { result_err result ≡ number_refusal far number self.old.current }
        ensures below { OnOk result (number < far) }
        ensures above { OnOk result (unwrap_or self.old.current 0 ≤ number) }
        ensures set { OnOk result (self.new ≡ record self.old { current = Some number }) }
        ensures unchanged { OnErr result (self.new ≡ self.old) }
    {
        if let Some(refusal) = number_refusal(far, number, self.current) {
            return Err(refusal);
        }
        self.current = Some(number);
        Ok(())
    }

    #[tactic(auto, using(crate::proofs::LinkLaws::appending))]
    /// Adds a change of the current number to the pending ones, and answers whether it could:
    /// their content has to stay within the limit.
    pub fn add(&mut self, change: Change, limits: &Limits) -> Result<bool, Memory>
        requires content { self.old.content ≡ content_of self.old.pending }
        requires within { self.old.content ≤ limits.now.content }
        requires limit { limits.now.content ≤ 2 ^ 28 }
        requires key { length change.key ≤ 64 }
        requires value { value_length change.act ≤ 65535 }
        ensures could { IfOk result (λ could. could ≡ nat_le (content_of
            (self.old.pending ++ change ∷ [])) limits.now.content) }
        ensures added { IfOk result (λ could. OnTrue could (self.new ≡ record self.old {
          pending = self.old.pending ++ change ∷ [];
          content = content_of (self.old.pending ++ change ∷ []);
        })) }
        ensures unchanged { IfOk result (λ could. OnFalse could (self.new ≡ self.old)) }
        ensures err { OnErr result (self.new ≡ self.old) }
    {
        let more = change.content();
        if self.content + more > limits.content {
            return Ok(false);
        }
        self.pending.push(change)?;
        self.content += more;
        Ok(true)
    }

    /// Whether as many transactions are open as may be.
    pub fn is_full(&self, limits: &Limits) -> bool
        ensures { result ≡ nat_le limits.now.opens (length self.entry.now.transactions) }
    {
        limits.opens <= self.transactions.len() as u64
    }

    /// Opens a transaction of this view, and answers its number.
    pub fn open_transaction(&mut self, view: View) -> Result<u64, Memory>
        requires { self.old.opens < 2 ^ 63 }
        ensures number { IfOk result (λ number. number ≡ self.old.opens + 1) }
        ensures opened { OnOk result (self.new ≡ record self.old {
          opens = self.old.opens + 1;
          transactions = self.old.transactions ++ record { number = self.old.opens + 1; view = view } ∷ [];
        }) }
        ensures err { OnErr result (self.new ≡ self.old) }
    {
        let number = self.opens + 1;
        self.transactions.push(Transaction { number, view })?;
        self.opens = number;
        Ok(number)
    }

    /// The transaction of this number; none where it isn't open.
    pub fn transaction(&self, number: u64) -> Option<&Transaction>
        ensures { option_copied result ≡ open_of number self.entry.now.transactions }
    {
        let i = place_of(self.transactions.as_slice(), number)?;
        self.transactions.get(i)
    }

    /// Takes out the transaction of this number; none where it isn't open.
    pub fn close_transaction(&mut self, number: u64) -> Option<Transaction>
        ensures is { result ≡ open_of number self.old.transactions }
        ensures closed { IfSome result (λ _.
            self.new ≡ record self.old { transactions = transactions_without number self.old.transactions }) }
        ensures unchanged { IfNone result (self.new ≡ self.old) }
    {
        let i = place_of(self.transactions.as_slice(), number)?;
        Some(self.transactions.remove(i))
    }

    /// Takes the pending changes, and forgets the current number.
    pub fn clear(&mut self, alloc: Global) -> Batch
        ensures batch { result ≡ self.old.pending }
        ensures cleared { self.new ≡ record self.old { pending = []; content = 0; current = None } }
    {
        self.content = 0;
        self.current = None;
        mem::replace(&mut self.pending, Batch::new(alloc))
    }
}

// Why the number can't be the current one.
fn number_refusal(far: u64, number: u64, current: Option<u64>) -> Option<Reply>
    ensures exact { result ≡ number_refusal far number current }
    ensures below { IfNone result (number < far) }
    ensures above { IfNone result (unwrap_or current 0 ≤ number) }
{
    if number >= far {
        return Some(Reply::ErrFar(far, number));
    }
    let current = current?;
    if number <= current {
        return Some(Reply::ErrOrder(current, number));
    }
    None
}

// The place of the open transaction of this number.
fn place_of(transactions: &[Transaction], number: u64) -> Option<usize>
    ensures { MatchOption result (open_of number transactions.now ≡ None) (λ i. IsPlaceOf number transactions.now i) }
{
    for (i, transaction) in transactions.iter().enumerate() {
        if transaction.number == number {
            return Some(i);
        }
    }
    None
}
