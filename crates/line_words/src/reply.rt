ghost use Rattle.std.specs.Prelude.{◌≡◌, ◌++◌, codes, IfOk};
ghost use Rattle.line_words.specs.Replies.{with_number, with_bytes, with_value, file_lines, row_lines, row_line};
ghost use Rattle.line_words.specs.Replies.{time_lines, rows_end, times_end, reply_line, reply_text};

use agg_model::{PageRow, PageRows};
use agg_outside::{Bytes, Memory, Names, Numbers};
use std::alloc::Global;

/// What a line is answered.
#[derive(Debug, Drop)]
pub enum Reply {
    /// It is done.
    Ok,
    /// How many changes were accepted, and the next number.
    Committed(u64, u64),
    /// The number of the read transaction, and the next number of changes.
    Opened(u64, u64),
    /// The value of the key.
    Value(Bytes),
    /// The key has no value.
    NoValue,
    /// The rows of a page, and the first key that wasn't given, where there is one.
    Rows(PageRows, Option<Bytes>),
    /// The numbers of a page, and the first that wasn't given, where there is one.
    Times(Numbers, Option<u64>),
    /// The names of the files, in order.
    Files(Names),
    /// The line of this number, counted from 1, is too long.
    ErrLong(u64),
    /// The line of this number is of no form.
    ErrSyntax(u64),
    /// A key or a value has this length, which is outside its limits.
    ErrLength(u64),
    /// The form isn't one of this entity.
    ErrEntity,
    /// The first number that is too far, and the number.
    ErrFar(u64, u64),
    /// The last number, and the one that isn't above it.
    ErrOrder(u64, u64),
    /// There is no current number.
    ErrNotx,
    /// The content would be above the limit.
    ErrLimit,
    /// There is no pending change.
    ErrEmpty,
    /// The read transaction of this number isn't open.
    ErrTx(u64),
    /// As many read transactions are open as may be: how many that is.
    ErrOpen(u64),
}

// The text, a space and the number.
fn with_number(alloc: Global, mut text: Vec<u8>, n: u64) -> Result<Vec<u8>, Memory>
    ensures { IfOk result (λ longer. longer.items ≡ with_number text.items n) }
{
    let digits = n.to_string(alloc)?;
    text.push(b' ')?;
    text.extend_from_slice(digits.as_bytes())?;
    Ok(text)
}

// The text, a space and the bytes in hex.
fn with_bytes(alloc: Global, mut text: Vec<u8>, bytes: &Bytes) -> Result<Vec<u8>, Memory>
    ensures { IfOk result (λ longer. longer.items ≡ with_bytes text.items bytes.now) }
{
    let digits = hex::encode(alloc, bytes.as_slice())?;
    text.push(b' ')?;
    text.extend_from_slice(digits.as_bytes())?;
    Ok(text)
}

// The text, a space and the value, `-` where there is none.
fn with_value(alloc: Global, mut text: Vec<u8>, value: &Option<Bytes>) -> Result<Vec<u8>, Memory>
    ensures { IfOk result (λ longer. longer.items ≡ with_value text.items value.now) }
{
    match value {
        Some(value) => with_bytes(alloc, text, value),
        None => {
            text.extend_from_slice(b" -")?;
            Ok(text)
        }
    }
}

// The words, a space and a number: of a refusal, or of the like.
fn numbered(alloc: Global, words: &[u8], n: u64) -> Result<Vec<u8>, Memory>
    ensures { IfOk result (λ text. text.items ≡ with_number words.now n) }
{
    with_number(alloc, Vec::from_slice(alloc, words)?, n)
}

// The same with two numbers.
fn numbered_twice(alloc: Global, words: &[u8], n: u64, m: u64) -> Result<Vec<u8>, Memory>
    ensures { IfOk result (λ text. text.items ≡ with_number (with_number words.now n) m) }
{
    with_number(alloc, numbered(alloc, words, n)?, m)
}

fn row_line(alloc: Global, row: &PageRow) -> Result<Vec<u8>, Memory>
    ensures { IfOk result (λ text. text.items ≡ row_line row.now) }
{
    let text = with_bytes(alloc, Vec::from_slice(alloc, b"row")?, &row.key)?;
    with_value(alloc, text, &row.value)
}

// A line for each name, and the last line without its line feed.
fn with_files(alloc: Global, names: &Names) -> Result<Vec<u8>, Memory>
    ensures { IfOk result (λ text. text.items ≡ file_lines names.now ++ codes "end") }
{
    let mut text = Vec::new(alloc);
    for name in names.as_slice() {
        text.extend_from_slice(b"file ")?;
        text.extend_from_slice(name.as_slice())?;
        text.push(b'\n')?;
    }
    text.extend_from_slice(b"end")?;
    Ok(text)
}

// A line for each row.
fn row_lines(alloc: Global, rows: &PageRows) -> Result<Vec<u8>, Memory>
    ensures { IfOk result (λ text. text.items ≡ row_lines rows.now) }
{
    let mut text = Vec::new(alloc);
    for row in rows.as_slice() {
        let line = row_line(alloc, row)?;
        text.extend_from_slice(line.as_slice())?;
        text.push(b'\n')?;
    }
    Ok(text)
}

// A line for each number.
fn time_lines(alloc: Global, numbers: &Numbers) -> Result<Vec<u8>, Memory>
    ensures { IfOk result (λ text. text.items ≡ time_lines numbers.now) }
{
    let mut text = Vec::new(alloc);
    for number in numbers.as_slice() {
        let line = numbered(alloc, b"at", *number)?;
        text.extend_from_slice(line.as_slice())?;
        text.push(b'\n')?;
    }
    Ok(text)
}

// The last line of a page of rows.
fn rows_end(alloc: Global, more: &Option<Bytes>) -> Result<Vec<u8>, Memory>
    ensures { IfOk result (λ text. text.items ≡ rows_end more.now) }
{
    match more {
        Some(key) => with_bytes(alloc, Vec::from_slice(alloc, b"more")?, key),
        None => Ok(Vec::from_slice(alloc, b"end")?),
    }
}

// The last line of a page of numbers.
fn times_end(alloc: Global, more: &Option<u64>) -> Result<Vec<u8>, Memory>
    ensures { IfOk result (λ text. text.items ≡ times_end more.now) }
{
    match more {
        Some(number) => numbered(alloc, b"more", *number),
        None => Ok(Vec::from_slice(alloc, b"end")?),
    }
}

// One text behind another.
fn joined(mut text: Vec<u8>, more: &Vec<u8>) -> Result<Vec<u8>, Memory>
    ensures { IfOk result (λ longer. longer.items ≡ text.items ++ more.now.items) }
{
    text.extend_from_slice(more.as_slice())?;
    Ok(text)
}

impl Reply {
    /// The line of the reply, or its lines, each with its line feed. Keys and values are in hex, in
    /// lower case.
    pub fn print(&self, alloc: Global) -> Result<Bytes, Memory>
        ensures { IfOk result (λ text. text ≡ reply_text self.now) }
    {
        let mut text = self.line(alloc)?;
        text.push(b'\n')?;
        Ok(Bytes::from_vec(text))
    }

    #[tactic(auto, unfolding(crate::specs::Replies::reply_line))]
    fn line(&self, alloc: Global) -> Result<Vec<u8>, Memory>
        ensures { IfOk result (λ text. text.items ≡ reply_line self.now) }
    {
        match self {
            Reply::Ok => Ok(Vec::from_slice(alloc, b"ok")?),
            Reply::Committed(count, next) => numbered_twice(alloc, b"committed", *count, *next),
            Reply::Opened(tx, next) => numbered_twice(alloc, b"opened", *tx, *next),
            Reply::Value(value) => with_bytes(alloc, Vec::from_slice(alloc, b"value")?, value),
            Reply::NoValue => Ok(Vec::from_slice(alloc, b"none")?),
            Reply::Rows(rows, more) => joined(row_lines(alloc, rows)?, &rows_end(alloc, more)?),
            Reply::Times(numbers, more) => {
                joined(time_lines(alloc, numbers)?, &times_end(alloc, more)?)
            }
            Reply::Files(names) => with_files(alloc, names),
            Reply::ErrLong(line) => numbered(alloc, b"err long", *line),
            Reply::ErrSyntax(line) => numbered(alloc, b"err syntax", *line),
            Reply::ErrLength(length) => numbered(alloc, b"err length", *length),
            Reply::ErrEntity => Ok(Vec::from_slice(alloc, b"err entity")?),
            Reply::ErrFar(far, got) => numbered_twice(alloc, b"err far", *far, *got),
            Reply::ErrOrder(last, got) => numbered_twice(alloc, b"err order", *last, *got),
            Reply::ErrNotx => Ok(Vec::from_slice(alloc, b"err notx")?),
            Reply::ErrLimit => Ok(Vec::from_slice(alloc, b"err limit")?),
            Reply::ErrEmpty => Ok(Vec::from_slice(alloc, b"err empty")?),
            Reply::ErrTx(tx) => numbered(alloc, b"err tx", *tx),
            Reply::ErrOpen(most) => numbered(alloc, b"err open", *most),
        }
    }
}
