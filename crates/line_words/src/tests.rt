use super::*;
use agg_model::{Entity, PageRow, PageRows};
use agg_outside::{Bytes, Memory, Numbers};
use std::alloc::Global;
use std::process::Abort;
use std::test::*;

#[test]
fn forms_without_bytes_are_read(rt: HostRuntime) {
    for (line, want) in [
        ("tx 1", Request::Tx(1)),
        (
            "tx 9223372036854775807",
            Request::Tx(9_223_372_036_854_775_807),
        ),
        ("commit", Request::Commit),
        ("open", Request::Open),
        ("close 02", Request::Close(2)),
        ("settle", Request::Settle),
    ] {
        assert!(rt;
            Request::read(rt.alloc(), line.as_bytes()) == Ok(want),
            "{line}"
        );
    }
}

#[test]
fn an_end_is_open_or_a_number_or_a_key(rt: HostRuntime) -> Result<(), Fail> {
    let alloc = rt.alloc();
    let key = Bytes::of(alloc, &[0xab])?;
    let want = Request::Range(1, Entity::Code, 5, None, Some(key), 1_000);
    assert!(rt; Request::read(alloc, b"range 1 code 5 - AB 1000") == Ok(want));
    let want = Request::History(2, Entity::Storage, Some(3), None, None, 1);
    assert!(rt; Request::read(alloc, b"history 2 storage 3 - - 1") == Ok(want));
    let key = Bytes::of(alloc, &[0xcc])?;
    let want = Request::Index(1, Entity::LogAddrs, key, None, Some(9), true, 3);
    assert!(rt; Request::read(alloc, b"index 1 logaddrs cc - 9 desc 3") == Ok(want));
    Ok(())
}

#[test]
fn each_kind_of_entity_has_its_changes(rt: HostRuntime) -> Result<(), Fail> {
    let alloc = rt.alloc();
    let key = Bytes::of(alloc, &[0xcc])?;
    let del = Request::Del(Entity::Code, key);
    assert!(rt; Request::read(alloc, b"del code cc") == Ok(del));
    let key = Bytes::of(alloc, &[0xcc])?;
    let mark = Request::Mark(Entity::TracesTo, key);
    assert!(rt; Request::read(alloc, b"mark tracesto cc") == Ok(mark));
    let key = Bytes::of(alloc, &[0xcc])?;
    let as_of = Request::Asof(1, Entity::Accounts, 7, key);
    assert!(rt; Request::read(alloc, b"asof 1 accounts 7 cc") == Ok(as_of));
    Ok(())
}

fn expect_text(rt: &impl Abort, alloc: Global, reply: &Reply, want: &str) -> Result<(), Fail> {
    let text = reply.print(alloc)?;
    assert_eq!(rt; text.as_slice(), want.as_bytes());
    Ok(())
}

fn row(alloc: Global, key: u8, value: Option<Bytes>) -> Result<PageRow, Memory> {
    Ok(PageRow {
        key: Bytes::of(alloc, &[key])?,
        value,
    })
}

#[test]
fn each_row_has_a_line(rt: HostRuntime) -> Result<(), Fail> {
    let alloc = rt.alloc();
    let value = Bytes::of(alloc, &[0x07])?;
    let more = Bytes::of(alloc, &[0xcc])?;
    let mut rows = PageRows::new(alloc);
    expect_text(
        &rt,
        alloc,
        &Reply::Rows(PageRows::new(alloc), None),
        "end\n",
    )?;
    rows.push(row(alloc, 0xaa, Some(value))?)?;
    rows.push(row(alloc, 0xbb, None)?)?;
    let page = Reply::Rows(rows, Some(more));
    expect_text(&rt, alloc, &page, "row aa 07\nrow bb -\nmore cc\n")
}

#[test]
fn each_number_has_a_line(rt: HostRuntime) -> Result<(), Fail> {
    let alloc = rt.alloc();
    let mut numbers = Numbers::new(alloc);
    numbers.push(9)?;
    let page = Reply::Times(numbers, Some(6));
    expect_text(&rt, alloc, &page, "at 9\nmore 6\n")?;
    let page = Reply::Times(Numbers::new(alloc), None);
    expect_text(&rt, alloc, &page, "end\n")
}

#[test]
fn one_carriage_return_is_dropped(rt: HostRuntime) {
    for (line, want) in [("open\r\r", "open\r"), ("open", "open"), ("", "")] {
        assert_eq!(rt; without_cr(line.as_bytes()), want.as_bytes());
    }
}

#[test]
fn pieces_are_cut_at_line_feeds(rt: HostRuntime) -> Result<(), Fail> {
    let mut cut = LineCut::new(rt.alloc(), 4);
    assert_eq!(rt; cut.next(), Cutting::NotYet);
    cut.push(b"op")?;
    assert_eq!(rt; cut.next(), Cutting::NotYet);
    cut.push(b"en\n\r\nabc\r\nopen\r\nopens and")?;
    assert_eq!(rt; cut.next(), Cutting::Line(b"open"));
    assert_eq!(rt; cut.next(), Cutting::Line(b""));
    assert_eq!(rt; cut.next(), Cutting::Line(b"abc"));
    assert_eq!(rt; cut.next(), Cutting::Long);
    assert_eq!(rt; cut.next(), Cutting::NotYet);
    cut.push(b" shuts\ntx 1")?;
    assert_eq!(rt; cut.next(), Cutting::Long);
    assert_eq!(rt; cut.next(), Cutting::NotYet);
    assert_eq!(rt; cut.rest(), Cutting::Line(b"tx 1"));
    assert_eq!(rt; cut.rest(), Cutting::NotYet);
    Ok(())
}
