ghost use Rattle.std.specs.Prelude.{◌≡◌, ◌≤◌, ◌^◌, [], IfOk};
ghost use Rattle.std.specs.Option.{ForSome};
ghost use Rattle.session_link.specs.Running.{IsSession};

use crate::*;
use agg_outside::{Disk, FileMap, Keeper, KeeperStart, Rowlist};
use memory_side::{SureDisk, SureKeeper};
use state_store::Store;
use std::alloc::Global;
use std::process::Abort;
use std::rt::Clock;
use std::sync::Wait;
use std::test::Fail;
use std::thread::Threads;

// A session before its first line, in steps of four numbers.
fn session_over<D: Disk, K: Keeper>(
    alloc: Global,
    limits: &Limits,
    disk: D,
    keeper: K,
) -> Result<Session<D, K>, Fail>
    requires { ForSome (K.held keeper) (λ h. h.rows ≡ []) }
    ensures sound { IfOk result (λ s. IsSession limits.now s) }
    ensures opens { IfOk result (λ s. s.link.opens ≡ 0) }
    ensures epoch { IfOk result (λ s. s.store.hot.epoch ≡ 1) }
{
    let Ok(store) = Store::new(alloc, disk, keeper, 4) else {
        return Err(Fail::new("no store"));
    };
    let link = Link::new(alloc);
    Ok(Session { store, link })
}

// No text here has more lines.
const MOST: u64 = 60;

// The replies to the lines of a text.
fn replies_over<H: Threads + Wait + Clock + Sync, D: Disk, K: Keeper>(
    rt: &H,
    alloc: Global,
    limits: &Limits,
    session: &mut Session<D, K>,
    text: &str,
) -> Result<Vec<u8>, Fail>
    requires limit { limits.now.content ≤ 2 ^ 28 }
    requires sound { IsSession limits.now session.old }
    requires opens { session.old.link.opens ≡ 0 }
    requires epoch { session.old.store.hot.epoch ≡ 1 }
{
    let mut replies = Vec::new(alloc);
    let mut number = 0;
    for line in text.split('\n') {
        if number == MOST {
            break;
        }
        number += 1;
        let reply = session.line(rt, alloc, limits, number, line.as_bytes())?;
        replies.extend_from_slice(reply.as_slice())?;
    }
    Ok(replies)
}

fn expect_replies<H: Abort + Threads + Wait + Clock + Sync>(
    rt: &H,
    alloc: Global,
    limits: &Limits,
    text: &str,
    replies: &str,
) -> Result<(), Fail>
    requires { limits.now.content ≤ 2 ^ 28 }
{
    let disk = SureDisk::new(alloc, &FileMap::new(alloc))?;
    let rows = KeeperStart {
        rows: Rowlist::new(alloc),
        floor: 0,
    };
    let keeper = SureKeeper::new(alloc, &rows)?;
    let mut session = session_over(alloc, limits, disk, keeper)?;
    let found = replies_over(rt, alloc, limits, &mut session, text)?;
    assert_eq!(rt; found.as_slice(), replies.as_bytes());
    Ok(())
}

// Each form of a line, on a key that is put, put again behind a complete step, and deleted.
const FORMS: &str = "\
tx 0
put accounts aa 01
commit
settle
tx 6
put accounts aa 02
mark logaddrs aa
commit
open
tx 7
del accounts aa
commit
latest 1 accounts aa
asof 1 accounts 6 aa
range 1 accounts 7 - - 10
history 1 accounts 1 7 - 10
index 1 accounts aa - - desc 1
close 1
latest 1 accounts aa
fly";

const FORMS_REPLIES: &str = "\
ok
ok
committed 1 1
end
ok
ok
ok
committed 2 7
opened 1 7
ok
ok
committed 1 8
value 02
value 01
row aa 02
end
row aa 01
end
at 6
more 0
ok
err tx 1
err syntax 20
";

#[test]
fn each_form_of_a_line_gets_its_reply(rt: HostRuntime) -> Result<(), Fail> {
    expect_replies(&rt, rt.alloc(), &Limits::usual(), FORMS, FORMS_REPLIES)
}

// Each of the two puts has a content of 100.
const TWO_BATCHES: &str = "\
tx 1
put accounts aa 0101010101010101010101010101010101010101010101010101010101010101010101
commit
tx 2
put accounts aa 0101010101010101010101010101010101010101010101010101010101010101010101
commit
tx 3
put accounts aa 01
commit
tx 2
put accounts aa 01
commit";

const TWO_BATCHES_REPLIES: &str =
    "ok\nok\ncommitted 1 2\nok\nok\ncommitted 1 3\nok\nok\nerr limit\nok\nok\nerr order 2 2\n";

const ONE_BATCH: &str = "\
tx 1
put accounts aa 0101010101010101010101010101010101010101010101010101010101010101010101
put accounts aa 0101010101010101010101010101010101010101010101010101010101010101010101
del code aa
mark logaddrs aa
commit
del code aa";

const ONE_BATCH_REPLIES: &str = "ok\nok\nok\nerr limit\nerr limit\ncommitted 1 2\nerr notx\n";

#[test]
fn the_list_and_the_pending_changes_have_content_up_to_the_limit(
    rt: HostRuntime,
) -> Result<(), Fail> {
    let limits = Limits {
        content: 200,
        ..Limits::usual()
    };
    let alloc = rt.alloc();
    expect_replies(&rt, alloc, &limits, TWO_BATCHES, TWO_BATCHES_REPLIES)?;
    expect_replies(&rt, alloc, &limits, ONE_BATCH, ONE_BATCH_REPLIES)
}
