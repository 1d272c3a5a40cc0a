//! The top call: reads the words, and runs a session over what it is handed.
ghost use Rattle.std.specs.Prelude.{◌≡◌, ◌⊎◌, ℕ, ◌≤◌, ◌^◌, ◌↔◌, map, None};
ghost use Rattle.std.specs.Option.{ForSome};
ghost use Rattle.std.specs.String.{string_bytes};
ghost use Rattle.std.specs.FinMap as files;
ghost use Rattle.agg_outside.specs.Counts.{Rose};
ghost use Rattle.agg_model.specs.ChangeList.{ChangeList};
ghost use Rattle.agg_core.specs.Files.{SameOutside};
ghost use Rattle.state_store.specs.Store.{IsStore, Holds, Goes, ArePinned};
ghost use Rattle.session_link.specs.Links.{views_of};
ghost use Rattle.session_link.specs.Running.{StillHas};
ghost use Rattle.agg_session.specs.Served.{EndsLong, IsAtEnd, TakesAtMost, TakesFewer};
ghost use Rattle.agg_session.specs.Top.{usual_limits, AsksForRun, IsSettled, empty_list, empty_held, status_of};
ghost use Rattle.agg_session.specs.Top.{IsShort, IsBetween, IsCutShort};
ghost use Rattle.agg_session.specs.Over.{EndsWholeOver, EndsBetweenOver, EndsWithinOver};
ghost use Rattle.command_words.specs.CommandWords.{command_of};

use crate::ends::LinkEnd;
use crate::served::Served;
use crate::status::Status;
use crate::taking::serve;
use agg_outside::{Disk, Doors, Gate, Keeper, ListOf, Sink, Source};
use command_words::{Command, read_words};
use line_words::LineCut;
use session_link::{Limits, Link, Session, Transaction, close_all};
use state_store::{NotMade, Store, store_laws};
use std::alloc::Global;
use std::rt::Clock;
use std::sync::Wait;
use std::thread::Threads;

/// How a run ended, with what it was handed.
#[derive(Drop)]
pub struct Ended<D, K> {
    pub status: Status,
    pub disk: D,
    pub keeper: K,
}

fn status_of(end: LinkEnd) -> Status
    ensures { result ≡ status_of end }
{
    match end {
        LinkEnd::Done => Status::Done,
        LinkEnd::Source => Status::SourceFault,
        LinkEnd::Sink => Status::SinkFault,
        LinkEnd::Disk => Status::DiskFault,
        LinkEnd::Keeper => Status::KeeperFault,
        LinkEnd::Long => Status::Long,
        LinkEnd::Memory => Status::Memory,
    }
}

// Once the source was read to its end, the open transactions are closed, and all complete steps are put in files.
// Another end stays as it is.
fn settle_at_end<H: Threads + Wait + Clock + Sync, D: Disk, K: Keeper>(
    rt: &H,
    alloc: Global,
    end: LinkEnd,
    transactions: ListOf<Transaction>,
    store: &mut Store<D, K>,
) -> LinkEnd
    requires sound { end ≡ LinkEnd.Done → (most : ℕ) × IsStore most store.old × (most ≤ 2 ^ 28) }
    requires pins { end ≡ LinkEnd.Done → ArePinned store.old.sets.held (views_of transactions) }
    ensures settled { result ≡ LinkEnd.Done → (end ≡ LinkEnd.Done) × ((list : ChangeList) →
        Holds D.Disk store.old list → IsSettled D.Disk store.new list) }
    ensures cut { end ≡ LinkEnd.Done → (list : ChangeList) → Holds D.Disk store.old list →
        StillHas D.Disk store.new list }
    ensures other { (end ≡ LinkEnd.Done → ⊥) → (result ≡ end) × (store.new ≡ store.old) }
    ensures source { result ≡ LinkEnd.Source → end ≡ LinkEnd.Source }
    ensures sink { result ≡ LinkEnd.Sink → end ≡ LinkEnd.Sink }
    ensures long { result ≡ LinkEnd.Long → end ≡ LinkEnd.Long }
    ensures goes { Goes D.Disk store.old store.new }
    ensures disk { result ≡ LinkEnd.Disk → (end ≡ LinkEnd.Disk) ⊎ Rose (D.faults store.old.disk)
        (D.faults store.new.disk) }
    ensures keeper { result ≡ LinkEnd.Keeper → (end ≡ LinkEnd.Keeper) ⊎ Rose store.old.hot.faults
        store.new.hot.faults }
{
    if end != LinkEnd::Done {
        return end;
    }
    close_all(transactions, store);
    match store.settle(rt, alloc) {
        Ok(()) => LinkEnd::Done,
        Err(stop) => LinkEnd::from(stop),
    }
}

/// Runs one session over an empty keeper and an empty disk.
pub fn run_plain<H: Threads + Wait + Clock + Sync, D: Disk, K: Keeper, I: Source, O: Sink>(
    rt: &H,
    alloc: Global,
    disk: D,
    keeper: K,
    size: u64,
    limits: &Limits,
    source: &mut I,
    sink: &mut O,
) -> Ended<D, K>
    requires size_from_one { 1 ≤ size }
    requires size_within { size ≤ 2 ^ 32 }
    requires limit { limits.now.content ≤ 2 ^ 28 }
    requires bytes { limits.now.bytes ≤ 2 ^ 40 }
    requires no_files { ForSome (D.files disk) (λ f. f ≡ files.empty) }
    requires no_rows { ForSome (K.held keeper) (λ h. h ≡ empty_held) }
    ensures done { result.status ≡ Status.Done → ForSome (K.held keeper) (λ _.
        EndsWholeOver D.Disk K.Keeper I.Source O.Sink limits.now (empty_list size)
        source.old source.new sink.old sink.new result) }
    ensures between { IsBetween limits.now.bytes (I.left source.old) (I.left source.new) result.status →
        ForSome (K.held keeper) (λ _.
        EndsBetweenOver D.Disk K.Keeper I.Source O.Sink limits.now (empty_list size)
        source.old source.new sink.old sink.new result) }
    ensures within { IsCutShort result.status → ForSome (K.held keeper) (λ _.
        EndsWithinOver D.Disk K.Keeper I.Source O.Sink limits.now (empty_list size)
        source.old source.new sink.old sink.new result) }
    ensures read_whole { result.status ≡ Status.Done → IsAtEnd (I.left source.old) (I.left source.new) }
    ensures read_fewer { result.status ≡ Status.Done →
        TakesFewer limits.now.bytes (I.left source.old) (I.left source.new) }
    ensures read_at_most { TakesAtMost limits.now.bytes (I.left source.old) (I.left source.new) }
    ensures outside { SameOutside (D.files disk) (D.files result.disk) }
    ensures source { result.status ≡ Status.SourceFault → Rose (I.faults source.old) (I.faults source.new) }
    ensures sink { result.status ≡ Status.SinkFault → Rose (O.faults sink.old) (O.faults sink.new) }
    ensures disk { result.status ≡ Status.DiskFault → Rose (D.faults disk) (D.faults result.disk) }
    ensures keeper { result.status ≡ Status.KeeperFault → Rose (K.faults keeper) (K.faults result.keeper) }
    ensures long { result.status ≡ Status.Long → ForSome (I.left source.old) (λ input. EndsLong limits.now.bytes input
        (I.left source.new)) }
    ensures usage { result.status ≡ Status.Usage → ⊥ }
{
    let store = match Store::new(alloc, disk, keeper, size) {
        Ok(store) => store,
        Err(NotMade { disk, keeper }) => {
            return Ended {
                status: Status::Memory,
                disk,
                keeper,
            };
        }
    };
    let mut served = Served {
        cut: LineCut::new(alloc, limits.line),
        session: Session {
            store,
            link: Link::new(alloc),
        },
        lines: 0,
    };
    let end = serve(rt, alloc, limits, &mut served, source, sink);
    let Served { session, .. } = served;
    let Session { mut store, link } = session;
    let Link { transactions, .. } = link;
    let end = settle_at_end(rt, alloc, end, transactions, &mut store);
    store_laws(&store);
    let (disk, keeper) = store.into_parts();
    Ended {
        status: status_of(end),
        disk,
        keeper,
    }
}

/// Runs the command that the words after the program's name give: `run` so far, whose step size
/// `--step` may give. What it doesn't use stays as it was handed in.
pub fn aggregate<
    H: Threads + Wait + Clock + Sync,
    I: Source,
    O: Sink,
    R: Doors,
    D: Disk,
    K: Keeper,
    G: Gate,
>(
    rt: &H,
    alloc: Global,
    words: &[String],
    source: &mut I,
    sink: &mut O,
    doors: &mut R,
    disk: D,
    keeper: K,
    _gate: &G,
) -> Ended<D, K>
    // Until existing directories are opened, the run begins with nothing.
    requires no_files { ForSome (D.files disk) (λ f. f ≡ files.empty) }
    requires no_rows { ForSome (K.held keeper) (λ h. h ≡ empty_held) }

    // The replies are those of the plain change list, its rows are kept, and its files stand.
    ensures done { result.status ≡ Status.Done → ForSome (K.held keeper) (λ _. (size : ℕ) →
        AsksForRun (map string_bytes words.now) size →
        EndsWholeOver D.Disk K.Keeper I.Source O.Sink usual_limits (empty_list size)
        source.old source.new sink.old sink.new result) }
    ensures between { IsBetween usual_limits.bytes (I.left source.old) (I.left source.new) result.status →
        ForSome (K.held keeper) (λ _. (size : ℕ) → AsksForRun (map string_bytes words.now) size →
        EndsBetweenOver D.Disk K.Keeper I.Source O.Sink usual_limits (empty_list size)
        source.old source.new sink.old sink.new result) }
    ensures within { IsCutShort result.status → ForSome (K.held keeper) (λ _. (size : ℕ) →
        AsksForRun (map string_bytes words.now) size →
        EndsWithinOver D.Disk K.Keeper I.Source O.Sink usual_limits (empty_list size)
        source.old source.new sink.old sink.new result) }
    ensures usage { result.status ≡ Status.Usage ↔ (command_of (map string_bytes words.now) ≡ None) }
    ensures usage_untouched { result.status ≡ Status.Usage →
        (source.new ≡ source.old) × (sink.new ≡ sink.old) × (result.disk ≡ disk) × (result.keeper ≡ keeper) }

    // Whatever the keeper tells: on `Done` no byte is left, and never are more taken than may be.
    ensures read_whole { result.status ≡ Status.Done → IsAtEnd (I.left source.old) (I.left source.new) }
    ensures read_fewer { result.status ≡ Status.Done →
        TakesFewer usual_limits.bytes (I.left source.old) (I.left source.new) }
    ensures read_at_most { TakesAtMost usual_limits.bytes (I.left source.old) (I.left source.new) }

    // Names outside the grammar stay as they were. The disk tells what it holds after the run if it told
    // before, and else not.
    ensures outside { SameOutside (D.files disk) (D.files result.disk) }

    // A run that nothing ends early is done, or memory could not be had.
    ensures complete { (command_of (map string_bytes words.now) ≡ None → ⊥) →
        (Rose (I.faults source.old) (I.faults source.new) → ⊥)
        → (Rose (O.faults sink.old) (O.faults sink.new) → ⊥) → (Rose (D.faults disk) (D.faults result.disk) → ⊥) →
        (Rose (K.faults keeper) (K.faults result.keeper) → ⊥)
        → IsShort usual_limits.bytes (I.left source.old) (I.left source.new) →
        (result.status ≡ Status.Done) ⊎ (result.status ≡ Status.Memory) }

    // A device is blamed only where its count of faults rose.
    ensures source { result.status ≡ Status.SourceFault → Rose (I.faults source.old) (I.faults source.new) }
    ensures sink { result.status ≡ Status.SinkFault → Rose (O.faults sink.old) (O.faults sink.new) }
    ensures disk { result.status ≡ Status.DiskFault → Rose (D.faults disk) (D.faults result.disk) }
    ensures keeper { result.status ≡ Status.KeeperFault → Rose (K.faults keeper) (K.faults result.keeper) }
    ensures long { result.status ≡ Status.Long → ForSome (I.left source.old) (λ input. EndsLong usual_limits.bytes input
        (I.left source.new)) }
    ensures doors { doors.new ≡ doors.old }
{
    match read_words(alloc, words) {
        Ok(Command::Run { size, .. }) => {
            let limits = Limits::usual();
            run_plain(rt, alloc, disk, keeper, size, &limits, source, sink)
        }
        Err(error) => Ended {
            status: Status::from(error),
            disk,
            keeper,
        },
    }
}
