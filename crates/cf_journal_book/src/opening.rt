//! Opening a book: the journal's entries are judged again, one after another.

ghost use Rattle.std.specs.Prelude.{◌≡◌, ◌+◌, ◌<◌, ◌^◌, [], ◌++◌, ◌∷◌, ℕ, List, length, All, Ok, IsTrue, IfOk, IfSome, OnOk, IfErr};
ghost use Rattle.cf_base.specs.Common.{most_entries};
ghost use Rattle.cf_model.specs.Common.{Entry, IsSoundState, Adds};
ghost use Rattle.cf_calls.specs.Common.{IsEntryInForm};
ghost use Rattle.cf_chart.specs.Common.{chart_of};
ghost use Rattle.cf_disk.specs.Images.{IsOnlyImage};
ghost use Rattle.cf_disk.specs.Moments.{AtEachMoment};
ghost use Rattle.cf_journal.specs.Answers.{HasDiskCause};
ghost use Rattle.cf_journal.specs.Frames.{frames};
ghost use Rattle.cf_journal.specs.Journal.{IsSettled};
ghost use Rattle.cf_journal.specs.Records.{HasRecord};
ghost use Rattle.cf_office.specs.BookState.{IsPrepared};
ghost use Rattle.cf_journal_book.specs.Recovery as spec;
ghost use Rattle.cf_journal_book.specs.Recovery.{first_refused, recovered};
ghost use Rattle.cf_journal_book.specs.Watching.{all_posted};
ghost use Rattle.cf_journal_book.specs.Openings.{Reopens, OpensBook, OpensNone, Replays, Readmits};
ghost use Rattle.cf_journal_book.specs.declared.refused.BookRefused.TheVariants as refused;

use crate::book::Book;
use crate::readmission::refusal_of;
use crate::refused::{BookRefused, refused_by};
use crate::watching::{Unwatched, Watch};
use cf_calls::{Basis, Entry};
use cf_chart::Chart;
use cf_disk::Disk;
use cf_journal::{Journal, Opened, open as open_journal, record_len};
use cf_office::{BookOffice, Prepared};
use std::alloc::{AllocError, Global};
use std::snapshot::Snapshot;

/// Why no book was opened, with the disk.
#[derive(Drop)]
pub struct NotOpened<D: Drop> {
    pub disk: D,
    pub why: BookRefused,
}

/// Opens the book of the journal on a disk: the chart and the entries are read, and the entries are
/// judged again, one after another. It syncs, then reads, and writes nothing.
pub fn open<D: Disk + Drop>(alloc: Global, disk: D) -> Result<Book<D>, NotOpened<D>>
    ensures ok { IfOk result
        (λ b. OpensBook D.tells D.content D.is_image D.moment D.was_image D.faults disk b) }
    ensures err { IfErr result
        (λ e. OpensNone D.tells D.content D.is_image D.moment D.was_image D.faults disk e.disk
        e.why) }
{
    let mut nobody = Unwatched {};
    open_watched(alloc, disk, &mut nobody)
}

/// Opens a book as `open` does, where one who has seen nothing yet sees each entry and what it
/// posts on both bases. Where the watcher has no memory, none is opened.
pub fn open_watched<D: Disk + Drop, W: Watch>(
    alloc: Global,
    mut disk: D,
    watch: &mut W,
) -> Result<Book<D>, NotOpened<D>>
    ensures ok { IfOk result
        (λ b. OpensBook D.tells D.content D.is_image D.moment D.was_image D.faults disk b) }
    ensures sound { IfOk result
        (λ b. IsSoundState (record { plan = b.plan; entries = b.entries })) }
    ensures watched { IfOk result
        (λ b. W.has_seen watch.old b.plan []
        → W.has_seen watch.new b.plan (all_posted b.plan b.entries)) }
    ensures err { IfErr result
        (λ e. OpensNone D.tells D.content D.is_image D.moment D.was_image D.faults disk e.disk
        e.why) }
{
    match open_office(alloc, &mut disk, watch) {
        Ok((office, journal, bytes)) => {
            // The state says of its history that it is sound.
            let _sound = office.entries();
            let stated = Snapshot::of(&bytes);
            Ok(Book::of(office, journal, disk, stated))
        }
        Err(why) => Err(NotOpened { disk, why }),
    }
}

/// Opens a book as `open` does, with a second copy of the book's chart for those who need it beside
/// the book: its bytes are read again.
pub fn open_with_chart<D: Disk + Drop>(
    alloc: Global,
    mut disk: D,
) -> Result<(Book<D>, Chart), NotOpened<D>>
    ensures ok { IfOk result
        (λ x. OpensBook D.tells D.content D.is_image D.moment D.was_image D.faults disk x.0) }
    ensures chart { IfOk result (λ x. x.1 ≡ x.0.plan) }
    ensures stated { IfOk result (λ x. (bytes : List ℕ) × (chart_of bytes ≡ Ok x.0.plan)) }
    ensures err { IfErr result
        (λ e. OpensNone D.tells D.content D.is_image D.moment D.was_image D.faults disk e.disk
        e.why) }
{
    let mut nobody = Unwatched {};
    match open_office(alloc, &mut disk, &mut nobody) {
        Ok((office, journal, bytes)) => match Chart::read(alloc, bytes.as_slice()) {
            Ok(chart) => {
                let stated = Snapshot::of(&bytes);
                Ok((Book::of(office, journal, disk, stated), chart))
            }
            // These bytes are a chart, so only memory can be wanting.
            Err(_) => Err(NotOpened {
                disk,
                why: BookRefused::NoMemory,
            }),
        },
        Err(why) => Err(NotOpened { disk, why }),
    }
}

/// Opens a book as `open` does, with the bytes that state the book's chart.
pub fn open_with_bytes<D: Disk + Drop>(
    alloc: Global,
    mut disk: D,
) -> Result<(Book<D>, Vec<u8>), NotOpened<D>>
    ensures ok { IfOk result
        (λ x. OpensBook D.tells D.content D.is_image D.moment D.was_image D.faults disk x.0) }
    ensures stated { IfOk result (λ x. chart_of x.1.items ≡ Ok x.0.plan) }
    ensures bytes { IsTrue D.tells
        → IfOk result (λ x. frames (D.content disk) ≡ Ok (x.1.items, x.0.entries)) }
    ensures err { IfErr result
        (λ e. OpensNone D.tells D.content D.is_image D.moment D.was_image D.faults disk e.disk
        e.why) }
{
    let mut nobody = Unwatched {};
    match open_office(alloc, &mut disk, &mut nobody) {
        Ok((office, journal, bytes)) => {
            let stated = Snapshot::of(&bytes);
            Ok((Book::of(office, journal, disk, stated), bytes))
        }
        Err(why) => Err(NotOpened { disk, why }),
    }
}

/// The office and the journal of the disk, with the bytes of its chart.
fn open_office<D: Disk, W: Watch>(
    alloc: Global,
    disk: &mut D,
    watch: &mut W,
) -> Result<(BookOffice, Journal, Vec<u8>), BookRefused>
    ensures answer { IsTrue D.tells → Reopens result (recovered (D.content disk.old)) }
    ensures states { IfOk result (λ x. chart_of x.2.items ≡ Ok x.0.plan) }
    ensures bytes { IsTrue D.tells
        → IfOk result (λ x. frames (D.content disk.old) ≡ Ok (x.2.items, x.0.entries)) }
    ensures watched { IfOk result
        (λ x. W.has_seen watch.old x.0.plan []
        → W.has_seen watch.new x.0.plan (all_posted x.0.plan x.0.entries)) }
    ensures settled { IfOk result
        (λ x. IsSettled D.tells D.is_image x.1 disk.new x.2.items x.0.entries) }

    // It changes nothing, and at its end a crash leaves what a read gives.
    ensures content { IsTrue D.tells → D.content disk.new ≡ D.content disk.old }
    ensures durable { IsTrue D.tells
        → OnOk result (IsOnlyImage (D.content disk.new) (D.is_image disk.new)) }
    ensures any_moment { AtEachMoment D.moment D.was_image disk.old disk.new (D.is_image disk.old) }

    ensures cause { HasDiskCause refused.Disk (D.faults disk.old) (D.faults disk.new) result }
{
    match open_journal(alloc, disk) {
        Ok(
            Opened {
                journal,
                bytes,
                chart,
                entries,
            },
        ) => {
            let office = replay(alloc, chart, bytes.len() as u64, entries, watch)?;
            Ok((office, journal, bytes))
        }
        Err(why) => Err(refused_by(why)),
    }
}

/// Shows the entry that is prepared, with the registers before it, what it changes and what it
/// posts.
fn show<W: Watch>(office: &BookOffice, prepared: &Prepared, watch: &mut W) -> Result<(), AllocError>
    requires { (e : Entry) × IsPrepared office.now prepared.now e }
    ensures { W.has_seen watch.old office.now.plan (all_posted office.now.plan office.now.entries)
        → IfSome office.now.ready
        (λ e. OnOk result (W.has_seen watch.new office.now.plan
        (all_posted office.now.plan (office.now.entries ++ e ∷ [])))) }
{
    let Some(entry) = office.ready_entry() else {
        return Ok(());
    };
    let fund = office.posts(Basis::Fund);
    let gov = office.posts(Basis::Gov);
    let place = office.entries().len() as u64 + 1;
    let history = office.history();
    let changes = prepared.lines.changes();
    watch.see(
        history.chart(),
        place,
        entry,
        history.registers(),
        changes,
        fund,
        gov,
    )
}

/// Adds an entry that the rules accept, and shows it.
fn add_watched<W: Watch>(
    office: &mut BookOffice,
    entry: Entry,
    watch: &mut W,
) -> Result<(), AllocError>
    requires { Adds office.old.plan office.old.entries entry }
    ensures plan { office.new.plan ≡ office.old.plan }
    ensures entries { OnOk result (office.new.entries ≡ office.old.entries ++ entry ∷ []) }
    ensures watched { W.has_seen watch.old office.old.plan
        (all_posted office.old.plan office.old.entries)
        → OnOk result (W.has_seen watch.new office.old.plan
        (all_posted office.old.plan (office.old.entries ++ entry ∷ []))) }
{
    let prepared = office.reserve(entry)?;
    show(office, &prepared, watch)?;
    office.apply(prepared);
    Ok(())
}

/// The number of the refusal of an entry by an office.
fn office_refusal(office: &BookOffice, entry: &Entry) -> Option<u8>
    requires { IsEntryInForm entry.now }
    ensures { result ≡ spec.entry_refusal office.now.plan office.now.entries entry.now }
{
    refusal_of(&office.history(), entry)
}

/// Takes an entry of the journal again, whose gate stands at this place.
fn readmit<W: Watch>(
    office: &mut BookOffice,
    entry: Entry,
    gate: u64,
    watch: &mut W,
) -> Result<(), BookRefused>
    requires { HasRecord entry }
    ensures plan { office.new.plan ≡ office.old.plan }
    ensures ok { OnOk result (office.new.entries ≡ office.old.entries ++ entry ∷ []) }
    ensures few { OnOk result (length office.old.entries < most_entries) }
    ensures answer { Readmits result gate
        (spec.entry_refusal office.old.plan office.old.entries entry) }
    ensures watched { W.has_seen watch.old office.old.plan
        (all_posted office.old.plan office.old.entries)
        → OnOk result (W.has_seen watch.new office.old.plan
        (all_posted office.old.plan (office.old.entries ++ entry ∷ []))) }
{
    if let Some(refusal) = office_refusal(office, &entry) {
        return Err(BookRefused::Damaged {
            offset: gate,
            refusal: Some(refusal),
        });
    }
    match add_watched(office, entry, watch) {
        Ok(()) => Ok(()),
        Err(_) => Err(BookRefused::NoMemory),
    }
}

/// Runs the entries of a journal through the rules, one after another, from the empty history under
/// its chart. The chart has so many bytes in the journal. The first entry that the office refuses
/// is damage, at its gate.
fn replay<W: Watch>(
    alloc: Global,
    chart: Chart,
    chart_len: u64,
    entries: Vec<Entry>,
    watch: &mut W,
) -> Result<BookOffice, BookRefused>
    requires small { chart_len < 2 ^ 32 }
    requires records { All HasRecord entries.items }
    ensures plan { IfOk result (λ o. o.plan ≡ chart) }
    ensures entries { IfOk result (λ o. o.entries ≡ entries.items) }
    ensures answer { Replays result (first_refused chart [] (6 + chart_len) entries.items) }
    ensures watched { W.has_seen watch.old chart []
        → OnOk result (W.has_seen watch.new chart (all_posted chart entries.items)) }
{
    let mut office = BookOffice::new(alloc, chart);
    let mut gate = 6 + chart_len;
    for entry in entries {
        let len = record_len(&entry);
        match readmit(&mut office, entry, gate, watch) {
            Ok(()) => {}
            Err(why) => return Err(why),
        }
        gate += len;
    }
    Ok(office)
}
