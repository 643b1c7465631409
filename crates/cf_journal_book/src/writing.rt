//! Writing an entry to the journal, after the entry in doubt was taken back and the journal was
//! raised where the entry needs it.

ghost use Rattle.std.specs.Prelude.{◌≡◌, true, false, ◌+◌, ◌<◌, ◌^◌, ◌++◌, ◌∷◌, [], List, ℕ, Some, None, IsTrue, OnOk, OnErr};
ghost use Rattle.cf_base.specs.Common.{HasCause};
ghost use Rattle.cf_model.specs.Common.{Entry as EntryOf};
ghost use Rattle.cf_disk.specs.Moments.{AtEachMoment};
ghost use Rattle.cf_journal.specs.Journal.{count_of, version_of, has_act, in_doubt, Reserves, IsSettled};
ghost use Rattle.cf_journal.specs.Layout.{RecoversTo as FramesTo};
ghost use Rattle.cf_journal_book.specs.Books.{Keeps, IsDoubtAfter, FramesNear};
ghost use Rattle.cf_journal_book.specs.Snapshots.{doubt_of, IsOneOf};

use cf_calls::{Act, Entry};
use cf_disk::Disk;
use cf_journal::{Disk_, Journal};
use std::snapshot::Snapshot;

/// Takes back the entry in doubt, where one is.
fn mend_doubt<D: Disk>(
    journal: &mut Journal,
    disk: &mut D,
    doubt: &mut Option<Snapshot<Entry>>,
) -> Result<(), Disk_>
    ensures ok { OnOk result ((chart : List ℕ) (history : List EntryOf)
        → Keeps D.tells D.is_image journal.old disk.old chart history (doubt_of doubt.old)
        → IsSettled D.tells D.is_image journal.new disk.new chart history) }
    ensures err { OnErr result ((chart : List ℕ) (history : List EntryOf)
        → Keeps D.tells D.is_image journal.old disk.old chart history (doubt_of doubt.old)
        → Keeps D.tells D.is_image journal.new disk.new chart history (doubt_of doubt.new)) }

    // What a crash leaves at any moment of the call.
    ensures any_moment { IsTrue D.tells → (chart : List ℕ) (history : List EntryOf)
        → Keeps D.tells D.is_image journal.old disk.old chart history (doubt_of doubt.old)
        → AtEachMoment D.moment D.was_image disk.old disk.new
        (FramesNear chart history (λ e. doubt_of doubt.old ≡ Some e)) }

    ensures none { OnOk result (doubt_of doubt.new ≡ None) }
    ensures same { OnErr result (doubt_of doubt.new ≡ doubt_of doubt.old) }
    ensures reserved { (e : EntryOf) → Reserves journal.old e → Reserves journal.new e }
    ensures count { count_of journal.new ≡ count_of journal.old }
    ensures version { version_of journal.new ≡ version_of journal.old }
    ensures clear { OnOk result (in_doubt journal.new ≡ false) }
    ensures cause { HasCause (D.faults disk.old) (D.faults disk.new) result }
    ensures quiet { OnOk result (D.faults disk.new ≡ D.faults disk.old) }
{
    if !journal.in_doubt() {
        *doubt = None;
        return Ok(());
    }
    journal.mend(disk)?;
    *doubt = None;
    Ok(())
}

/// Raises the journal to version 2 where its own has no entries of this act.
fn raise_for<D: Disk>(journal: &mut Journal, disk: &mut D, act: &Act) -> Result<(), Disk_>
    requires { in_doubt journal.old ≡ false }
    ensures settled { (chart : List ℕ) (history : List EntryOf)
        → IsSettled D.tells D.is_image journal.old disk.old chart history
        → IsSettled D.tells D.is_image journal.new disk.new chart history }
    ensures has { OnOk result (has_act journal.new act.now ≡ true) }

    // What a crash leaves at any moment of the call.
    ensures any_moment { IsTrue D.tells → (chart : List ℕ) (history : List EntryOf)
        → IsSettled D.tells D.is_image journal.old disk.old chart history
        → AtEachMoment D.moment D.was_image disk.old disk.new (FramesTo chart history) }

    ensures reserved { (e : EntryOf) → Reserves journal.old e → Reserves journal.new e }
    ensures count { count_of journal.new ≡ count_of journal.old }
    ensures version { has_act journal.old act.now ≡ true
        → version_of journal.new ≡ version_of journal.old }
    ensures clear { in_doubt journal.new ≡ false }
    ensures cause { HasCause (D.faults disk.old) (D.faults disk.new) result }
    ensures quiet { OnOk result (D.faults disk.new ≡ D.faults disk.old) }
{
    if journal.has(act) {
        return Ok(());
    }
    journal.raise(disk)
}

/// Appends the reserved entry, where nothing is in doubt. It is in doubt where that failed too
/// late.
fn append<D: Disk>(
    journal: &mut Journal,
    disk: &mut D,
    doubt: &mut Option<Snapshot<Entry>>,
    entry: Snapshot<Entry>,
) -> Result<(), Disk_>
    requires reserved { Reserves journal.old entry.value }
    requires has { has_act journal.old entry.value.change.act ≡ true }
    requires clear { in_doubt journal.old ≡ false }
    requires none { doubt_of doubt.old ≡ None }
    requires few { count_of journal.old < 2 ^ 31 }
    ensures ok { OnOk result ((chart : List ℕ) (history : List EntryOf)
        → IsSettled D.tells D.is_image journal.old disk.old chart history
        → Keeps D.tells D.is_image journal.new disk.new chart (history ++ entry.value ∷ [])
        (doubt_of doubt.new)) }
    ensures err { OnErr result ((chart : List ℕ) (history : List EntryOf)
        → IsSettled D.tells D.is_image journal.old disk.old chart history
        → Keeps D.tells D.is_image journal.new disk.new chart history (doubt_of doubt.new)) }

    // What a crash leaves at any moment of the call.
    ensures any_moment { IsTrue D.tells → (chart : List ℕ) (history : List EntryOf)
        → IsSettled D.tells D.is_image journal.old disk.old chart history
        → AtEachMoment D.moment D.was_image disk.old disk.new
        (FramesNear chart history (λ e. e ≡ entry.value)) }

    ensures version { version_of journal.new ≡ version_of journal.old }
    ensures none { OnOk result (doubt_of doubt.new ≡ None) }
    ensures which { OnErr result (IsDoubtAfter None entry.value (doubt_of doubt.new)) }
    ensures cause { HasCause (D.faults disk.old) (D.faults disk.new) result }
    ensures quiet { OnOk result (D.faults disk.new ≡ D.faults disk.old) }
{
    match journal.append(disk) {
        Ok(()) => Ok(()),
        Err(failed) => {
            if journal.in_doubt() {
                *doubt = Some(entry);
            }
            Err(failed)
        }
    }
}

/// Writes the reserved entry of an act, after the entry in doubt was taken back and the journal was
/// raised where the act needs it. Where the disk fails, what was in doubt still is, or this entry,
/// or nothing.
pub fn write<D: Disk>(
    journal: &mut Journal,
    disk: &mut D,
    doubt: &mut Option<Snapshot<Entry>>,
    act: &Act,
    entry: Snapshot<Entry>,
) -> Result<(), Disk_>
    requires reserved { Reserves journal.old entry.value }
    requires act { entry.value.change.act ≡ act.now }
    requires few { count_of journal.old < 2 ^ 31 }
    ensures ok { OnOk result ((chart : List ℕ) (history : List EntryOf)
        → Keeps D.tells D.is_image journal.old disk.old chart history (doubt_of doubt.old)
        → Keeps D.tells D.is_image journal.new disk.new chart (history ++ entry.value ∷ [])
        (doubt_of doubt.new)) }
    ensures err { OnErr result ((chart : List ℕ) (history : List EntryOf)
        → Keeps D.tells D.is_image journal.old disk.old chart history (doubt_of doubt.old)
        → Keeps D.tells D.is_image journal.new disk.new chart history (doubt_of doubt.new)) }

    // What a crash leaves at any moment of the call.
    ensures any_moment { IsTrue D.tells → (chart : List ℕ) (history : List EntryOf)
        → Keeps D.tells D.is_image journal.old disk.old chart history (doubt_of doubt.old)
        → AtEachMoment D.moment D.was_image disk.old disk.new
        (FramesNear chart history (IsOneOf (doubt_of doubt.old) entry.value)) }

    // A journal of version 1 stays so until its first lease.
    ensures version { has_act journal.old act.now ≡ true
        → version_of journal.new ≡ version_of journal.old }

    ensures none { OnOk result (doubt_of doubt.new ≡ None) }
    ensures which { OnErr result
        (IsDoubtAfter (doubt_of doubt.old) entry.value (doubt_of doubt.new)) }
    ensures cause { HasCause (D.faults disk.old) (D.faults disk.new) result }
    ensures quiet { OnOk result (D.faults disk.new ≡ D.faults disk.old) }
{
    mend_doubt(journal, disk, doubt)?;
    raise_for(journal, disk, act)?;
    append(journal, disk, doubt, entry)
}
