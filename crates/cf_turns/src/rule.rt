//! The rule of the shared word, and its kinds of step.

use atomic_table::{Join, Play, Split, TableRule};
use cf_calls::{Call, Entry};
use std::collections::LinkedList;
use std::marker::{Brand, PhantomData};

/// What a seat at the word knows. No value of it is made.
pub struct View {
    /// It is the recorder's.
    pub records: bool,
    /// The recorder's whole list, what a pass has seen, or what a note tells.
    pub list: LinkedList<(Entry, u64)>,
    /// A list taken in from another seat, from a join to the load after it.
    pub joined: LinkedList<(Entry, u64)>,
    /// It has the number of a live pass.
    pub has_number: bool,
    pub number: u64,
    /// The list is at least so long.
    pub floor: u64,
    /// How often the word was read by an ask.
    pub reads: u64,
    /// What the last of these reads found.
    pub last_read: u64,
    /// The recorder's: how many passes were opened.
    pub opened: u64,
    /// The recorder's: the numbers of the passes that were ended.
    pub ended: LinkedList<u64>,
    /// Where the accepted calls of a pass stand in the list, from 1.
    pub places: LinkedList<u64>,
    /// The recorder's: the calls that were answered by a fault of the disk, with the number of the
    /// pass of each.
    pub failed: LinkedList<(Call, u64)>,
    /// A pass's own of these calls.
    pub own_failed: LinkedList<Call>,
}

/// The entries that a recording step adds, which no argument of the step says. The caller picks
/// them.
pub trait Told {
    ghost use Rattle.std.specs.Prelude.{List};
    ghost use Rattle.cf_turns.specs.Lists.{TaggedEntry};

    ghost entries: { List TaggedEntry };
}

impl Told for Brand {
    ghost use Rattle.std.specs.Prelude.{[]};

    ghost entries = { [] };
}

/// The calls that a failing step notes, which no argument of the step says. The caller picks them.
pub trait ToldFailed {
    ghost use Rattle.std.specs.Prelude.{List};
    ghost use Rattle.cf_turns.specs.Lists.{TaggedCall};

    ghost calls: { List TaggedCall };
}

impl ToldFailed for Brand {
    ghost use Rattle.std.specs.Prelude.{[]};

    ghost calls = { [] };
}

/// The rule of the history word: it holds the length of one list, which grows at its end alone.
pub struct LengthOfOneList;

impl TableRule<(), View, ()> for LengthOfOneList {
    ghost use Rattle.cf_turns.specs.Rule.{Holds, first_view};

    ghost holds = { λ _ s. Holds s };

    ghost first = { λ _. first_view };
}

/// Adds to the recorder's list, and to the places of the number that it was lent.
pub struct RecordAdd<N: Told>(PhantomData<N>);

impl<N: Told> Play<(), View> for RecordAdd<N> {
    ghost use Rattle.cf_turns.specs.Steps.{Records};

    ghost then = { λ _ old found new. Records N.entries old found new };
}

/// Notes calls that failed, for the number that the recorder was lent.
pub struct FailLoad<N: ToldFailed>(PhantomData<N>);

impl<N: ToldFailed> Play<(), View> for FailLoad<N> {
    ghost use Rattle.cf_turns.specs.Steps.{Fails};

    ghost then = { λ _ old found new. Fails N.calls old found new };
}

/// Cuts the number and the places off a seat, to lend them or to give them back.
pub struct NumberSplit;

impl Split<View> for NumberSplit {
    ghost use Rattle.cf_turns.specs.Steps.{without_number, view_of_number};

    ghost left = { without_number };

    ghost right = { view_of_number };
}

/// Takes a number and its places into a seat.
pub struct NumberJoin;

impl Join<View> for NumberJoin {
    ghost use Rattle.cf_turns.specs.Rule.{blank};
    ghost use Rattle.cf_turns.specs.Steps.{with_number};

    ghost both = { with_number };

    ghost spent = { blank };
}

/// Cuts a note off the recorder.
pub struct NoteSplit;

impl Split<View> for NoteSplit {
    ghost use Rattle.cf_turns.specs.Steps.{view_of_note};

    ghost left = { λ v. v };

    ghost right = { view_of_note };
}

/// Takes a note into a pass.
pub struct LearnJoin;

impl Join<View> for LearnJoin {
    ghost use Rattle.cf_turns.specs.Rule.{blank};
    ghost use Rattle.cf_turns.specs.Steps.{with_note};

    ghost both = { with_note };

    ghost spent = { blank };
}

/// Lets a pass see the note that it took in.
pub struct LearnLoad;

impl Play<(), View> for LearnLoad {
    ghost use Rattle.cf_turns.specs.Steps.{Learns};

    ghost then = { λ _ old found new. Learns old found new };
}

/// Cuts a pass off the recorder.
pub struct OpenSplit;

impl Split<View> for OpenSplit {
    ghost use Rattle.cf_turns.specs.Steps.{with_next_number, view_of_pass};

    ghost left = { with_next_number };

    ghost right = { view_of_pass };
}

/// Cuts the receipts off a pass.
pub struct EndSplit;

impl Split<View> for EndSplit {
    ghost use Rattle.cf_turns.specs.Steps.{view_of_receipts};

    ghost left = { λ v. v };

    ghost right = { view_of_receipts };
}

/// Takes a pass into the recorder.
pub struct EndJoin;

impl Join<View> for EndJoin {
    ghost use Rattle.cf_turns.specs.Rule.{blank};
    ghost use Rattle.cf_turns.specs.Steps.{with_pass};

    ghost both = { with_pass };

    ghost spent = { blank };
}

/// Notes that the pass is ended that the recorder took in.
pub struct EndLoad;

impl Play<(), View> for EndLoad {
    ghost use Rattle.cf_turns.specs.Steps.{Ends};

    ghost then = { λ _ old found new. Ends old found new };
}

/// Reads the length for a pass.
pub struct AskLoad;

impl Play<(), View> for AskLoad {
    ghost use Rattle.cf_turns.specs.Steps.{Asks};

    ghost then = { λ _ old found new. Asks old found new };
}

/// Cuts an ask off a pass.
pub struct AskSplit;

impl Split<View> for AskSplit {
    ghost use Rattle.cf_turns.specs.Steps.{view_of_ask};

    ghost left = { λ v. v };

    ghost right = { view_of_ask };
}

/// Takes an ask into the recorder.
pub struct HearJoin;

impl Join<View> for HearJoin {
    ghost use Rattle.cf_turns.specs.Rule.{blank};
    ghost use Rattle.cf_turns.specs.Steps.{with_ask};

    ghost both = { with_ask };

    ghost spent = { blank };
}

/// Compares the ask that the recorder took in with its list.
pub struct HearLoad;

impl Play<(), View> for HearLoad {
    ghost use Rattle.cf_turns.specs.Steps.{Hears};

    ghost then = { λ _ old found new. Hears old found new };
}
