//! The shared word.

ghost use Rattle.std.specs.Prelude.{◌≡◌, [], IfOk};

use crate::recorder::Recorder;
use crate::rule::{LengthOfOneList, View};
use atomic_table::{Seat, Table};
use std::alloc::{AllocError, Global};
use std::marker::Model;

pub(crate) type ViewSeat = Seat<(), View>;

pub(crate) type Word = Table<(), View, (), LengthOfOneList, Global>;

/// The word that all threads share. Contracts see which table it is.
#[derive(Drop)]
pub struct Turns {
    pub(crate) table: Word,
}

impl Model for Turns {
    ghost use Rattle.std.specs.Prelude.{◌≡◌};
    ghost use Rattle.atomic_table.specs.Seated.{TableId, table_id_coded};

    ghost Value = { TableId };

    ghost coded = { table_id_coded };

    ghost view = { λ t. t.table.shared.table_id };

    ghost invariant = { λ t. t.table.shared.table_id.words ≡ 1 };
}

impl Turns {
    /// The word of an empty list, and its recorder. No other call of this crate takes memory.
    pub fn new(alloc: Global) -> Result<(Turns, Recorder), AllocError>
        ensures { IfOk result
            (λ r. r.1 ≡ record {
              table = r.0;
              list = [];
              opened = 0;
              ended = [];
              floor = 0;
              failed = [];
            }) }
    {
        let (table, seat) = Word::of_words(alloc, &[0], &())?;
        Ok((Turns { table }, Recorder { seat, len: 0 }))
    }
}
