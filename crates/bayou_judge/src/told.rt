//! Of which Writes entries told.
ghost use Rattle.std.specs.Prelude.{◌≡◌, ◌≢◌, ℕ, ◌<◌, List, [], ◌∷◌, ◌++◌, true, OnOk};
ghost use Rattle.bayou_base.specs.declared.entry.Entry.{Entry};
ghost use Rattle.bayou_judge.specs.Inner.Heard.{told_in, AreTold};

use bayou_base::{SERVERS, What, Wid};
use std::alloc::{AllocError, Global};
use std::marker::Model;

/// A row for each sequence number: of which servers' Writes with that number entries told.
#[derive(Drop)]
pub(crate) struct Told {
    rows: Vec<[bool; SERVERS]>,
}

impl Model for Told {
    ghost use Rattle.std.specs.Prelude.{◌≡◌, All, Bool, List, length};
    ghost use Rattle.bayou_base.specs.declared.limits.TheConstants.{SERVERS};

    ghost Value = { List (List Bool) };

    ghost view = { λ t. t.rows.items };

    ghost invariant = { λ t. All (λ row. length row ≡ SERVERS) t.rows.items };
}

impl Told {
    /// Of none.
    pub(crate) fn new(alloc: Global) -> Self
        ensures { AreTold [] result }
    {
        Told {
            rows: Vec::new(alloc),
        }
    }

    /// Whether an entry told of the Write of this name.
    pub(crate) fn has(&self, wid: Wid) -> bool
        ensures { result ≡ told_in self.now wid.origin.index wid.seq }
    {
        match self.rows.get(wid.seq as usize - 1) {
            Some(row) => row[usize::from(wid.origin.index)],
            None => false,
        }
    }

    /// Takes note of the Write of this name.
    fn add(&mut self, wid: Wid) -> Result<(), AllocError>
        ensures here { OnOk result (told_in self.new wid.origin.index wid.seq ≡ true) }
        ensures others { OnOk result ((server seq : ℕ) → 0 < seq → (server ≡ wid.origin.index → seq ≢ wid.seq)
            → told_in self.new server seq ≡ told_in self.old server seq) }
    {
        let place = wid.seq as usize - 1;
        if self.rows.len() <= place {
            self.rows.resize(place + 1, [false; SERVERS])?;
        }
        let mut row = self.rows[place];
        row[usize::from(wid.origin.index)] = true;
        self.rows[place] = row;
        Ok(())
    }

    /// Takes note of what one more entry tells of.
    pub(crate) fn hear(&mut self, what: &What) -> Result<(), AllocError>
        ensures { (earlier : List Entry) (entry : Entry) → entry.what ≡ what.now → AreTold earlier self.old
            → OnOk result (AreTold (earlier ++ entry ∷ []) self.new) }
    {
        match what {
            What::Write(wid, _, _) => self.add(*wid),
            What::Read(_, _) => Ok(()),
            What::Refused => Ok(()),
        }
    }
}
