//! What is seen of a store, as values.
ghost use Rattle.std.specs.Prelude.{◌≡◌, IfOk, IfSome, map};
ghost use Rattle.bayou_connect.specs.Desks.{IsSameSeat};
ghost use Rattle.bayou_connect.specs.Finals.{keeps_finals, outlook_of};
ghost use Rattle.bayou_connect.specs.Listing.{AreListed};
ghost use Rattle.bayou_connect.specs.Seeing.{Sees, seen_row};

use crate::desk::{OWN, PersonDesk};
use crate::fault::ConnectFault;
use crate::listing::{ListedRows, prefix_of};
use crate::looking::Beyond;
use crate::told::ServerTold;
use bayou_base::{Key, Prefix, ServerId, Value, Vector};
use bayou_final::Standing;
use bayou_net::Sockets;
use std::alloc::AllocError;
use std::fs::{File, Files};
use std::sync::Wait;
use std::time::Clock;

/// A key that has a value, with that.
#[derive(Drop)]
pub struct SeenRow {
    pub key: Key,
    pub value: Value,
    /// How the value stands; `None` where that isn't kept.
    pub standing: Option<Standing>,
}

/// The rows of a store, as a server told them.
#[derive(Drop)]
pub struct SeenRows {
    /// Which server told them.
    pub server: ServerId,
    /// What it held that told the last of them.
    pub vector: Vector,
    /// Whether some of them came of a server that held less.
    pub is_mixed: bool,
    /// In the order of keys.
    pub rows: Vec<SeenRow>,
}

impl PersonDesk {
    // The rows, and how the value of each stands, where that is kept.
    fn seen_of(
        &self,
        rows: &[(Key, Value)],
        beyond: &Option<Beyond>,
    ) -> Result<Vec<SeenRow>, AllocError>
        ensures { IfOk result (λ seen. seen.items ≡ map (seen_row (keeps_finals (outlook_of self.now.store.views)) beyond.now) rows.now) }
    {
        let mut seen = Vec::with_capacity(self.alloc, rows.len())?;
        for row in rows {
            seen.push(SeenRow {
                key: row.0.copy(),
                value: row.1.copy(),
                standing: self.standing(beyond, &row.0),
            })?;
        }
        Ok(seen)
    }

    // The rows whose keys begin so, of servers that are asked at once, and not again after a rest; or why they didn't come.
    fn rows_at_once<T: Files<File = File> + Sockets + Wait + Clock>(
        &mut self,
        rt: &T,
        prefix: &Prefix,
    ) -> Result<Result<ListedRows, ServerTold>, ConnectFault>
        ensures same { IsSameSeat self.old self.new × (self.new.is_served ≡ self.old.is_served) }
        ensures listed { IfOk result (λ told. IfOk told (λ rows. AreListed prefix.now rows.each.items)) }
    {
        let rounds = self.rounds;
        self.rounds = 0;
        let told = self.rows_of(rt, OWN, prefix);
        self.rounds = rounds;
        told
    }

    /// Each key that has a value, with that and how it stands, as a list of the session of short lines has them, but that it isn't waited for a server;
    /// `None` where no server told all.
    pub(crate) fn seen_rows<T: Files<File = File> + Sockets + Wait + Clock>(
        &mut self,
        rt: &T,
    ) -> Result<Option<SeenRows>, ConnectFault>
        ensures same { IsSameSeat self.old self.new × (self.new.is_served ≡ self.old.is_served) }
        ensures seen { IfOk result (λ seen. IfSome seen (Sees (keeps_finals (outlook_of self.new.store.views)))) }
    {
        let all = prefix_of(None);
        let Ok(rows) = self.rows_at_once(rt, &all)? else {
            return Ok(None);
        };
        let Some(server) = self.store.server_at(self.store.asked_last()) else {
            return Ok(None);
        };
        let beyond = self.beyond(rt, &rows)?;
        Ok(Some(SeenRows {
            server,
            vector: rows.vector,
            is_mixed: rows.is_mixed,
            rows: self.seen_of(&rows.each, &beyond)?,
        }))
    }
}
