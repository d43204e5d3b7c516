//! What Writes of rows come to: each law is the contract of a function that does nothing.
ghost use Rattle.std.specs.Prelude.{◌≡◌, ◌*◌, ◌+◌, ◌<◌, ◌≤◌, ℕ, List, [], All, length};
ghost use Rattle.bayou_base.specs.declared.limits.TheConstants.{MAX_OPS};
ghost use Rattle.bayou_lang.specs.declared.write.Write.{Write};
ghost use Rattle.bayou_lang.specs.Database.{Database};
ghost use Rattle.bayou_log.specs.Replay.{replay};
ghost use Rattle.bayou_log.specs.Rows.{Row};
ghost use Rattle.bayou_renew.specs.Renewal.{AreMadeOf, IsWithout, ORIGIN, kept_rows};

/// The Writes that are made of the rows of a database make that database again, but for what is left out.
pub fn renewed_writes_make_the_database()
    ensures { (prefixes : List (List ℕ)) (old : Database) (writes : List Write) → AreMadeOf [] (kept_rows prefixes old) writes → IsWithout prefixes old (replay writes) }
{}

/// The Writes of rows follow from the rows alone, and are all of one server.
pub fn renewed_writes_are_of_the_rows()
    ensures alike { (rows : List Row) (one other : List Write) → AreMadeOf [] rows one → AreMadeOf [] rows other → one ≡ other }
    ensures own { (rows : List Row) (writes : List Write) → AreMadeOf [] rows writes → All (λ write. write.wid.origin.index ≡ ORIGIN) writes }
{}

/// Of rows there are as many Writes as can put them, and no more.
pub fn renewed_writes_are_few()
    ensures { (rows : List Row) (writes : List Write) → AreMadeOf [] rows writes → (length rows ≤ MAX_OPS * length writes) × (MAX_OPS * length writes < length rows + MAX_OPS) }
{}
