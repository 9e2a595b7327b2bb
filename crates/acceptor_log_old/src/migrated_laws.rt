//! What migration keeps, as contracts of calls that do nothing else.

ghost use Rattle.std.specs.Prelude.{◌≡◌, ◌<◌, ◌^◌, ℕ, List};
ghost use Rattle.acceptor_log_form.specs.declared.record.Record.{Record};
ghost use Rattle.acceptor_log_old.specs.Migrated.{first_offer_in, migrated};
ghost use Rattle.acceptor_log_old.specs.Keeps.{MigrationKeepsOrder, MigrationKeepsParts};

/// What is kept of each room is the same once the records are migrated.
pub fn same_kept()
    ensures { MigrationKeepsParts }
{}

/// So is each room's offer.
pub fn same_offers()
    ensures { (rs : List Record) (room : ℕ) → room < 2 ^ 16 → first_offer_in (migrated rs) room ≡ first_offer_in rs room }
{}

/// Records in order, of so many rooms, are migrated to records in order, of no other rooms.
pub fn still_in_order()
    ensures { MigrationKeepsOrder }
{}
