//! [`Name`]: which store it is.
use std::marker::Brand;

/// The name of a store: the book of its history, its table of claim words, the version that it was opened with, and whether its keeps
/// stay for good. It has no function: the value under a lock is known by its type alone, so the type names the store. Each call of
/// a program picks the name, by `std::marker::Brand`.
///
/// Where `keeps_stay` is picked, nobody keeps or releases a sequence, so each read has one answer for as long as the store lives.
pub trait Name {
    ghost use Rattle.logbook.specs.Pages.{Book};
    ghost use Rattle.atomic_table.specs.Seated.{TableId};
    ghost use Rattle.std.specs.Prelude.{Bool};
    ghost use Rattle.uc_version_state.specs.Versions.{Stored};

    ghost book: { Book };

    ghost table: { TableId };

    ghost base: { Stored };

    ghost keeps_stay: { Bool };
}

impl Name for Brand {
    ghost use Rattle.std.specs.Prelude.{[], false};

    ghost book = { record { number = 0; log_name = 0; cells_name = 0 } };

    ghost table = { record { words = 0; slots = 0; views_name = 0; atom = 0; block = 0; offset = 0; slot_names = [] } };

    ghost base = { record { runs = []; keeps = []; last = 0; next_id = 0; limit = 0 } };

    ghost keeps_stay = { false };
}
