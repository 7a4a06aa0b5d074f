//! The rules: of the history, and of what is shown.
//!
//! The history is a list of events that only grows; the one word that threads share is its length. What is shown to readers
//! never goes back to a shorter history, so a reader that enters again sees one that begins with what it had seen.
//!
//! | Kind of step | Made by | What it does |
//! |---|---|---|
//! | add | `Book::add`, by `Publisher::show_event` alone | an event goes after the history, all of which is shown |
//! | publish | `Publisher::show_event` | the version after that event is shown, with the history up to it |
//! | enter | `Reader::pin` | the reader sees the history that is shown, and what it knew is a beginning of that |
use crate::name::Name;
use crate::shown::Shown;
use crossbeam_utils::rule::{Outcome, Protocol};
use logbook::{Gain, Plain, Play, Rule};
use std::marker::PhantomData;
use uc_batch::Writes;
use uc_oper::Operator;
use uc_version_state::{Event, Install};

/// The rule of the history: the word that threads share is its length.
pub struct Law;

impl Rule<Event, u64> for Law {
    ghost use Rattle.std.specs.Prelude.{[]};
    ghost use base.Fml.{ftrue};
    ghost use Rattle.uc_share.specs.Rules.{IsCounted};

    ghost holds = { λ cells log. IsCounted cells log };

    ghost first = { [] };

    ghost hinted = { λ n log. Unit {0} };

    ghost shows = { λ log. [] };

    ghost keeps = { λ names log. ftrue };

    ghost moves = { λ ask before after answer. Unit {0} };
}

/// Callers trade nothing.
pub(crate) struct Nothing;

impl Gain<Event, u64> for Nothing {
    ghost use base.Fml.{ftrue};

    ghost after = { λ names about answer. ftrue };
}

/// A step that adds an event.
pub(crate) struct Add;

impl Play<Event, u64> for Add {
    ghost use Rattle.uc_share.specs.Rules.{Adds};

    ghost then = { Adds };
}

/// Names an install: the event that a step asks for.
impl Plain<Install, Event, u64> for Add {
    ghost use Rattle.std.specs.Prelude.{None};
    ghost use Rattle.uc_version_state.specs.declared.event.Event.TheVariants.{Installed};

    ghost ask = { λ install. Installed install };

    ghost state = { λ install. None };
}

/// Fed writes say their event themselves, so none is made of them.
impl Plain<Writes, Event, u64> for Add {
    ghost use Rattle.std.specs.Prelude.{None};
    ghost use Rattle.uc_version_state.specs.declared.event.Event.TheVariants.{Flushed};

    ghost ask = { λ writes. Flushed writes.list };

    ghost state = { λ writes. None };
}

/// Names the event that the last sequence is kept.
#[derive(Drop)]
pub(crate) struct Keep;

impl Plain<Keep, Event, u64> for Add {
    ghost use Rattle.std.specs.Prelude.{None};
    ghost use Rattle.uc_version_state.specs.declared.event.Event.TheVariants.{Kept};

    ghost ask = { λ keep. Kept };

    ghost state = { λ keep. None };
}

/// Names the event that a keep is released.
#[derive(Drop)]
pub(crate) struct Release(pub(crate) u64);

impl Plain<Release, Event, u64> for Add {
    ghost use Rattle.std.specs.Prelude.{None};
    ghost use Rattle.uc_version_state.specs.declared.event.Event.TheVariants.{Released};

    ghost ask = { λ release. Released release.0 };

    ghost state = { λ release. None };
}

/// The rule of what is shown. A view is a number of events: no reader has seen more than is shown.
pub struct Rises<O, N> {
    of: PhantomData<(O, N)>,
}

impl<O: Operator, N: Name> Protocol<Shown, u64> for Rises<O, N> {
    ghost use Rattle.uc_share.specs.Fronts.{IsRuled};

    ghost holds = { IsRuled O.meaning N.keeps_stay N.book N.base };

    ghost first = { 0 };
}

/// A step after which the caller knows how many events are shown.
pub(crate) struct Sees<O, N> {
    of: PhantomData<(O, N)>,
}

impl<O: Operator, N: Name> Outcome<Shown, u64> for Sees<O, N> {
    ghost use Rattle.uc_share.specs.Fronts.{Tells};

    ghost then = { Tells O.meaning N.keeps_stay N.book N.base };
}
