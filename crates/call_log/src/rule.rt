//! The rule of a log's table.
use crate::log::Knows;
use atomic_table::{Play, Seat, Shared, Split, Table, TableRule};
use std::alloc::Global;
use std::marker::PhantomData;
use std::snapshot::Snapshot;

/// What may be put back into a slot.
pub trait Course<S> {
    ghost use Rattle.std.specs.Prelude.{ℕ, List};
    ghost use Rattle.call_log.specs.declared.log.Event.{Event};

    ghost ends: { List S → List (Event S) → ℕ → S → S → Type 0 };
}

/// The rule of a log of slots in which so much may be put back.
pub struct Rule<S, P> {
    of: PhantomData<(S, P)>,
}

impl<S, P: Course<S>> TableRule<S, Knows<S>, Snapshot<Vec<S>>> for Rule<S, P> {
    ghost use Rattle.call_log.specs.Rule.{Holds, all_of};

    ghost holds = { λ slots. Holds P.ends slots.value.items };

    ghost first = { λ slots. all_of slots.value.items };
}

/// A log's table, with its memory.
pub type LogTable<S, P> = Table<S, Knows<S>, Snapshot<Vec<S>>, Rule<S, P>, Global>;

/// A log's table, as threads share it.
pub type Log<S, P> = Shared<S, Knows<S>, Snapshot<Vec<S>>, Rule<S, P>>;

/// A seat of such a table. It takes no memory.
pub type Hand<S> = Seat<S, Knows<S>>;

/// A slot may be taken out.
pub(crate) struct Beginning<S, P> {
    of: PhantomData<(S, P)>,
}

impl<S, P: Course<S>> Play<S, Knows<S>> for Beginning<S, P> {
    ghost use Rattle.call_log.specs.Steps.{HasTried};

    ghost then = { λ made me found me'. HasTried P.ends made.word found me me' };
}

/// A slot is put back.
pub(crate) struct Ending<S, P> {
    of: PhantomData<(S, P)>,
}

impl<S, P: Course<S>> Play<S, Knows<S>> for Ending<S, P> {
    ghost use Rattle.call_log.specs.Steps.{EndsSo};

    ghost then = { λ made me found me'. EndsSo P.ends made.word me me' };
}

/// All slots are out for good.
pub(crate) struct Closing<S, P> {
    of: PhantomData<(S, P)>,
}

impl<S, P: Course<S>> Play<S, Knows<S>> for Closing<S, P> {
    ghost use Rattle.call_log.specs.Steps.{HasClosed};

    ghost then = { λ made me found me'. HasClosed P.ends me me' };
}

/// A slot is left for good.
pub(crate) struct Leaving<S, P> {
    of: PhantomData<(S, P)>,
}

impl<S, P: Course<S>> Play<S, Knows<S>> for Leaving<S, P> {
    ghost use Rattle.call_log.specs.Steps.{HasLeft};

    ghost then = { λ made me found me'. HasLeft P.ends me me' };
}

/// The last slot is left for good, and nothing waits any more.
pub(crate) struct Emptying<S, P> {
    of: PhantomData<(S, P)>,
}

impl<S, P: Course<S>> Play<S, Knows<S>> for Emptying<S, P> {
    ghost use Rattle.call_log.specs.Steps.{HasEmptied};

    ghost then = { λ made me found me'. HasEmptied P.ends me me' };
}

/// The log is looked at.
pub(crate) struct Looking<S, P> {
    of: PhantomData<(S, P)>,
}

impl<S, P: Course<S>> Play<S, Knows<S>> for Looking<S, P> {
    ghost use Rattle.call_log.specs.Steps.{Looks};

    ghost then = { λ made. Looks P.ends };
}

/// The log is looked at by a seat.
pub(crate) struct Recalling<S, P> {
    of: PhantomData<(S, P)>,
}

impl<S, P: Course<S>> Play<S, Knows<S>> for Recalling<S, P> {
    ghost use Rattle.call_log.specs.Steps.{HasSeen};

    ghost then = { λ made me found me'. HasSeen P.ends me.1 me.0 me' };
}

/// A seat with the first author is split off.
pub(crate) struct Parting;

impl<S> Split<Knows<S>> for Parting {
    ghost use Rattle.call_log.specs.Steps.{one, others};

    ghost left = { others };

    ghost right = { one };
}
