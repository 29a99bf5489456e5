//! What each atomic operation tells the seat that makes it.

use crate::rule::Law;
use crate::view::View;
use atomic_table::{Join, Play, Split};
use std::marker::{Brand, PhantomData};

/// What a step is told for its contract alone: which step it is, the command of an operation that begins with it, and the reply of
/// one that it ends. The caller picks them.
pub(crate) trait Telling {
    ghost use Rattle.std.specs.Prelude.{Option};
    ghost use Rattle.bw_model.specs.declared.command.Command.{Command};
    ghost use Rattle.bw_model.specs.declared.command.Reply.{Reply};
    ghost use Rattle.bw_model.specs.declared.step.Step.{Step};
    ghost use Rattle.deltas.specs.declared.record.Record.{Record};

    ghost step: { Step Record };

    ghost begun: { Option Command };

    ghost reply: { Option Reply };
}

impl Telling for Brand {
    ghost use Rattle.std.specs.Prelude.{None};
    ghost use Rattle.bw_model.specs.declared.step.Step.TheVariants.{Leave};

    ghost step = { Leave };

    ghost begun = { None };

    ghost reply = { None };
}

/// A step that is one atomic operation on a word.
pub(crate) struct Acting<P, C> {
    of: PhantomData<(P, C)>,
}

impl<P: Law, C: Telling> Play<(), View> for Acting<P, C> {
    ghost use Rattle.table_rule.specs.Steps.{Acts};

    ghost then = { λ made me found me'. Acts P.law C.begun C.step C.reply me found me' };
}

/// The first word of a row is read, which is the step.
pub(crate) struct Reading<P> {
    law: PhantomData<P>,
}

impl<P: Law> Play<(), View> for Reading<P> {
    ghost use Rattle.table_rule.specs.Steps.{ReadsRow};

    ghost then = { ReadsRow P.law };
}

/// A word of a row whose record was read is looked at, and no step is taken.
pub(crate) struct Looking;

impl Play<(), View> for Looking {
    ghost use Rattle.table_rule.specs.Steps.{Looks};

    ghost then = { Looks };
}

/// A word is watched: the longest run is seen, and no step is taken.
pub(crate) struct Watching<P> {
    law: PhantomData<P>,
}

impl<P: Law> Play<(), View> for Watching<P> {
    ghost use Rattle.table_rule.specs.Steps.{Watches};

    ghost then = { Watches P.law };
}

/// The first word of an own row is looked at, by which a record begins to be placed there, in a small tree.
pub(crate) struct Measuring;

impl Play<(), View> for Measuring {
    ghost use Rattle.table_rule.specs.Steps.{Measures};

    ghost then = { Measures };
}

/// The second word of an own row is written, by which a record begins to be placed there, in a large tree.
pub(crate) struct Beginning;

impl Play<(), View> for Beginning {
    ghost use Rattle.table_rule.specs.Steps.{Begins};

    ghost then = { Begins };
}

/// One more word of a row is written, behind the header.
pub(crate) struct Filling;

impl Play<(), View> for Filling {
    ghost use Rattle.table_rule.specs.Steps.{Fills};

    ghost then = { λ made. Fills };
}

/// The header of a row is written, which is the step.
pub(crate) struct Placing<P, C> {
    of: PhantomData<(P, C)>,
}

impl<P: Law, C: Telling> Play<(), View> for Placing<P, C> {
    ghost use Rattle.table_rule.specs.Steps.{Places};

    ghost then = { λ made. Places P.law C.step };
}

/// The longest run is seen, and no step is taken.
pub(crate) struct Refreshing<P> {
    law: PhantomData<P>,
}

impl<P: Law> Play<(), View> for Refreshing<P> {
    ghost use Rattle.table_rule.specs.Views.{Refreshes};

    ghost then = { Refreshes P.law };
}

/// A new seat, in which no actor stands.
pub(crate) struct Blank;

impl Play<(), View> for Blank {
    ghost use Rattle.table_rule.specs.Views.{IsBlank};

    ghost then = { λ made me found me'. IsBlank me' };
}

/// The first part stays, and the others go.
pub(crate) struct Apart;

impl Split<View> for Apart {
    ghost use Rattle.table_rule.specs.Views.{first_part, other_parts};

    ghost left = { first_part };

    ghost right = { other_parts };
}

/// The seat stays, and there is a note of what it has seen.
pub(crate) struct Noting;

impl Split<View> for Noting {
    ghost use Rattle.table_rule.specs.Views.{part_note};

    ghost left = { λ parts. parts };

    ghost right = { part_note };
}

/// The parts of two seats in one.
pub(crate) struct Together;

impl Join<View> for Together {
    ghost use Rattle.std.specs.Prelude.{◌++◌, []};

    ghost both = { λ parts others. parts ++ others };

    ghost spent = { [] };
}
