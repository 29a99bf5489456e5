//! One step on the words of the tree.
ghost use Rattle.std.specs.Prelude.{◌≡◌, ◌≢◌, ◌<◌, None, Some, true, false, option_copied, slice_index};
ghost use Rattle.deltas.specs.declared.record.Record.{Record as RecordSeen};
ghost use Rattle.record_slots.specs.Spells.{HasSpelling};
ghost use Rattle.row_search.specs.Begins.{Begins};
ghost use Rattle.tree_limits.specs.Limits.{most_large_actors};
ghost use Rattle.tree_words.specs.Changes.{HasWord};
ghost use Rattle.tree_words.specs.Words.{stored};
ghost use Rattle.bw_model.specs.Answers.{answer_of};
ghost use Rattle.bw_model.specs.Lent.{step_of_loan};
ghost use Rattle.bw_model.specs.declared.step.Answer.TheVariants as Answer;
ghost use Rattle.bw_model.specs.declared.step.Step.TheVariants.{Leave};
ghost use Rattle.running_tree.specs.Runs.{IsLawfulRun};
ghost use Rattle.running_tree.specs.declared.taking.Taken.TheVariants.{Leaving};
ghost use Rattle.running_tree.specs.Told.{HasTaken};
ghost use Rattle.traces.specs.discipline.Discipline.{May};
ghost use Rattle.traces.specs.discipline.Knowledge.{knows};
ghost use Rattle.traces.specs.trace.Within.{IsWithin};
ghost use Rattle.table_rule.specs.declared.view.Reach.TheVariants.{Idle};
ghost use Rattle.table_rule.specs.Steps.{IsLawfulStep, Took};
ghost use Rattle.table_rule.specs.Views.{SitsAt, IsOf, seen_of};

use crate::lawful_runs::{TreeWords, runs_keep_rows_apart};
use bw_model::{Command, Reply, Step, Told};
use compact_rows::{CompactRow, compact_in, records_have_room, words_are_seen};
use deltas::Record;
use record_slots::{WrittenRow, write_record};
use table_rule::{TableSeat, act, place_row, read_first};
use tree_words::Layout;

/// What a step answers.
#[derive(Drop)]
pub(crate) enum Taken {
    /// The step is the leave, which wasn't taken: its reply is asked for before.
    Leaving,
    /// A record was read: its row, and its first word. It stays where it lies.
    First(u32, u64),
    /// Any other step is told this.
    Told(Told),
}

/// Takes a step that the seat's actor may take, but for the leave. Reads of rows and slots are most of all steps, and are taken here, as an
/// operation's entering is. By value: a step that is lent lies in memory.
#[inline(always)]
pub(crate) fn take(
    words: &TreeWords,
    place: &mut TableSeat,
    limits: &Layout,
    number: u8,
    step: Step<&Record>,
    spelt: &mut CompactRow,
) -> Taken
    requires table { IsOf limits.now words.now.key words.now.table_id place.old.table_id }
    requires there { number < limits.now.actors }
    requires within { IsWithin limits.now (step_of_loan step) }
    requires seat { SitsAt limits.now number Idle place.old.me }
    requires known { May number (knows (seen_of place.old.me) number) (step_of_loan step) }
    requires may { step_of_loan step ≢ Leave → IsLawfulStep IsLawfulRun limits.now number (seen_of place.old.me) None (step_of_loan step) None }
    ensures same { place.new.table_id ≡ place.old.table_id }
    ensures seat { SitsAt limits.now number Idle place.new.me }
    ensures took { HasTaken limits.now number (seen_of place.old.me) (step_of_loan step.entry) result (seen_of place.new.me) }
    ensures leaving { result ≡ Leaving → place.new.me ≡ place.old.me }
{
    match step {
        Step::Leave => Taken::Leaving,
        Step::Row(row) => {
            runs_keep_rows_apart();
            let first = read_first(words, place, limits, number, row);
            row_begins(limits, first);
            Taken::First(row, first)
        }
        Step::Place(row, record) => {
            place_record(words, place, limits, number, row, record, spelt);
            Taken::Told(Told::Done)
        }
        Step::Slot(pid) => {
            let step = Step::Slot(pid);
            Taken::Told(act(words, place, limits, number, &step, None, None))
        }
        Step::Enter(epoch) => {
            let step = Step::Enter(epoch);
            Taken::Told(act(words, place, limits, number, &step, None, None))
        }
        _ => Taken::Told(act_on(words, place, limits, number, step)),
    }
}

/// Takes a step that is one atomic operation on a word. Not inlined: a lookup takes no such step.
#[inline(never)]
fn act_on(
    words: &TreeWords,
    place: &mut TableSeat,
    limits: &Layout,
    number: u8,
    step: Step<&Record>,
) -> Told
    requires table { IsOf limits.now words.now.key words.now.table_id place.old.table_id }
    requires range { HasWord limits.now (step_of_loan step) }
    requires actor { number < most_large_actors }
    requires seat { SitsAt limits.now number Idle place.old.me }
    requires may { IsLawfulStep IsLawfulRun limits.now number (seen_of place.old.me) None (step_of_loan step) None }
    ensures same { place.new.table_id ≡ place.old.table_id }
    ensures seat { SitsAt limits.now number Idle place.new.me }
    ensures took { Took IsLawfulRun limits.now number (seen_of place.old.me) None (step_of_loan step.entry) (answer_of result) None (seen_of place.new.me) }
{
    act(words, place, limits, number, &step, None, None)
}

/// Takes the first step of an operation, which reads the epoch, with the operation's command.
#[inline(always)]
pub(crate) fn take_first(
    words: &TreeWords,
    place: &mut TableSeat,
    limits: &Layout,
    number: u8,
    step: Step<&Record>,
    begun: Option<&Command>,
) -> Told
    requires table { IsOf limits.now words.now.key words.now.table_id place.old.table_id }
    requires range { HasWord limits.now (step_of_loan step) }
    requires actor { number < most_large_actors }
    requires seat { SitsAt limits.now number Idle place.old.me }
    requires may { IsLawfulStep IsLawfulRun limits.now number (seen_of place.old.me) (option_copied begun) (step_of_loan step) None }
    ensures same { place.new.table_id ≡ place.old.table_id }
    ensures seat { SitsAt limits.now number Idle place.new.me }
    ensures took { Took IsLawfulRun limits.now number (seen_of place.old.me) (option_copied begun.entry) (step_of_loan step.entry) (answer_of result) None (seen_of place.new.me) }
{
    match step {
        Step::Epoch => {
            let step = Step::Epoch;
            act(words, place, limits, number, &step, begun, None)
        }
        _ => act_first(words, place, limits, number, step, begun),
    }
}

/// Takes any other first step. Not inlined: there is none, and so no step lies in memory.
#[inline(never)]
fn act_first(
    words: &TreeWords,
    place: &mut TableSeat,
    limits: &Layout,
    number: u8,
    step: Step<&Record>,
    begun: Option<&Command>,
) -> Told
    requires table { IsOf limits.now words.now.key words.now.table_id place.old.table_id }
    requires range { HasWord limits.now (step_of_loan step) }
    requires actor { number < most_large_actors }
    requires seat { SitsAt limits.now number Idle place.old.me }
    requires may { IsLawfulStep IsLawfulRun limits.now number (seen_of place.old.me) (option_copied begun) (step_of_loan step) None }
    ensures same { place.new.table_id ≡ place.old.table_id }
    ensures seat { SitsAt limits.now number Idle place.new.me }
    ensures took { Took IsLawfulRun limits.now number (seen_of place.old.me) (option_copied begun.entry) (step_of_loan step.entry) (answer_of result) None (seen_of place.new.me) }
{
    act(words, place, limits, number, &step, begun, None)
}

/// Shows that a record's row begins with its first word, whichever form it has there, at no cost.
#[inline(always)]
fn row_begins(limits: &Layout, first: u64)
    ensures { (content : RecordSeen) → HasSpelling content → first ≡ slice_index (stored limits.now content) 0 → Begins first content }
{
    words_are_seen();
    records_have_room();
    let _ = limits;
    let _ = first;
}

/// Takes the leave that ends an operation, with its reply.
pub(crate) fn take_leave(
    words: &TreeWords,
    place: &mut TableSeat,
    limits: &Layout,
    number: u8,
    reply: &Reply,
)
    requires table { IsOf limits.now words.now.key words.now.table_id place.old.table_id }
    requires there { number < limits.now.actors }
    requires seat { SitsAt limits.now number Idle place.old.me }
    requires may { IsLawfulStep IsLawfulRun limits.now number (seen_of place.old.me) None Leave (Some reply.now) }
    ensures same { place.new.table_id ≡ place.old.table_id }
    ensures seat { SitsAt limits.now number Idle place.new.me }
    ensures took { Took IsLawfulRun limits.now number (seen_of place.old.me) None Leave Answer.Done (Some reply.now) (seen_of place.new.me) }
{
    act(
        words,
        place,
        limits,
        number,
        &Step::Leave,
        None,
        Some(reply),
    );
}

/// Places a record into a row.
fn place_record(
    words: &TreeWords,
    place: &mut TableSeat,
    limits: &Layout,
    number: u8,
    row: u32,
    content: &Record,
    spelt: &mut CompactRow,
)
    requires table { IsOf limits.now words.now.key words.now.table_id place.old.table_id }
    requires there { number < limits.now.actors }
    requires within { IsWithin limits.now (Step.Place row content.now) }
    requires seat { SitsAt limits.now number Idle place.old.me }
    requires known { May number (knows (seen_of place.old.me) number) (Step.Place row content.now) }
    requires may { IsLawfulStep IsLawfulRun limits.now number (seen_of place.old.me) None (Step.Place row content.now) None }
    ensures same { place.new.table_id ≡ place.old.table_id }
    ensures seat { SitsAt limits.now number Idle place.new.me }
    ensures took { Took IsLawfulRun limits.now number (seen_of place.old.me) None (Step.Place row content.now) Answer.Done None (seen_of place.new.me) }
{
    if limits.is_large() {
        place_compact(words, place, limits, number, row, content, spelt);
    } else {
        place_spelt(words, place, limits, number, row, content);
    }
}

/// Places a record in a large tree, as compact words. Not inlined: no other step needs room for its words.
#[inline(never)]
fn place_compact(
    words: &TreeWords,
    place: &mut TableSeat,
    limits: &Layout,
    number: u8,
    row: u32,
    content: &Record,
    spelt: &mut CompactRow,
)
    requires large { limits.now.is_large ≡ true }
    requires table { IsOf limits.now words.now.key words.now.table_id place.old.table_id }
    requires there { number < limits.now.actors }
    requires within { IsWithin limits.now (Step.Place row content.now) }
    requires seat { SitsAt limits.now number Idle place.old.me }
    requires known { May number (knows (seen_of place.old.me) number) (Step.Place row content.now) }
    requires may { IsLawfulStep IsLawfulRun limits.now number (seen_of place.old.me) None (Step.Place row content.now) None }
    ensures same { place.new.table_id ≡ place.old.table_id }
    ensures seat { SitsAt limits.now number Idle place.new.me }
    ensures took { Took IsLawfulRun limits.now number (seen_of place.old.me) None (Step.Place row content.now) Answer.Done None (seen_of place.new.me) }
{
    runs_keep_rows_apart();
    compact_in(spelt, content);
    place_row(words, place, limits, number, row, content, spelt.words());
}

/// Places a record in a small tree, as it is spelled. Not inlined: no other step needs room for its words.
#[inline(never)]
fn place_spelt(
    words: &TreeWords,
    place: &mut TableSeat,
    limits: &Layout,
    number: u8,
    row: u32,
    content: &Record,
)
    requires small { limits.now.is_large ≡ false }
    requires table { IsOf limits.now words.now.key words.now.table_id place.old.table_id }
    requires there { number < limits.now.actors }
    requires within { IsWithin limits.now (Step.Place row content.now) }
    requires seat { SitsAt limits.now number Idle place.old.me }
    requires known { May number (knows (seen_of place.old.me) number) (Step.Place row content.now) }
    requires may { IsLawfulStep IsLawfulRun limits.now number (seen_of place.old.me) None (Step.Place row content.now) None }
    ensures same { place.new.table_id ≡ place.old.table_id }
    ensures seat { SitsAt limits.now number Idle place.new.me }
    ensures took { Took IsLawfulRun limits.now number (seen_of place.old.me) None (Step.Place row content.now) Answer.Done None (seen_of place.new.me) }
{
    runs_keep_rows_apart();
    let mut spelt = WrittenRow::new();
    write_record(&mut spelt, content);
    place_row(
        words,
        place,
        limits,
        number,
        row,
        content,
        &spelt.words()[..],
    );
}
