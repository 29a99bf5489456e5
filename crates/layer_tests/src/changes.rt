//! Changes step by step, over a memory in which a few numbers are free.
ghost use Rattle.std.specs.Prelude.{◌≡◌, ◌<◌, ◌≤◌, ◌*◌, ◌%◌, ◌∷◌, []};
ghost use Rattle.bw_model.specs.Answers.{answer_of};
ghost use Rattle.bw_model.specs.Lent.{step_of_loan};
ghost use Rattle.traces.specs.discipline.Fitting.{Fits, FitsWord};
ghost use Rattle.traces.specs.discipline.Knowledge.{nothing};
ghost use Rattle.change_machine.specs.Changes.{IsOfChange, IsSpellablePlan, IsTarget};
ghost use Rattle.change_machine.specs.Spares.{HaveRoom};
ghost use Rattle.traces.specs.trace.Within.{IsWithin};

use arrayvec::ArrayString;
use base_page::{Items, Page};
use bw_model::{Key, Limits, Step, Told};
use change_machine::{Change, End, Kind, Spares};
use deltas::{Record, Remove, Unterm};
use std::alloc::Global;
use std::fmt::Write;
use structure_changes::{Plan, SplitPlan};

/// What is planned.
#[derive(Clone, Copy)]
pub(crate) enum Planned {
    Install,
    Split,
    Root,
    Unlink,
}

/// A change: what is planned, how many PIDs and rows are free, whether the exchange that decides wins, the steps, how it ends, and
/// the PID and the rows that it leaves to the next one.
pub(crate) type Case = (
    Planned,
    (u8, u8, bool),
    &'static str,
    (End, Option<u32>, &'static [u32]),
);

/// The steps of a change: `rows 0` reads a word of free rows, `row 3` takes a row, `3=7` places a record in row 3 over row 7, and
/// `1:7>3` exchanges row 7 in slot 1 for row 3.
pub(crate) type Log = ArrayString<256>;

/// Which two numbers may be free: 3 and 5, or the last two, or the fourth and the sixth of each word, again once a word was read as 0.
#[derive(Clone, Copy, PartialEq, Eq)]
pub(crate) enum Free {
    First,
    Last,
    Each,
}

/// How many PIDs and rows are free, and which ones; how many takes of rows miss; and whether the exchange that decides wins.
#[derive(Clone, Copy)]
pub(crate) struct World {
    pub(crate) free: Free,
    pub(crate) pids: u8,
    pub(crate) rows: u8,
    pub(crate) misses: u8,
    pub(crate) won: bool,
}

/// A word of free bits: of the numbers 3 and 5 none is free, or 5 alone, or both.
fn first_word(limit: u64, at: u32, free: u8) -> u64
    requires some { 64 ≤ limit }
    ensures { FitsWord limit at result }
{
    let _ = limit;
    if at != 0 || free == 0 {
        return 0;
    }
    if free == 1 { 32 } else { 40 }
}

/// A word of free bits: of the last two numbers of several words none is free, or the last one, or both.
fn last_word(limit: u64, at: u32, free: u8) -> u64
    requires whole { limit % 64 ≡ 0 }
    ensures { FitsWord limit at result }
{
    if at == 0 || u64::from(at) + 1 != limit / 64 || free == 0 {
        return 0;
    }
    if free == 1 { 1 << 63 } else { 3 << 62 }
}

/// A word of free bits: of its fourth number and its sixth none is free, or the sixth, or both.
fn each_word(limit: u64, at: u32, free: u8) -> u64
    requires whole { limit % 64 ≡ 0 }
    requires there { 64 * at < limit }
    ensures { FitsWord limit at result }
{
    let _ = (limit, at);
    match free {
        0 => 0,
        1 => 32,
        _ => 40,
    }
}

impl Free {
    /// A word of free bits, of so many numbers.
    fn word(self, limit: u64, at: u32, free: u8) -> u64
        requires some { 64 ≤ limit }
        requires whole { limit % 64 ≡ 0 }
        requires there { 64 * at < limit }
        ensures { FitsWord limit at result }
    {
        match self {
            Free::First => first_word(limit, at, free),
            Free::Last => last_word(limit, at, free),
            Free::Each => each_word(limit, at, free),
        }
    }
}

impl World {
    /// A word of free rows. Where each word has some, the next one is full of them.
    fn row_bits(&mut self, limits: &Limits, at: u32) -> u64
        requires there { 64 * at < limits.now.rows }
        ensures { FitsWord limits.now.rows at result }
    {
        let rows = self.rows;
        if self.free == Free::Each && rows == 0 {
            self.rows = 2;
        }
        self.free.word(limits.rows, at, rows)
    }

    /// Whether a row is taken: no take misses still.
    fn take_row(&mut self) -> bool {
        if self.misses > 0 {
            self.misses -= 1;
            return false;
        }
        self.rows = self.rows.saturating_sub(1);
        true
    }
}

/// The answer to a step of a change.
fn told(world: &mut World, limits: &Limits, step: &Step<&Record>) -> Told
    requires only { IsOfChange (step_of_loan step.now) }
    requires within { IsWithin limits.now (step_of_loan step.now) }
    ensures fits { Fits limits.now nothing (step_of_loan step.now) (answer_of result) }
{
    match step {
        Step::PidBits(at) => Told::Number(world.free.word(limits.pids, *at, world.pids)),
        Step::RowBits(at) => Told::Number(world.row_bits(limits, *at)),
        Step::TakePid(pid) => {
            world.pids = world.pids.saturating_sub(1);
            Told::Whether(*pid != 0)
        }
        Step::TakeRow(row) if *row != 0 && world.take_row() => Told::Whether(true),
        Step::TakeRow(_) => Told::Whether(false),
        Step::Place(_, _) => Told::Done,
        Step::Exchange(_, old, new) => Told::Whether(*old == 0 || *new == 0 || world.won),
        _ => unreachable!(),
    }
}

/// Adds a text and a number to the log.
fn add(log: &mut Log, text: &str, number: u32) {
    let _ = write!(log, "{text}{number}");
}

/// Adds a step to the log.
fn show(log: &mut Log, step: &Step<&Record>) {
    match step {
        Step::PidBits(word) => add(log, " pids ", *word),
        Step::RowBits(word) => add(log, " rows ", *word),
        Step::TakePid(pid) => add(log, " pid ", *pid),
        Step::TakeRow(row) => add(log, " row ", *row),
        Step::Place(row, content) => {
            add(log, " ", *row);
            add(log, "=", content.next().unwrap_or(0));
        }
        Step::Exchange(slot, old, new) => {
            add(log, " ", *slot);
            add(log, ":", *old);
            add(log, ">", *new);
        }
        _ => add(log, " ? ", 0),
    }
}

/// The steps of a change that takes the place of the last one, and how it ended; none where there is no memory.
pub(crate) fn drive(
    alloc: Global,
    limits: &Limits,
    change: &mut Change,
    spares: &mut Spares,
    plan: Plan,
    world: &mut World,
) -> Option<(Log, Option<End>)>
    requires target { IsTarget limits.now plan }
    requires spells { IsSpellablePlan plan }
    requires room { HaveRoom limits.now spares.old }
    ensures room { HaveRoom limits.now spares.new }
{
    let mut log = ArrayString::new();
    let mut plan = Box::new(alloc, plan).ok()?;
    change.begin(limits, spares, &mut plan);
    let mut end = None;
    for _ in 0..16 {
        let step = change.wanted(spares);
        show(&mut log, &step);
        let answer = told(world, limits, &step);
        end = change.next(spares, answer);
        if end.is_some() {
            break;
        }
    }
    Some((log, end))
}

/// The smallest limits.
fn smallest() -> Limits {
    Limits::new(1, 64, 64, 1).unwrap()
}

/// A key that isn't the empty one.
fn key_k() -> Key
    ensures { result ≡ 107 ∷ [] }
{
    Key::from_slice(b"k").unwrap()
}

/// What is planned at slot 1, over a row.
pub(crate) fn plan_of(limits: &Limits, plan: Planned, head: u32) -> Plan
    requires some { 0 < head }
    requires there { head < limits.now.rows }
    ensures target { IsTarget limits.now result }
    ensures spells { IsSpellablePlan result }
{
    let _ = limits;
    match plan {
        Planned::Install => Plan::Install {
            pid: 1,
            head,
            content: Record::Remove(Remove {
                level: 0,
                next: head,
            }),
        },
        Planned::Split => Plan::Split {
            pid: 1,
            plan: SplitPlan {
                upper: Page::new(0, key_k(), None, None, Items::new()),
                next: head,
            },
        },
        Planned::Root => Plan::Root {
            left: 1,
            root: Page::empty_leaf(),
        },
        Planned::Unlink => Plan::Unlink {
            pid: 1,
            head,
            unterm: Unterm {
                level: 1,
                next: head,
                separator: key_k(),
                child: 9,
            },
            removal: 4,
        },
    }
}

/// Whether the change goes as the case says, over this row, where these numbers may be free.
pub(crate) fn goes(
    alloc: Global,
    limits: &Limits,
    spares: &mut Spares,
    head: u32,
    free: Free,
    case: &Case,
) -> bool
    requires some { 0 < head }
    requires there { head < limits.now.rows }
    requires room { HaveRoom limits.now spares.old }
    ensures room { HaveRoom limits.now spares.new }
{
    let (plan, (pids, rows, won), steps, (said, pid, left)) = *case;
    let mut world = World {
        free,
        pids,
        rows,
        misses: 0,
        won,
    };
    let Ok(mut change) = Change::new(alloc, limits) else {
        return false;
    };
    let plan = plan_of(limits, plan, head);
    let Some((log, end)) = drive(alloc, limits, &mut change, spares, plan, &mut world) else {
        return false;
    };
    let goes = (log.as_str().trim_start() == steps) & (end == Some(said));
    goes & (spares.pid() == pid) & (spares.rows() == left)
}

/// Whether an actor's changes go as they say, one after another.
fn all_go(alloc: Global, cases: &[Case]) -> bool {
    let limits = smallest();
    let mut spares = Spares::new();
    for case in cases {
        if !goes(alloc, &limits, &mut spares, 7, Free::First, case) {
            return false;
        }
    }
    true
}

/// What an actor does, one change after another.
const CHANGES: &[&[Case]] = &[
    // Installs in a free row. The row is taken, filled and linked.
    &[(
        Planned::Install,
        (2, 2, true),
        "rows 0 row 3 3=7 1:7>3",
        (End::Won, None, &[]),
    )],
    // Takes a pid and then rows. A split takes a PID and two rows, and sets the new page before it links the delta.
    &[(
        Planned::Split,
        (2, 2, true),
        "pids 0 pid 3 rows 0 row 3 rows 0 row 5 3=0 3:0>3 5=7 1:7>5",
        (End::Won, None, &[]),
    )],
    // Undoes a lost split and uses its spares. What a lost split took is what the next changes use.
    &[
        (
            Planned::Split,
            (2, 2, false),
            "pids 0 pid 3 rows 0 row 3 rows 0 row 5 3=0 3:0>3 5=7 1:7>5 3:3>0",
            (End::Lost, Some(3), &[3, 5]),
        ),
        (
            Planned::Install,
            (0, 0, true),
            "5=7 1:7>5",
            (End::Won, Some(3), &[3]),
        ),
        (
            Planned::Root,
            (0, 0, true),
            "3=0 3:0>3 0:1>3",
            (End::Won, None, &[]),
        ),
    ],
    // Undoes a lost root. The new root's page is cleared, and its numbers stay.
    &[(
        Planned::Root,
        (2, 2, false),
        "pids 0 pid 3 rows 0 row 3 3=0 3:0>3 0:1>3 3:3>0",
        (End::Lost, Some(3), &[3]),
    )],
    // Keeps the row of a lost record. The row of a record that wasn't linked stays.
    &[(
        Planned::Install,
        (0, 1, false),
        "rows 0 row 5 5=7 1:7>5",
        (End::Lost, None, &[5]),
    )],
    // Clears a page once its term is out. The removed page's slot is cleared after the parent's delta is linked.
    &[(
        Planned::Unlink,
        (0, 1, true),
        "rows 0 row 5 5=7 1:7>5 9:4>0",
        (End::Won, None, &[]),
    )],
    // Clears no page whose term another took out. Another actor took the term out.
    &[(
        Planned::Unlink,
        (0, 1, false),
        "rows 0 row 5 5=7 1:7>5",
        (End::Lost, None, &[5]),
    )],
    // Is full with what it took. Splits that lack a PID, then both rows, then one.
    &[
        (
            Planned::Split,
            (0, 2, true),
            "pids 0",
            (End::Full(Kind::Pid), None, &[]),
        ),
        (
            Planned::Split,
            (1, 0, true),
            "pids 0 pid 5 rows 0",
            (End::Full(Kind::Row), Some(5), &[]),
        ),
        (
            Planned::Split,
            (0, 1, true),
            "rows 0 row 5 rows 0",
            (End::Full(Kind::Row), Some(5), &[5]),
        ),
    ],
];

#[test]
fn goes_step_by_step(rt: HostRuntime) {
    for (place, cases) in CHANGES.iter().enumerate() {
        assert!(rt; all_go(rt.alloc(), cases), "rule {place}");
    }
}
