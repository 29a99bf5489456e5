//! What a thread does with its seat.
ghost use Rattle.running_tree.specs.Seats.{IsSame};
ghost use Rattle.running_tree.specs.Trees.{IsSeatOf};

use crate::amounts::Scale;
use bw_model::{Command, Key, MAX_LENGTH, Reply, Value};
use rand_core::SeedableRng;
use rand_core::utils::NextWord;
use rand_pcg::Pcg32;
use running_tree::{BwSeat, Called, Tree};
use seats::{called, called_in, reply, resumed};
use workers::Work;

/// More steps than an operation takes.
const MOST_STEPS: u32 = 1 << 16;

/// How often an operation is made that is refused.
const MOST_TURNS: u32 = 1 << 30;

/// How many pairs a scan shows.
const SCANNED: usize = 100;

/// An odd number, so that products with it modulo 2^64 are as many as the numbers.
const SCATTER: u64 = 0x9e37_79b9_7f4a_7c15;

/// How many digits a number has.
const DIGITS: usize = 16;

/// What is done.
#[derive(Clone, Copy, Debug, PartialEq, Eq, Drop)]
pub(crate) enum What {
    /// The keys are inserted, in drawn order.
    Load,
    /// The keys are inserted in ascending order.
    Ascend,
    /// Drawn keys are looked up.
    Reads,
    /// Every second operation is an upsert of a drawn key, the others look one up.
    Half,
    /// Pages from drawn keys on are shown, until there were 100 pairs.
    Scans,
    /// Drawn keys are looked up one step at a time, and the steps are counted.
    Steps,
    /// Upserts of drawn keys are made one step at a time, and the steps are counted.
    Writes,
    /// Every second operation inserts the next key at the end, the others delete the first one, once there are as many as there are to be.
    Window,
    /// The window of a tree of proposed limits moves. An operation that is refused is made again.
    Passing,
    /// One key is upserted, in such a tree. An operation that is refused is made again.
    Hot,
}

impl What {
    /// What a word of the command line names.
    pub(crate) fn named(word: &str) -> Option<What> {
        match word {
            "load" => Some(What::Load),
            "ascend" => Some(What::Ascend),
            "reads" => Some(What::Reads),
            "half" => Some(What::Half),
            "scans" => Some(What::Scans),
            "steps" => Some(What::Steps),
            "writes" => Some(What::Writes),
            "window" => Some(What::Window),
            "passing" => Some(What::Passing),
            "hot" => Some(What::Hot),
            _ => None,
        }
    }
}

/// One thread's operations.
#[derive(Drop)]
pub(crate) struct Worker {
    what: What,
    scale: Scale,
    drawn: Pcg32,
    /// Which of the threads it is.
    thread: u32,
    /// The place of its replies.
    last: Reply,
    /// How many operations succeeded, or how many steps they took.
    pub(crate) done: u64,
}

impl Worker {
    pub(crate) fn new(what: What, scale: Scale, thread: u32) -> Worker {
        Worker {
            what,
            scale,
            drawn: Pcg32::seed_from_u64(u64::from(thread)),
            thread,
            last: Reply::None,
            done: 0,
        }
    }

    /// The next command.
    fn command(&mut self, operation: u32) -> Command {
        let drawn = self.drawn.next_word();
        let number = drawn.checked_rem(self.scale.size).unwrap_or(0);
        match self.what {
            What::Window | What::Passing => self.moved(operation),
            What::Hot => Command::Upsert(self.key(0), value(operation)),
            What::Load | What::Ascend => Command::Insert(self.key(operation), value(operation)),
            What::Scans => Command::Page(self.key(number)),
            What::Half if operation % 2 == 0 => Command::Upsert(self.key(number), value(operation)),
            What::Writes => Command::Upsert(self.key(number), value(operation)),
            _ => Command::Get(self.key(number)),
        }
    }

    /// The next command of a window: the threads take the keys in turn. Where none is to go yet, the key that came is looked up.
    fn moved(&self, operation: u32) -> Command {
        let place = operation / 2;
        let number = place
            .wrapping_mul(self.scale.threads)
            .wrapping_add(self.thread);
        let key = self.key(number);
        if operation % 2 == 0 {
            return Command::Insert(key, value(number));
        }
        match number.checked_sub(self.scale.size) {
            Some(old) => Command::Delete(self.key(old)),
            None => Command::Get(key),
        }
    }

    /// Whether an operation is done and not refused at first. Where it is refused, it is made again.
    fn is_taken(&mut self, tree: &Tree, seat: &mut BwSeat, operation: u32) -> bool
        requires own { IsSeatOf tree.now seat.old }
        ensures same { IsSame seat.old seat.new }
    {
        for turn in 0..MOST_TURNS {
            let command = self.command(operation);
            let done = called_in(tree, seat, command, MOST_STEPS, &mut self.last) == Some(true);
            if !matches!(self.last, Reply::Full) {
                return done && turn == 0;
            }
        }
        false
    }

    /// What the digits of a number's key say: neighbours among the numbers are none among the keys, but in a window and where they ascend.
    fn digits(&self, number: u32) -> u64 {
        if matches!(self.what, What::Window | What::Passing | What::Ascend) {
            return u64::from(number);
        }
        let product = u64::from(number).wrapping_mul(SCATTER);
        (product ^ (product >> 32)).wrapping_mul(SCATTER)
    }

    /// The key of a number: zeros, and 16 hexadecimal digits.
    fn key(&self, number: u32) -> Key {
        let digits = self.digits(number);
        let mut bytes = [b'0'; MAX_LENGTH];
        let length = (self.scale.key_bytes as usize).clamp(DIGITS, MAX_LENGTH);
        match hex::encode_to_slice(digits.to_be_bytes(), &mut bytes[length - DIGITS..length]) {
            Ok(()) => Key::from_slice(&bytes[..length]).unwrap_or_default(),
            Err(_) => Key::default(),
        }
    }
}

impl Work for Worker {
    fn work(&mut self, tree: &Tree, seat: &mut BwSeat) {
        for operation in 0..self.scale.operations {
            let done = match self.what {
                What::Steps | What::Writes => steps(tree, seat, self.command(operation)),
                What::Scans => u64::from(shows(tree, seat, self.command(operation))),
                What::Passing | What::Hot => u64::from(self.is_taken(tree, seat, operation)),
                _ => {
                    let command = self.command(operation);
                    u64::from(succeeds(tree, seat, command, &mut self.last))
                }
            };
            self.done = self.done.saturating_add(done);
        }
    }
}

/// Whether a command finds what it is about: an insert no value, a lookup, an upsert or a deletion one.
fn succeeds(tree: &Tree, seat: &mut BwSeat, command: Command, last: &mut Reply) -> bool
    requires own { IsSeatOf tree.now seat.old }
    ensures same { IsSame seat.old seat.new }
{
    let found = called_in(tree, seat, command, MOST_STEPS, last) == Some(true);
    found
        && matches!(
            last,
            Reply::Inserted | Reply::Value(_) | Reply::Replaced(_) | Reply::Deleted(_)
        )
}

/// Whether the pages from a command's on show 100 pairs, or all up to the end.
fn shows(tree: &Tree, seat: &mut BwSeat, command: Command) -> bool
    requires own { IsSeatOf tree.now seat.old }
    ensures same { IsSame seat.old seat.new }
{
    let mut command = command;
    let mut shown = 0usize;
    for _ in 0..SCANNED {
        let Ok(Reply::Page { items, next }) = reply(tree, seat, command) else {
            return false;
        };
        shown = items.as_slice().len().saturating_add(shown);
        match next {
            Some(next) if shown < SCANNED => command = Command::Page(next),
            _ => return true,
        }
    }
    false
}

/// How many steps a command takes.
fn steps(tree: &Tree, seat: &mut BwSeat, command: Command) -> u64
    requires own { IsSeatOf tree.now seat.old }
    ensures same { IsSame seat.old seat.new }
{
    let mut last = called(tree, seat, command, 1);
    for step in 1..MOST_STEPS {
        if last != Some(Called::Spent) {
            return u64::from(step);
        }
        last = resumed(tree, seat, 1);
    }
    0
}

/// The value of a number, 8 bytes.
fn value(number: u32) -> Value {
    Value::from_slice(&u64::from(number).to_be_bytes()).unwrap_or_default()
}
