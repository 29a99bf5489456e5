//! The steps that an operation takes over the shared memory, one at a time, and their answers.
ghost use Rattle.std.specs.Prelude.{◌≡◌};
ghost use Rattle.bw_model.specs.Answers.{IsNumber, IsContent, IsWhether, TellsNumber, answer_of};

/// One atomic step of one actor, over records of type `R`; the first six are reads.
#[derive(Drop)]
pub enum Step<R> {
    /// Reads a slot of the mapping table.
    Slot(u32),
    /// Reads the record in a row.
    Row(u32),
    /// Reads the epoch.
    Epoch,
    /// Reads the epoch that an actor announced, or 0.
    Announce(u8),
    /// Reads a word of the bits of free PIDs.
    PidBits(u32),
    /// Reads a word of the bits of free rows.
    RowBits(u32),
    /// Places a record into an own row.
    Place(u32, R),
    /// Exchanges a slot's number from the second to the third (compare-and-swap).
    Exchange(u32, u32, u32),
    /// Clears the free bit of a PID.
    TakePid(u32),
    /// Clears the free bit of a row.
    TakeRow(u32),
    /// Announces an epoch.
    Enter(u64),
    /// Announces 0: the actor is outside.
    Leave,
    /// Moves the epoch on by one, if it is this one.
    Retire(u64),
    /// Sets bits of one word of the free PIDs.
    ReusePids(u32, u64),
    /// Sets bits of one word of the free rows.
    ReuseRows(u32, u64),
}

/// What a step answers.
#[derive(Drop)]
pub enum Answer<R> {
    /// No step has been taken yet.
    Start,
    /// The number that was read.
    Number(u64),
    /// The record that was read.
    Content(R),
    /// Whether an exchange or a retiring went, or a taken number was free.
    Whether(bool),
    /// The step was taken.
    Done,
}

/// The answer to a step that reads no record. A record that was read is taken from where it lies.
#[derive(Clone, Copy)]
pub enum Told {
    /// No step has been taken yet.
    Start,
    /// The number that was read.
    Number(u64),
    /// Whether an exchange or a retiring went, or a taken number was free.
    Whether(bool),
    /// The step was taken.
    Done,
}

/// What an exchange that won has done.
#[derive(Clone, Copy, PartialEq, Eq)]
pub enum Link {
    /// A key was given a value.
    Put,
    /// A key was made absent.
    Delete,
    /// A page's chain was replaced by one base (consolidation).
    Base,
    /// The upper items of a page went to a new page.
    Split,
    /// A page's term was posted in its parent.
    Term,
    /// A new root was put over the old one.
    Root,
    /// A term was marked, before its page is removed.
    Hold,
    /// A page was removed.
    Remove,
    /// A removed page's items went to its left page.
    Merge,
    /// A merged page's term was taken out of its parent.
    Unterm,
    /// A merged page's slot was emptied.
    Clear,
    /// A new page's slot was filled, before the page is linked.
    Ready,
    /// A new page that was not linked was taken out of its slot again.
    Undo,
}

impl<R: Drop> Answer<R> {
    /// The number that was read.
    pub fn number(&self) -> u64
        requires { IsNumber self.now }
        ensures { self.now ≡ Answer.Number result }
    {
        match self {
            Answer::Number(number) => *number,
            _ => unreachable!(),
        }
    }

    /// The record that was read.
    pub fn content(&self) -> &R
        requires { IsContent self.now }
        ensures { self.now ≡ Answer.Content result.now }
    {
        match self {
            Answer::Content(content) => content,
            _ => unreachable!(),
        }
    }

    /// Whether the step went.
    pub fn whether(&self) -> bool
        requires { IsWhether self.now }
        ensures { self.now ≡ Answer.Whether result }
    {
        match self {
            Answer::Whether(whether) => *whether,
            _ => unreachable!(),
        }
    }
}

impl Told {
    /// The answer as one of a type that has room for a record.
    #[inline(never)]
    pub fn answer<R>(self) -> Answer<R>
        ensures { result ≡ answer_of self }
    {
        match self {
            Told::Start => Answer::Start,
            Told::Number(number) => Answer::Number(number),
            Told::Whether(whether) => Answer::Whether(whether),
            Told::Done => Answer::Done,
        }
    }

    /// The number that was read.
    pub fn number(self) -> u64
        requires { TellsNumber self }
        ensures { self ≡ Told.Number result }
    {
        match self {
            Told::Number(number) => number,
            _ => unreachable!(),
        }
    }
}
