//! Words for commands and steps.

use crate::says::record_words;
use crate::words::Words;
use crate::write::{with_key, with_number, with_token};
use bw_model::{Command, Step};
use deltas::Record;

/// What an actor was asked.
pub(crate) fn command_words(words: &mut Words, command: &Command) {
    match command {
        Command::Get(key) => with_key(words, b"get ", key.as_slice()),
        Command::Insert(key, value) => {
            with_key(words, b"insert ", key.as_slice());
            with_token(words, b" ", value.as_slice());
        }
        Command::Upsert(key, value) => {
            with_key(words, b"upsert ", key.as_slice());
            with_token(words, b" ", value.as_slice());
        }
        Command::Delete(key) => with_key(words, b"delete ", key.as_slice()),
        Command::DeleteIf(key, expected) => {
            with_key(words, b"delete_if ", key.as_slice());
            with_token(words, b" ", expected.as_slice());
        }
        Command::Swap(key, expected, value) => {
            with_key(words, b"swap ", key.as_slice());
            with_token(words, b" ", expected.as_slice());
            with_token(words, b" ", value.as_slice());
        }
        Command::Add(key, number) => {
            with_key(words, b"add ", key.as_slice());
            with_number(words, b" ", *number);
        }
        Command::Page(key) => with_key(words, b"page ", key.as_slice()),
        Command::Back(key) => with_key(words, b"back ", key.as_slice()),
        Command::Tidy(key) => with_key(words, b"tidy ", key.as_slice()),
    }
}

/// The step that an operation wants.
pub(crate) fn step_words(words: &mut Words, step: &Step<&Record>) {
    match step {
        Step::Slot(pid) => with_number(words, b"read slot ", u64::from(*pid)),
        Step::Row(row) => with_number(words, b"read row ", u64::from(*row)),
        Step::Epoch => words.add(b"read the epoch"),
        Step::Announce(actor) => with_number(
            words,
            b"read the announce of actor ",
            u64::from(*actor),
        ),
        Step::PidBits(word) => with_number(words, b"read free PIDs, word ", u64::from(*word)),
        Step::RowBits(word) => with_number(words, b"read free rows, word ", u64::from(*word)),
        Step::Place(row, record) => {
            with_number(words, b"place in row ", u64::from(*row));
            words.add(b": ");
            words.add(record_words(record).as_slice());
        }
        Step::Exchange(slot, old, new) => {
            let (from, to) = content_words(*slot);
            with_number(words, b"exchange slot ", u64::from(*slot));
            with_number(words, from, u64::from(*old));
            with_number(words, to, u64::from(*new));
        }
        Step::TakePid(pid) => with_number(words, b"take PID ", u64::from(*pid)),
        Step::TakeRow(row) => with_number(words, b"take row ", u64::from(*row)),
        Step::Enter(epoch) => with_number(words, b"enter epoch ", *epoch),
        Step::Leave => words.add(b"leave"),
        Step::Retire(epoch) => with_number(words, b"retire epoch ", *epoch),
        Step::ReusePids(word, _) => with_number(words, b"free PIDs of word ", u64::from(*word)),
        Step::ReuseRows(word, _) => with_number(words, b"free rows of word ", u64::from(*word)),
    }
}

/// What an exchange of a slot is from, and what it is to: slot 0 has the root's PID, every other one a row.
fn content_words(slot: u32) -> (&'static [u8], &'static [u8]) {
    if slot == 0 {
        (b" from PID ", b" to PID ")
    } else {
        (b" from row ", b" to row ")
    }
}
