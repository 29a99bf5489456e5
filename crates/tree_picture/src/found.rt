//! What the last step of a run found, in words.
ghost use Rattle.std.specs.Prelude.{◌≡◌, ◌≤◌, ◌++◌, codes, decimal, length};
ghost use Rattle.tree_picture.specs.Found.{answer_text, bits_found, found_text, retiring_found, slot_found, taking_found};

use crate::cells::{epoch_found, with_behind};
use crate::says::record_found;
use crate::slots::slot_found;
use crate::touches::last_entry;
use crate::words::Words;
use crate::write::plain;
use bw_model::{Answer, Step};
use deltas::Record;
use step_core::Core;
use traces::Entry;

/// What the last step of a core found, in words: behind a read what stood there, and behind the taking of a number whether it was free.
pub fn found_words(core: &Core) -> Words
    ensures { result ≡ found_text core.now.entries }
{
    match last_entry(core.entries()) {
        Some(Entry::Step(_, step, answer, _)) => answer_words(&step, &answer),
        _ => Words::new(),
    }
}

fn answer_words(step: &Step<Record>, answer: &Answer<Record>) -> Words
    ensures { result ≡ answer_text step.now answer.now }
{
    match (step, answer) {
        (Step::Slot(slot), Answer::Number(content)) => slot_found(*slot, *content),
        (Step::Row(_), Answer::Content(content)) => record_found(content),
        (Step::Epoch, Answer::Number(epoch)) => number_found(*epoch),
        (Step::Announce(_), Answer::Number(epoch)) => epoch_found(*epoch),
        (Step::PidBits(_), Answer::Number(bits)) => bits_found(*bits),
        (Step::RowBits(_), Answer::Number(bits)) => bits_found(*bits),
        (Step::TakePid(_), Answer::Whether(free)) => taking_found(*free),
        (Step::TakeRow(_), Answer::Whether(free)) => taking_found(*free),
        (Step::Retire(_), Answer::Whether(went)) => retiring_found(*went),
        _ => Words::new(),
    }
}

fn number_found(number: u64) -> Words
    ensures { result ≡ codes ": " ++ decimal number }
{
    let mut words = Words::new();
    with_behind(&mut words, b": ", number);
    words
}

fn bits_found(bits: u64) -> Words
    ensures { result ≡ bits_found bits }
{
    if bits == 0 {
        plain(b": none is free")
    } else {
        plain(b": some are free")
    }
}

fn taking_found(free: bool) -> Words
    ensures { result ≡ taking_found free }
{
    if free {
        plain(b": it was free")
    } else {
        plain(b": another actor was faster")
    }
}

fn retiring_found(went: bool) -> Words
    ensures { result ≡ retiring_found went }
{
    if went {
        plain(b": the next one begins")
    } else {
        plain(b": another actor was faster")
    }
}
