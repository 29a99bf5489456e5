//! The steps that change one word of a memory.
ghost use Rattle.tree_words.specs.Changes.{OperationsLeaveWords, StepsChangeOneWord, StoresTellNothing, WordsStandApart};

/// A step that is one atomic operation finds the memory's answer in its word, which is none of a row, and the words with this one
/// changed are those of the memory after the step.
pub fn steps_change_one_word()
    ensures changes { StepsChangeOneWord }
    ensures places { WordsStandApart }
{}

/// The operation that a step is leaves what the step leaves, and is a store only where the step tells nothing.
pub fn operations_are_steps()
    ensures leave { OperationsLeaveWords }
    ensures quiet { StoresTellNothing }
{}
