//! What single steps find and leave: each function does nothing, and its contract computes it.
ghost use Rattle.std.specs.Prelude.{◌≡◌, true, false};
ghost use Rattle.tree_limits.specs.declared.limits.Limits.{Limits};
ghost use Rattle.bw_model.specs.declared.step.Answer.TheVariants.{Number, Whether, Done};
ghost use Rattle.bw_model.specs.declared.step.Step.TheVariants.{Slot, Announce, RowBits, Exchange, TakePid, TakeRow, Enter, Leave, Retire, ReusePids, ReuseRows};
ghost use Rattle.tree_words.specs.Changes.{changed_word, answer_by, word_after};

/// The words of steps of actor 3, as a table of 4,096 PIDs and 16,384 rows is laid out.
pub fn steps_have_words()
    ensures slot { (limits : Limits) → limits.is_large ≡ false → limits.rows ≡ 64 → changed_word limits 3 (Slot 5) ≡ 33285 }
    ensures epoch { (limits : Limits) → changed_word limits 3 (Retire 7) ≡ 0 }
    ensures other { (limits : Limits) → changed_word limits 3 (Announce 0) ≡ 8 }
    ensures own { (limits : Limits) → changed_word limits 3 Leave ≡ 32 }
{}

/// A number that is read is told and stays.
pub fn reads_leave_words()
    ensures told { answer_by (Slot 5) 7 ≡ Number 7 }
    ensures left { word_after (Slot 5) 7 ≡ 7 }
    ensures bits { answer_by (RowBits 1) 12 ≡ Number 12 }
    ensures left_bits { word_after (RowBits 1) 12 ≡ 12 }
{}

/// An exchange wins where it finds the number that it expects, and else leaves what it found; so does a retiring.
pub fn exchanges_win_or_lose()
    ensures won { answer_by (Exchange 5 7 9) 7 ≡ Whether true }
    ensures written { word_after (Exchange 5 7 9) 7 ≡ 9 }
    ensures lost { answer_by (Exchange 5 7 9) 8 ≡ Whether false }
    ensures kept { word_after (Exchange 5 7 9) 8 ≡ 8 }
    ensures late { answer_by (Exchange 5 7 9) 9 ≡ Whether false }
    ensures retired { answer_by (Retire 7) 7 ≡ Whether true }
    ensures next { word_after (Retire 7) 7 ≡ 8 }
    ensures passed { answer_by (Retire 7) 8 ≡ Whether false }
    ensures stays { word_after (Retire 7) 8 ≡ 8 }
{}

/// In word 1 of free PIDs, where PIDs 66 and 67 are free: 66 is taken, is found taken, and is given back.
pub fn free_bits_come_and_go()
    ensures free { answer_by (TakePid 66) 12 ≡ Whether true }
    ensures taken { word_after (TakePid 66) 12 ≡ 8 }
    ensures gone { answer_by (TakePid 66) 8 ≡ Whether false }
    ensures again { word_after (TakePid 66) 8 ≡ 8 }
    ensures reused { word_after (ReusePids 1 4) 8 ≡ 12 }
    ensures twice { word_after (ReuseRows 1 12) 12 ≡ 12 }
    ensures told { answer_by (ReusePids 1 4) 8 ≡ Done }
    ensures last { answer_by (TakeRow 127) 9223372036854775808 ≡ Whether true }
    ensures others { word_after (TakeRow 127) 18446744073709551615 ≡ 9223372036854775807 }
{}

/// An actor announces its epoch, and 0 when it leaves.
pub fn epochs_are_announced()
    ensures inside { word_after (Enter 7) 0 ≡ 7 }
    ensures entered { answer_by (Enter 7) 0 ≡ Done }
    ensures outside { word_after Leave 7 ≡ 0 }
    ensures left { answer_by Leave 7 ≡ Done }
{}
