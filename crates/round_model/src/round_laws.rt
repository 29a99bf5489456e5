//! Laws of rounds: each function does nothing, and its contract is proved of all of them.
ghost use Rattle.std.specs.Prelude.{◌≡◌, ◌≤◌, ◌+◌, ℕ, List, Option, None};
ghost use Rattle.tree_limits.specs.declared.limits.Limits.{Limits};
ghost use Rattle.bw_model.specs.declared.step.Answer.{Answer};
ghost use Rattle.traces.specs.discipline.Discipline.{MayHold, MayMerge, MayRemove, MayUnterm, WasStanding};
ghost use Rattle.traces.specs.discipline.Fitting.{Fits};
ghost use Rattle.traces.specs.discipline.Knowledge.{Knowledge};
ghost use Rattle.traces.specs.discipline.Recalled.{Recalled, few_reads};
ghost use Rattle.round_model.specs.ReadRounds as reader;
ghost use Rattle.round_model.specs.WriteResponses as response;
ghost use Rattle.round_model.specs.Rounds.{Follows, Responds};
ghost use Rattle.round_model.specs.WriteRounds as writer;
ghost use Rattle.round_model.specs.Walks.{with_walk};
ghost use Rattle.round_model.specs.Courses.{Seek};
ghost use Rattle.deltas.specs.declared.record.Hold.{Hold};
ghost use Rattle.deltas.specs.declared.record.Merge.{Merge};
ghost use Rattle.deltas.specs.declared.record.Record.{Record};
ghost use Rattle.deltas.specs.declared.record.Record.TheVariants as kind;
ghost use Rattle.deltas.specs.declared.record.Remove.{Remove};
ghost use Rattle.deltas.specs.declared.record.Unterm.{Unterm};
ghost use Rattle.structure_changes.specs.Holds.{IsHoldPlan};
ghost use Rattle.structure_changes.specs.Removals.{IsRemovePlan};
ghost use Rattle.structure_changes.specs.Versions.{Version};
ghost use Rattle.round_model.specs.ReadEnds.{ReadEnd};
ghost use Rattle.round_model.specs.WriteEnds.{WriteEnd};

use structure_changes::plans_are_due;

/// A round takes few reads, and those that are reserved, or kept for a round after it.
pub fn rounds_are_short()
    ensures read { (reserve kept : ℕ) (k : Knowledge) (r : Recalled) (round : reader.ReadRound)
        → reader.Shows round k r
        → reader.read_round_left reserve kept r round ≤ few_reads round.limits + with_walk round.limits reserve + reader.read_round_kept kept round.goal }
    ensures write { (reserve kept : ℕ) (k : Knowledge) (r : Recalled) (round : writer.WriteRound)
        → writer.Shows round k r
        → writer.write_round_left reserve kept r round ≤ few_reads round.limits + with_walk round.limits reserve + writer.write_round_kept kept round.goal }
{}

/// What a reader's round makes of an answer that fits what is known leaves it what it shows, and spends as it may.
pub fn read_rounds_follow()
    ensures follows { (old new : reader.ReadRound) (told : Answer Record) (result : Option ReadEnd) (k : Knowledge) (r : Recalled)
        → reader.Shows old k r
        → Fits old.limits k (reader.wanted_step old) told
        → Responds reader.reading old told new result
        → Follows reader.reading k r old told new result }
    ensures spends { (reserve kept : ℕ) (old new : reader.ReadRound) (told : Answer Record) (result : Option ReadEnd) (k : Knowledge) (r : Recalled)
        → reader.Shows old k r
        → Fits old.limits k (reader.wanted_step old) told
        → Responds reader.reading old told new result
        → reader.Spends reserve kept r old told new result }
{}

/// So does what a writer's round makes of one.
pub fn write_rounds_follow()
    ensures follows { (old new : writer.WriteRound) (told : Answer Record) (result : Option WriteEnd) (k : Knowledge) (r : Recalled)
        → writer.Shows old k r
        → Fits old.limits k (writer.wanted_step old) told
        → Responds response.writing old told new result
        → Follows response.writing k r old told new result }
    ensures spends { (reserve kept : ℕ) (old new : writer.WriteRound) (told : Answer Record) (result : Option WriteEnd) (k : Knowledge) (r : Recalled)
        → writer.Shows old k r
        → Fits old.limits k (writer.wanted_step old) told
        → Responds response.writing old told new result
        → writer.Spends reserve kept r old told new result }
{}

/// A round to the left of a removed page that goes on doesn't become one to the leaf of its key.
pub fn left_rounds_stay()
    ensures { (old new : writer.WriteRound) (told : Answer Record) → Responds response.writing old told new None → new.goal ≡ Seek → old.goal ≡ Seek }
{}

/// The leaf at which a reader's round ends was read while it stood, also the one that is removed.
pub fn read_leaves_stood()
    ensures leaf { (limits : Limits) (k : Knowledge) (r : Recalled) (key : List ℕ) (leaf : Version)
        → reader.IsAliveLeaf limits k r key leaf
        → WasStanding k leaf.head leaf.chain }
    ensures beside { (limits : Limits) (k : Knowledge) (r : Recalled) (key : List ℕ) (left removed : Version)
        → reader.IsBesideLeaf limits k r key left removed
        → WasStanding k removed.head removed.chain }
{}

/// The changes of a removal may be linked: the plans that a round ends with, and those that are given for a page where it ends and
/// the one above, which was read before it.
pub fn removals_are_due()
    ensures hold { (limits : Limits) (k : Knowledge) (r : Recalled) (parent page : Version) (hold : Hold)
        → writer.IsUpper limits k r page parent
        → IsHoldPlan parent page hold
        → MayHold parent.head parent.chain (kind.Hold hold) }
    ensures remove { (limits : Limits) (k : Knowledge) (r : Recalled) (parent page : Version) (remove : Remove)
        → writer.IsUpper limits k r page parent
        → IsRemovePlan parent page remove
        → MayRemove k page.pid page.head page.chain (kind.Remove remove) }
    ensures merge { (round : writer.WriteRound) (k : Knowledge) (r : Recalled) (left removed : Version) (merge : Merge)
        → writer.IsMergeEnd round k r left removed merge
        → MayMerge k left.head left.chain (kind.Merge merge) }
    ensures unterm { (round : writer.WriteRound) (k : Knowledge) (r : Recalled) (parent left removed : Version) (unterm : Unterm)
        → writer.IsUntermEnd round k r parent left removed unterm
        → MayUnterm k parent.pid parent.head parent.chain (kind.Unterm unterm) }
{
    plans_are_due();
}
