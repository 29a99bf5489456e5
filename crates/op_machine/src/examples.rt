//! Worked steps: each function does nothing, and its contract says what the machine does next.
ghost use Rattle.std.specs.Prelude.{◌≡◌};
ghost use Rattle.bw_model.specs.declared.step.Answer.TheVariants.{Content, Number};
ghost use Rattle.linearization.specs.Examples.{new_leaf};
ghost use Rattle.op_machine.specs.machine.GoesLeft.{GoesLeft, first_read, first_write};
ghost use Rattle.op_machine.specs.machine.Meeting.{before_base, before_slot, inserting, looking, reading_down, reading_left, writing_down, writing_left};
ghost use Rattle.op_machine.specs.machine.RoundSteps.{StepsInRound};
ghost use Rattle.op_machine.specs.machine.States.{State, Read, Write};

/// An insert that meets the removed leaf goes to the left of it, and so does a lookup; neither begins at the root for its key once more.
pub fn removed_leaf_turns_left()
    ensures insert { (new : State) → GoesLeft inserting (Write (writing_down before_base)) (Content new_leaf) new → new ≡ Write writing_left }
    ensures lookup { (new : State) → GoesLeft looking (Read (reading_down before_base)) (Content new_leaf) new → new ≡ Read reading_left }
    ensures anew { ¬ GoesLeft inserting (Write (writing_down before_base)) (Content new_leaf) (Write (first_write inserting)) }
    ensures looked_anew { ¬ GoesLeft looking (Read (reading_down before_base)) (Content new_leaf) (Read (first_read looking)) }
{}

/// Where the leaf's slot is read as 0, the insert begins at the root for its key once more.
pub fn empty_slot_begins_anew()
    ensures { (new : State) → StepsInRound inserting (Write (writing_down before_slot)) (Number 0) new → new ≡ Write (first_write inserting) }
{}
