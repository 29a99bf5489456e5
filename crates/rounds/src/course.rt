//! Where a writer's round goes, over places for two pages.
ghost use Rattle.std.specs.Prelude.{◌≡◌, None, Some, IfOk};
ghost use Rattle.std.specs.Bool.{Decides};
ghost use Rattle.round_model.specs.Courses as goal;
ghost use Rattle.round_model.specs.Courses.{down_to, removed_of};
ghost use Rattle.round_model.specs.WriteRounds.{SeeksLeaf};
ghost use Rattle.rounds.specs.Courses.{write_goal, kept_if};
ghost use Rattle.structure_changes.specs.Versions.{Version};

use crate::Descent;
use row_search::Rows;
use std::alloc::{AllocError, Allocator, Global};
use std::marker::Model;
use structure_changes::PageInHand;

/// What a writer's round reads pages for.
#[derive(Clone, Copy)]
pub(crate) enum WriteGoalKind {
    /// For the leaf of the key.
    Seek,
    /// For the page to the left of this removed one, which begins at the key.
    Left(u32),
    /// For the removed page, which is to come into the page in the left one's place.
    Merge,
    /// For the removed page, whose term the page in the parent's place is to lose, as the one in the left one's place shows.
    Unterm,
}

/// Where a writer's round goes, with a place for the parent of the pages that are read, and one for the page to whose right the round
/// has gone. Where such a page isn't kept, one from before stands in its place.
pub(crate) struct Course<R: Rows, A: Allocator = Global> {
    goal: WriteGoalKind,
    has_parent: bool,
    has_left: bool,
    parent: PageInHand<R, A>,
    left: PageInHand<R, A>,
}

impl<R: Rows, A: Allocator> Drop for Course<R, A> {
    fn drop(self) {
        let Course {
            goal: _,
            has_parent: _,
            has_left: _,
            parent: _,
            left: _,
        } = self;
    }
}

impl<R: Rows, A: Allocator> Model for Course<R, A> {
    ghost use Rattle.rounds.specs.Courses.{PlacedCourse, write_goal, kept_if};

    ghost Value = { PlacedCourse };

    ghost view = { λ c. record {
      course = record {
        goal = write_goal c.goal c.parent c.left;
        parent = kept_if c.has_parent c.parent;
        left = kept_if c.has_left c.left;
      };
      parent = c.parent;
      left = c.left;
    } };
}

impl<R: Rows, A: Allocator + Copy> Course<R, A> {
    /// Down to the leaf of the key. Takes the memory for two pages, 416 bytes, and is refused for want of it alone. No later
    /// call takes memory.
    pub(crate) fn new(alloc: A) -> Result<Course<R, A>, AllocError>
        ensures { IfOk result (λ course. course.course ≡ record { goal = down_to None; parent = None; left = None }) }
    {
        Ok(Course {
            goal: WriteGoalKind::Seek,
            has_parent: false,
            has_left: false,
            parent: PageInHand::<R, A>::new(alloc)?,
            left: PageInHand::<R, A>::new(alloc)?,
        })
    }
}

impl<R: Rows, A: Allocator> Course<R, A> {
    /// Goes down to the page to the left of this removed page, or to the leaf of the key, and keeps no page.
    pub(crate) fn restart(&mut self, removed: Option<u32>)
        ensures { self.new ≡ record self.old { course = record { goal = down_to removed; parent = None; left = None } } }
    {
        self.goal = down(removed);
        self.has_parent = false;
        self.has_left = false;
    }

    /// What pages are read for.
    pub(crate) fn goal(&self) -> WriteGoalKind
        ensures { write_goal result self.now.parent self.now.left ≡ self.now.course.goal }
    {
        self.goal
    }

    /// Whether a leaf is sought.
    pub(crate) fn seeks_leaf(&self) -> bool
        ensures { Decides result (SeeksLeaf self.now.course.goal) }
    {
        matches!(self.goal, WriteGoalKind::Seek | WriteGoalKind::Left(_))
    }

    /// The removed page to whose left a leaf is sought.
    pub(crate) fn removed(&self) -> Option<u32>
        ensures { result ≡ removed_of self.now.course.goal }
    {
        match self.goal {
            WriteGoalKind::Left(pid) => Some(pid),
            WriteGoalKind::Seek | WriteGoalKind::Merge | WriteGoalKind::Unterm => None,
        }
    }

    /// The page that stands in the parent's place.
    pub(crate) fn parent(&self) -> &PageInHand<R, A>
        ensures { result.now ≡ self.now.parent }
    {
        &self.parent
    }

    /// The page that stands in the left one's place.
    pub(crate) fn left(&self) -> &PageInHand<R, A>
        ensures { result.now ≡ self.now.left }
    {
        &self.left
    }

    /// Whether the page in the parent's place is kept: the parent of the pages that are read.
    pub(crate) fn has_parent(&self) -> bool
        ensures { kept_if result self.now.parent ≡ self.now.course.parent }
    {
        self.has_parent
    }

    /// Whether the page in the left one's place is kept: the one to whose right the round has gone.
    pub(crate) fn has_left(&self) -> bool
        ensures { kept_if result self.now.left ≡ self.now.course.left }
    {
        self.has_left
    }

    /// Keeps the page in hand, to whose right the round goes.
    pub(crate) fn keep_left(&mut self, descent: &mut Descent<R, A>)
        requires seeks { SeeksLeaf self.old.course.goal }
        ensures kept { self.new ≡ record self.old { course = record self.old.course { left = Some descent.old.page }; left = descent.old.page } }
        ensures way { descent.new.way ≡ descent.old.way }
    {
        self.has_left = true;
        descent.swap_page(&mut self.left);
    }

    /// Keeps the page in hand as the parent of the pages that are read from now on.
    pub(crate) fn go_below(&mut self, descent: &mut Descent<R, A>)
        requires seeks { SeeksLeaf self.old.course.goal }
        ensures kept { self.new ≡ record self.old { course = record self.old.course { parent = Some descent.old.page; left = None }; parent = descent.old.page } }
        ensures way { descent.new.way ≡ descent.old.way }
    {
        self.has_parent = true;
        self.has_left = false;
        descent.swap_page(&mut self.parent);
    }

    /// Goes to the removed page, which is to come into the page in hand.
    pub(crate) fn go_to_merge(&mut self, descent: &mut Descent<R, A>)
        ensures kept { self.new ≡ record self.old { course = record { goal = goal.Merge descent.old.page; parent = None; left = None }; left = descent.old.page } }
        ensures way { descent.new.way ≡ descent.old.way }
    {
        self.restart(None);
        self.goal = WriteGoalKind::Merge;
        descent.swap_page(&mut self.left);
    }

    /// Goes to the removed page, whose term the parent is to lose, as the page in hand shows.
    pub(crate) fn go_to_unterm(&mut self, descent: &mut Descent<R, A>)
        ensures kept { self.new ≡ record self.old { course = record { goal = goal.Unterm self.old.parent descent.old.page; parent = None; left = None }; left = descent.old.page } }
        ensures way { descent.new.way ≡ descent.old.way }
    {
        self.restart(None);
        self.goal = WriteGoalKind::Unterm;
        descent.swap_page(&mut self.left);
    }
}

/// The aim of a round down to the page to the left of this removed page, or to the leaf of the key.
fn down(removed: Option<u32>) -> WriteGoalKind
    ensures { (parent left : Version) → write_goal result parent left ≡ down_to removed }
{
    match removed {
        None => WriteGoalKind::Seek,
        Some(pid) => WriteGoalKind::Left(pid),
    }
}
