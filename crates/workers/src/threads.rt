//! Threads over one tree, each with a seat of its own.
ghost use Rattle.std.specs.Prelude.{◌≡◌, ◌<◌, ◌≤◌, ◌+◌, ◌↔◌, [], All, IfErr, IfOk, OnErr, vec_len};
ghost use Rattle.std.specs.Vec.{vec_capacity};
ghost use Rattle.running_tree.specs.Seats.{IsSame};
ghost use Rattle.running_tree.specs.Trees.{AreSeatsOf, IsSeatOf};
ghost use Rattle.workers.specs.Works.{AreDone, AreEachDone, IsWorkDone, with_each_behind};

use running_tree::{BwSeat, Tree};
use std::thread::{Threads, for_each_mut};
use thiserror::Error;
use tree_law::own_lasts;

/// What a thread does over a tree with its seat. Its ghost member `does` may state the outcome, and `work_in_threads` ensures that for each
/// work.
pub trait Work: Drop + Send {
    ghost use Rattle.std.specs.Prelude.{⊤};
    ghost use Rattle.running_tree.specs.Seats.{Seat};

    /// What it comes to: the work and its seat as they were, and as they are.
    ghost does: { Self → Seat → Self → Seat → Type 0 } = { λ _ _ _ _. ⊤ };

    fn work(&mut self, tree: &Tree, seat: &mut BwSeat)
        requires own { IsSeatOf tree.now seat.old }
        ensures same { IsSame seat.old seat.new }
        ensures does { does self.old seat.old self.new seat.new };
}

/// Why no work was begun.
#[derive(Clone, Copy, Debug, PartialEq, Eq, Error)]
pub enum WorksRefusal {
    /// There are more works than seats.
    #[error("there are more works than seats")]
    Seats,
    /// There is no memory for a list of the works.
    #[error("no memory for the works")]
    Memory,
}

/// A refusal to do works, which returns them.
#[derive(Drop)]
pub struct WorksError<W: Work> {
    /// Why.
    pub refusal: WorksRefusal,
    /// The works, none of which was begun.
    pub works: Vec<W>,
}

/// Does all works at once, each in a thread of its own and with a seat of its own; one after another if threads can't be had. It takes the
/// last seats of the list. Works and seats are returned in their order, from a refusal as they were. For order between the seats call
/// `gather`.
pub fn work_in_threads<R: Threads + Sync, W: Work>(
    rt: &R,
    tree: &Tree,
    seats: &mut Vec<BwSeat>,
    works: Vec<W>,
) -> Result<Vec<W>, WorksError<W>>
    requires own { AreSeatsOf tree.now seats.old.items }
    ensures own { AreSeatsOf tree.now seats.new.items }
    ensures seats { vec_len seats.new ≡ vec_len seats.old }
    ensures works { IfOk result (λ done. vec_len done ≡ vec_len works) }
    ensures done { IfOk result (λ done. AreDone W.does seats.old.items seats.new.items works.items done.items) }
    ensures few { IfErr result (λ error. (error.refusal ≡ WorksRefusal.Seats) ↔ (vec_len seats.old < vec_len works)) }
    ensures left { OnErr result (seats.new.items ≡ seats.old.items) }
    ensures back { IfErr result (λ error. error.works.items ≡ works.items) }
{
    if seats.len() < works.len() {
        return Err(refused(WorksRefusal::Seats, works));
    }
    let Ok(room) = Vec::with_capacity(*seats.allocator(), works.len()) else {
        return Err(refused(WorksRefusal::Memory, works));
    };
    let mut works = works;
    let mut jobs = seated(tree, seats, &mut works, room);
    in_threads(rt, tree, jobs.as_mut_slice());
    parted(seats, &mut works, jobs);
    Ok(works)
}

/// A refusal.
fn refused<W: Work>(refusal: WorksRefusal, works: Vec<W>) -> WorksError<W>
    ensures refusal { result.refusal ≡ refusal }
    ensures works { result.works.items ≡ works.items }
{
    WorksError { refusal, works }
}

/// Takes a seat for each work, both from the ends of their lists.
fn seated<W: Work>(
    tree: &Tree,
    seats: &mut Vec<BwSeat>,
    works: &mut Vec<W>,
    room: Vec<(BwSeat, W)>,
) -> Vec<(BwSeat, W)>
    requires own { AreSeatsOf tree.now seats.old.items }
    requires enough { vec_len works.old ≤ vec_len seats.old }
    requires empty { room.items ≡ [] }
    requires space { vec_len works.old ≤ vec_capacity room }
    ensures left { AreSeatsOf tree.now seats.new.items }
    ensures own { All (λ job. IsSeatOf tree.now job.0) result.items }
    ensures none { works.new.items ≡ [] }
    ensures seats { with_each_behind (λ job. job.0) seats.new.items result.items ≡ seats.old.items }
    ensures works { with_each_behind (λ job. job.1) works.new.items result.items ≡ works.old.items }
    ensures count { vec_len seats.new + vec_len result ≡ vec_len seats.old }
    ensures all { vec_len result ≡ vec_len works.old }
    ensures seats_room { vec_capacity seats.new ≡ vec_capacity seats.old }
    ensures works_room { vec_capacity works.new ≡ vec_capacity works.old }
{
    let _ = tree;
    let mut jobs = room;
    while let Some(work) = works.pop() {
        let Some(seat) = seats.pop() else {
            unreachable!()
        };
        jobs.push_reserved((seat, work));
    }
    jobs
}

/// Does each work in a thread of its own.
fn in_threads<R: Threads + Sync, W: Work>(rt: &R, tree: &Tree, jobs: &mut [(BwSeat, W)])
    requires own { All (λ job. IsSeatOf tree.now job.0) jobs.old }
    ensures { AreEachDone W.does jobs.old jobs.new }
{
    let work = |_: usize, job: &mut (BwSeat, W)|
        requires { IsSeatOf tree.now job.now.0 }
        ensures { IsWorkDone W.does job.entry.now job.exit.now }
    {
        let (seat, work) = job;
        work_with(tree, seat, work);
    };
    for_each_mut(rt, jobs, jobs.len().max(1), &work);
}

/// Does a work with a seat, which goes on from what it had seen.
fn work_with<W: Work>(tree: &Tree, seat: &mut BwSeat, work: &mut W)
    requires own { IsSeatOf tree.now seat.old }
    ensures { IsWorkDone W.does (seat.old, work.old) (seat.new, work.new) }
{
    own_lasts();
    let before = tree.note(seat);
    work.work(tree, seat);
    tree.heed(seat, before);
}

/// Gives the seats back, and the works, both to the ends of their lists.
fn parted<W: Work>(seats: &mut Vec<BwSeat>, works: &mut Vec<W>, jobs: Vec<(BwSeat, W)>)
    requires seats_room { vec_len seats.old + vec_len jobs ≤ vec_capacity seats.old }
    requires works_room { vec_len works.old + vec_len jobs ≤ vec_capacity works.old }
    ensures seats { seats.new.items ≡ with_each_behind (λ job. job.0) seats.old.items jobs.items }
    ensures works { works.new.items ≡ with_each_behind (λ job. job.1) works.old.items jobs.items }
    ensures count { vec_len seats.new ≡ vec_len seats.old + vec_len jobs }
    ensures all { vec_len works.new ≡ vec_len works.old + vec_len jobs }
{
    let mut jobs = jobs;
    while let Some((seat, work)) = jobs.pop() {
        seats.push_reserved(seat);
        works.push_reserved(work);
    }
}
