//! Workers in threads of their own, none of which runs a job before all threads stand.
ghost use Rattle.std.specs.Prelude.{◌≡◌, ◌≤◌, [], All, None, vec_len};
ghost use Rattle.std.specs.Vec.{vec_capacity};
ghost use Rattle.running_tree.specs.Seats.{unfinished_command};
ghost use Rattle.running_tree.specs.Trees.{IsSeatOf};
ghost use Rattle.workers.specs.Begun.{AreBegun, HasJoined, HaveComeBack, HaveJoined, IsBack, IsBegun, IsToldBy};
ghost use Rattle.workers.specs.Working.{HasRoom};

use crate::gate::Gate;
use crate::task::Task;
use crate::worker::Worker;
use core::thread::Stack;
use crossbeam_channel::Receiver;
use running_tree::Tree;
use std::alloc::Allocator;
use std::snapshot::Snapshot;
use std::sync::{OnceLock, OnceToken, Wait};
use std::thread::{Promise, PromisedHandle, Scope, Threads, scope, scope_env};

/// What all workers share.
pub(crate) struct Shared<'r, R, G, A: Allocator> {
    pub(crate) rt: &'r R,
    pub(crate) tree: &'r Tree<A>,
    pub(crate) gate: &'r G,
    pub(crate) tasks: Receiver<Task<A>, A>,
    pub(crate) limit: usize,
    /// Whether jobs may be run. It is written once: when all threads stand, or one of them can't be had.
    pub(crate) may_run: OnceLock<bool>,
}

impl<R, G, A: Allocator> Drop for Shared<'_, R, G, A> {
    fn drop(self) {
        let Shared {
            rt: _,
            tree: _,
            gate: _,
            tasks: _,
            limit: _,
            may_run: _,
        } = self;
    }
}

/// A worker that is back, and what it was told.
pub(crate) struct Back<'a, A: Allocator> {
    worker: Worker<A>,
    told: OnceToken<'a, bool>,
}

impl<A: Allocator> Drop for Back<'_, A> {
    fn drop(self) {
        let Back { worker: _, told: _ } = self;
    }
}

impl<'a, A: Allocator> Back<'a, A> {
    /// The worker, which was told the same.
    fn agreed(self, told: &OnceToken<'a, bool>) -> Worker<A>
        requires same { self.told.of ≡ told.now.of }
        ensures worker { result ≡ self.entry.worker }
        ensures value { self.entry.told.value ≡ told.now.value }
    {
        let Back { worker, told: same } = self;
        same.agrees(told);
        worker
    }
}

/// What comes back of a worker.
#[derive(Drop)]
pub(crate) struct Returns<A: Allocator> {
    place: usize,
    limit: usize,
    worker: Snapshot<Worker<A>>,
    may_run: Snapshot<OnceLock<bool>>,
}

impl<'a, A: Allocator> Promise<Back<'a, A>> for Returns<A> {
    ghost kept_by = { λ promise back. IsBack promise.limit promise.may_run.value.id promise.place promise.worker.value back };
}

/// A worker in a thread of its own, or back already where none can be had.
#[derive(Drop)]
pub(crate) enum Begun<'a, A: Allocator> {
    Standing(PromisedHandle<Back<'a, A>, Returns<A>>),
    Back(Back<'a, A>),
}

/// Waits until it is known whether jobs may be run.
fn told<'a, R: Wait>(rt: &R, may_run: &'a OnceLock<bool>) -> OnceToken<'a, bool>
    ensures { result.of ≡ may_run.now.id }
{
    for _ in rt.forever() {
        may_run.wait(rt);
        if let Some(told) = may_run.witness() {
            return told;
        }
    }
    unreachable!()
}

/// Lets a worker run jobs, once it is known that it may; else it comes back as it is.
fn work<'a, R: Wait, G: Gate, A: Allocator>(
    shared: &'a Shared<'_, R, G, A>,
    place: usize,
    worker: Worker<A>,
) -> Back<'a, A>
    requires own { IsSeatOf shared.now.tree.now worker.seat }
    requires idle { unfinished_command worker.seat ≡ None }
    requires room { HasRoom shared.now.limit worker.done }
    ensures { IsBack shared.now.limit shared.now.may_run.id place worker result }
{
    let told = told(shared.rt, &shared.may_run);
    let mut worker = worker;
    if *shared.may_run.value(&told) {
        worker.work(
            shared.rt,
            shared.tree,
            place,
            shared.limit,
            &shared.tasks,
            shared.gate,
        );
    }
    Back { worker, told }
}

/// Makes a worker's thread. Where it can't be had no worker may run jobs.
fn begin<
    's,
    E,
    R: Threads + Wait + Sync + 's,
    G: Gate + Sync + 's,
    A: Allocator + Send + Sync + 's,
>(
    scope: &Scope<'s, E>,
    shared: &'s Shared<'_, R, G, A>,
    place: usize,
    worker: Worker<A>,
) -> Begun<'s, A>
    requires own { IsSeatOf shared.now.tree.now worker.seat }
    requires idle { unfinished_command worker.seat ≡ None }
    requires room { HasRoom shared.now.limit worker.done }
    ensures { IsBegun shared.now.limit shared.now.may_run.id place worker result }
{
    let promise = Returns {
        place,
        limit: shared.limit,
        worker: Snapshot::of(&worker),
        may_run: Snapshot::of(&shared.may_run),
    };
    let run = move || -> Back<'_, A>
        requires own { IsSeatOf shared.now.tree.now worker.seat }
        requires idle { unfinished_command worker.seat ≡ None }
        requires room { HasRoom shared.now.limit worker.done }
        ensures { IsBack shared.entry.now.limit shared.entry.now.may_run.id place worker result }
    { work(shared, place, worker) };
    match stack(shared.gate.stack_size(place)).spawn_scoped_with(scope, promise, run) {
        Ok(handle) => Begun::Standing(handle),
        Err(refused) => {
            // the worker is in the closure, which finds that it may not run jobs
            shared.may_run.init(shared.rt, || false);
            Begun::Back((refused.value)())
        }
    }
}

/// A stack of so many bytes, or of as many as the system gives.
fn stack(size: Option<usize>) -> Stack {
    match size {
        Some(size) => Stack::new().stack_size(size),
        None => Stack::new(),
    }
}

/// Makes the threads of all workers.
fn begin_all<
    's,
    E,
    R: Threads + Wait + Sync + 's,
    G: Gate + Sync + 's,
    A: Allocator + Send + Sync + 's,
>(
    scope: &Scope<'s, E>,
    shared: &'s Shared<'_, R, G, A>,
    workers: Vec<Worker<A>, A>,
    begun: Vec<Begun<'s, A>, A>,
) -> Vec<Begun<'s, A>, A>
    requires own { All (λ worker. IsSeatOf shared.now.tree.now worker.seat) workers.items }
    requires idle { All (λ worker. unfinished_command worker.seat ≡ None) workers.items }
    requires room { All (λ worker. HasRoom shared.now.limit worker.done) workers.items }
    requires empty { begun.items ≡ [] }
    requires space { vec_len workers ≤ vec_capacity begun }
    ensures { AreBegun shared.now.limit shared.now.may_run.id workers.items result.items }
{
    let mut begun = begun;
    for worker in workers {
        let place = begun.len();
        begun.push_reserved(begin(scope, shared, place, worker));
    }
    begun
}

/// The worker of a thread, once that has ended.
fn join<'a, R: Threads, A: Allocator>(
    rt: &R,
    begun: Begun<'a, A>,
    told: &OnceToken<'a, bool>,
) -> Worker<A>
    requires { IsToldBy told.now.of begun }
    ensures { HasJoined told.now.value begun.entry result }
{
    let back = match begun {
        Begun::Standing(handle) => handle.join(rt),
        Begun::Back(back) => back,
    };
    back.agreed(told)
}

/// The workers of all threads, once these have ended.
fn join_all<'a, R: Threads, A: Allocator>(
    rt: &R,
    begun: Vec<Begun<'a, A>, A>,
    told: &OnceToken<'a, bool>,
    workers: Vec<Worker<A>, A>,
) -> Vec<Worker<A>, A>
    requires told { All (IsToldBy told.now.of) begun.items }
    requires empty { workers.items ≡ [] }
    requires space { vec_len begun ≤ vec_capacity workers }
    ensures { HaveJoined told.now.value begun.entry.items result.items }
{
    let mut workers = workers;
    for thread in begun {
        workers.push_reserved(join(rt, thread, told));
    }
    workers
}

/// Begins all workers, tells them whether they may run jobs, and waits until all are back; says what they were told.
fn in_scope<
    's,
    E,
    R: Threads + Wait + Sync + 's,
    G: Gate + Sync + 's,
    A: Allocator + Send + Sync + 's,
>(
    scope: &Scope<'s, E>,
    alloc: A,
    shared: &'s Shared<'_, R, G, A>,
    workers: Vec<Worker<A>, A>,
    back: Vec<Worker<A>, A>,
) -> (bool, Vec<Worker<A>, A>)
    requires own { All (λ worker. IsSeatOf shared.now.tree.now worker.seat) workers.items }
    requires idle { All (λ worker. unfinished_command worker.seat ≡ None) workers.items }
    requires room { All (λ worker. HasRoom shared.now.limit worker.done) workers.items }
    requires empty { back.items ≡ [] }
    requires space { vec_len workers ≤ vec_capacity back }
    ensures { HaveComeBack result.0 shared.now.limit workers.items result.1.items }
{
    let Ok(begun) = Vec::with_capacity(alloc, workers.len()) else {
        return (false, workers);
    };
    let begun = begin_all(scope, shared, workers, begun);
    let told = shared.may_run.init(shared.rt, || true);
    let back = join_all(shared.rt, begun, &told, back);
    (*shared.may_run.value(&told), back)
}

/// Lets all workers run jobs at once, each in a thread of its own, if memory and all threads can be had; says whether they were let.
pub(crate) fn in_threads<R: Threads + Wait + Sync, G: Gate + Sync, A: Allocator + Send + Sync>(
    alloc: A,
    shared: &Shared<'_, R, G, A>,
    workers: Vec<Worker<A>, A>,
    back: Vec<Worker<A>, A>,
) -> (bool, Vec<Worker<A>, A>)
    requires own { All (λ worker. IsSeatOf shared.now.tree.now worker.seat) workers.items }
    requires idle { All (λ worker. unfinished_command worker.seat ≡ None) workers.items }
    requires room { All (λ worker. HasRoom shared.now.limit worker.done) workers.items }
    requires empty { back.items ≡ [] }
    requires space { vec_len workers ≤ vec_capacity back }
    ensures { HaveComeBack result.0 shared.now.limit workers.items result.1.items }
{
    scope(
        scope_env(),
        shared.rt,
        |scope| -> (bool, Vec<Worker<A>, A>)
            requires own { All (λ worker. IsSeatOf shared.now.tree.now worker.seat) workers.items }
            requires idle { All (λ worker. unfinished_command worker.seat ≡ None) workers.items }
            requires room { All (λ worker. HasRoom shared.now.limit worker.done) workers.items }
            requires empty { back.items ≡ [] }
            requires space { vec_len workers ≤ vec_capacity back }
            ensures { HaveComeBack result.0 shared.entry.now.limit workers.items result.1.items }
        { in_scope(scope, alloc, shared, workers, back) },
    )
}
