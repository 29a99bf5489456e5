//! What is told when jobs begin and end.

/// Is called when a job begins and ends, in the thread that runs it. It may hold the thread up. It returns how large the threads' stacks
/// are to be.
pub trait Gate {
    /// Before the job's first command.
    fn before(&self, job: u32);

    /// Once the job's result is in its worker's list.
    fn after(&self, job: u32);

    /// How many bytes the stack of a seat's thread is to have, asked before the thread is made; as many as the system gives where it says
    /// none. More than can be had refuse the thread: so a test shows what that comes to.
    fn stack_size(&self, _seat: usize) -> Option<usize> {
        None
    }
}

/// A gate that does nothing.
#[derive(Clone, Copy, Debug)]
pub struct Ungated;

impl Gate for Ungated {
    fn before(&self, _job: u32) {}

    fn after(&self, _job: u32) {}
}
