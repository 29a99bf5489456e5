//! The step that a round asks for.

/// What a round reads next. It is small, while a step over records has room for one.
#[derive(Clone, Copy)]
pub enum Asked {
    /// The slot of a page.
    Slot(u32),
    /// A row.
    Row(u32),
}
