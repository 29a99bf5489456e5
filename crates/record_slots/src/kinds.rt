//! The numbers of the kinds of records, in the lowest byte of a row's first word.

/// A page with its items.
pub const BASE: u8 = 1;
/// A key of a leaf has a value.
pub const PUT: u8 = 2;
/// A key of a leaf is absent.
pub const DELETE: u8 = 3;
/// Items went to a new page to the right.
pub const SPLIT: u8 = 4;
/// An index page has a term.
pub const TERM: u8 = 5;
/// A term is held.
pub const HOLD: u8 = 6;
/// The page is removed.
pub const REMOVE: u8 = 7;
/// The range and the items of a removed page came to this one.
pub const MERGE: u8 = 8;
/// An index page has lost a term.
pub const UNTERM: u8 = 9;
