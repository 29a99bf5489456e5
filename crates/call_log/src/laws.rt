//! Laws of logs. Each function does nothing, and its contract is proved of all logs, and of all moments of a log's table.
ghost use Rattle.call_log.specs.Laws.{AuthorsAreApart, AuthorsAreKnown, LogsAgree, StaysOut};

use crate::rule::Course;

/// All who have seen the log have seen one log: one a longer part of it than the other.
pub fn logs_agree<S, P: Course<S>>()
    ensures { LogsAgree P.ends }
{}

/// Whoever has an author has it alone, and knows all that was written as it: in any log that anybody has seen there is a part of that, and no more.
pub fn authors_are_known<S, P: Course<S>>()
    ensures apart { AuthorsAreApart P.ends }
    ensures known { AuthorsAreKnown P.ends }
{}

/// A slot that an author has out stays out, and as it was, until that author puts it back or closes the table.
pub fn what_is_out_stays<S, P: Course<S>>()
    ensures { StaysOut P.ends }
{}
