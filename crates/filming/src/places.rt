//! Where in the order of updates an operation stands that is done, and made none.
ghost use Rattle.std.specs.Prelude.{◌≡◌, length, option_copied};
ghost use Rattle.bw_model.specs.Bytes.{is_in_range};
ghost use Rattle.byte_streams.specs.Output.{Prints};
ghost use Rattle.filming.specs.Places.{are_pairs, found_text, has_all, has_its_pair, has_no_other, has_told, has_value, is_above, is_told, is_told_of};
ghost use Rattle.filming.specs.Places.{is_value, place_below};
ghost use Rattle.filming.specs.Places.{place_text, value_told};

use crate::maps::has_key;
use bw_model::{Command, Key, Reply, Update, Value, logged_value};
use bw_shell::show_number;
use byte_streams::{Output, outputs_add_up};
use step_core::Event;

/// What a reply without an update tells of its key's value.
fn value_told(reply: &Reply) -> Option<Option<Value>>
    ensures { result ≡ value_told reply.now }
{
    match reply {
        Reply::Value(value) | Reply::Exists(value) | Reply::Differs(value) => {
            Some(Some(value.copied()))
        }
        Reply::None | Reply::Absent => Some(None),
        _ => None,
    }
}

fn is_value(one: Option<&Value>, other: Option<&Value>) -> bool
    ensures { result ≡ is_value (option_copied one.entry) (option_copied other.entry) }
{
    match (one, other) {
        (None, None) => true,
        (Some(one), Some(other)) => one.as_slice() == other.as_slice(),
        _ => false,
    }
}

/// Whether the map after these updates has for the key the value that is told, if one is.
fn has_told(log: &[Update], key: &Key, told: &Option<Option<Value>>) -> bool
    ensures { result ≡ has_told log.now key.now told.now }
{
    match told {
        None => false,
        Some(value) => is_value(logged_value(log, key), value.as_ref()),
    }
}

fn is_in_range(low: &Key, high: Option<&Key>, key: &Key) -> bool
    ensures { result ≡ is_in_range low.now (option_copied high.entry) key.now }
{
    !key.cmp(low).is_lt() && high.is_none_or(|bound| key.cmp(bound).is_lt())
}

fn is_above(below: Option<&Key>, key: &Key) -> bool
    ensures { result ≡ is_above (option_copied below.entry) key.now }
{
    below.is_none_or(|bound| bound.cmp(key).is_lt())
}

/// Whether the key is one of which a page tells, before the next page of this key.
fn is_told_of(command: &Command, next: Option<&Key>, key: &Key) -> bool
    ensures { result ≡ is_told_of command.now (option_copied next.entry) key.now }
{
    match command {
        Command::Page(from) => is_in_range(from, next, key),
        Command::Back(upto) => is_above(next, key) && !upto.cmp(key).is_lt(),
        _ => false,
    }
}

fn has_value(log: &[Update], pair: &(Key, Value)) -> bool
    ensures { result ≡ has_value log.now pair.now }
{
    is_value(logged_value(log, &pair.0), Some(&pair.1))
}

/// Whether a key has a pair, if a page tells of it and it has a value.
fn has_its_pair(
    log: &[Update],
    command: &Command,
    next: Option<&Key>,
    pairs: &[(Key, Value)],
    key: &Key,
) -> bool
    ensures { result ≡ has_its_pair log.now command.now (option_copied next.entry) pairs.now key.now }
{
    !is_told_of(command, next, key)
        || has_key(pairs, key.as_slice())
        || is_value(logged_value(log, key), None)
}

/// Whether the map after these updates has all of these pairs.
fn has_all(log: &[Update], pairs: &[(Key, Value)]) -> bool
    ensures { result ≡ has_all log.now pairs.now }
{
    pairs.iter().all(|pair| has_value(log, pair))
}

/// Whether it has no other one among the keys of which a page tells.
fn has_no_other(
    log: &[Update],
    command: &Command,
    next: Option<&Key>,
    pairs: &[(Key, Value)],
) -> bool
    ensures { result ≡ has_no_other log.now command.now (option_copied next.entry) pairs.now }
{
    log.iter().all(|update| has_its_pair(log, command, next, pairs, update.key()))
}

/// Whether the map after these updates has exactly these pairs among the keys of which a page tells.
fn are_pairs(log: &[Update], command: &Command, next: Option<&Key>, pairs: &[(Key, Value)]) -> bool
    ensures { result ≡ are_pairs log.now command.now (option_copied next.entry) pairs.now }
{
    has_all(log, pairs) && has_no_other(log, command, next, pairs)
}

/// Whether the map after these updates is as a reply tells it.
fn is_told(log: &[Update], command: &Command, reply: &Reply) -> bool
    ensures { result ≡ is_told log.now command.now reply.now }
{
    match reply {
        Reply::Page { items, next } => are_pairs(log, command, next.as_ref(), items.as_slice()),
        Reply::BackPage { items, next } => are_pairs(log, command, next.as_ref(), items.as_slice()),
        _ => has_told(log, command.key(), &value_told(reply)),
    }
}

/// The latest place in the order at which the map was as a reply tells it, if there is one.
fn place_of(log: &[Update], command: &Command, reply: &Reply) -> Option<u64>
    ensures { result ≡ place_below log.now command.now reply.now (length log.now) }
{
    let many = log.len();
    for back in 0..many {
        let place = many - back;
        if is_told(&log[..place], command, reply) {
            return Some(place as u64);
        }
    }
    if is_told(&[], command, reply) {
        Some(0)
    } else {
        None
    }
}

fn show_found<O: Output>(out: &mut O, log: &[Update], place: Option<u64>)
    ensures { Prints (O.state out.old) (O.state out.new) (found_text log.now place) }
{
    outputs_add_up();
    let Some(place) = place else {
        return;
    };
    out.show(
        b"<p>The place of this operation in the order is known only now: its reply is that of the map after the first ",
    );
    show_number(out, place);
    out.show(b" of the ");
    show_number(out, log.len() as u64);
    out.show(b" updates, and of no later one.</p>\n");
}

/// Where an operation stands in the order that is done, and made no update.
pub(crate) fn show_place<O: Output>(
    out: &mut O,
    log: &[Update],
    command: Option<&Command>,
    event: &Event,
)
    ensures { Prints (O.state out.old) (O.state out.new) (place_text log.now (option_copied command.entry) event.now) }
{
    outputs_add_up();
    match (command, event) {
        (Some(command), Event::Done(reply)) => {
            show_found(out, log, place_of(log, command, reply));
        }
        _ => {}
    }
}
