//! What is printed.

ghost use Rattle.std.specs.Prelude.{◌+◌, ◌<◌, ◌≤◌, ◌++◌, ◌∷◌, length, decimal, codes, reverse, option_copied};
ghost use Rattle.std.specs.List.{flat_map};
ghost use Rattle.bw_model.specs.Bytes.{longest};
ghost use Rattle.hex.specs.Hex.{encode_lower};
ghost use Rattle.shell_lines.specs.Token.{as_token};
ghost use Rattle.byte_streams.specs.Output.{Prints};
ghost use Rattle.bw_shell.specs.Text.{item_text, next_text, reply_text, turned_text, finished_text, pair_text, listing_text, refused_text, last_line, lone_refusal_text};

use crate::refusal::{Refusal, RefusedLine};
use crate::turns::Progress;
use bw_model::{Key, MAX_LENGTH, Reply, Value};
use byte_streams::Output;
use itoa::Buffer;
use shell_lines::is_word;

/// A number in digits.
pub fn show_number<O: Output>(out: &mut O, n: u64)
    ensures { Prints (O.state out.old) (O.state out.new) (decimal n) }
{
    let mut buffer = Buffer::new();
    out.show(buffer.format(n).as_bytes());
}

// Bytes in digits, behind '='.
fn show_digits<O: Output>(out: &mut O, bytes: &[u8])
    requires { length bytes.now ≤ longest }
    ensures { Prints (O.state out.old) (O.state out.new) (61 ∷ encode_lower bytes.now) }
{
    let mut digits = [0u8; 2 * MAX_LENGTH];
    let text = &mut digits[..2 * bytes.len()];
    match hex::encode_to_slice(bytes, text) {
        Ok(()) => {
            out.show(b"=");
            out.show(text);
        }
        Err(_) => unreachable!(),
    }
}

/// A token for the bytes.
pub fn show_token<O: Output>(out: &mut O, bytes: &[u8])
    requires { length bytes.now ≤ longest }
    ensures { Prints (O.state out.old) (O.state out.new) (as_token bytes.now) }
{
    if is_word(bytes) {
        out.show(bytes)
    } else {
        show_digits(out, bytes)
    }
}

// A word, and a value behind it.
fn show_with<O: Output>(out: &mut O, word: &[u8], value: &Value)
    ensures { Prints (O.state out.old) (O.state out.new) (word.now ++ as_token value.now ++ codes "\n") }
{
    out.show(word);
    show_token(out, value.as_slice());
    out.show(b"\n");
}

// A pair in a page.
fn show_item<O: Output>(out: &mut O, item: &(Key, Value))
    ensures { Prints (O.state out.old) (O.state out.new) (item_text item.now) }
{
    out.show(b" ");
    show_token(out, item.0.as_slice());
    out.show(b" ");
    show_token(out, item.1.as_slice());
}

fn show_items<O: Output>(out: &mut O, items: &[(Key, Value)])
    ensures { Prints (O.state out.old) (O.state out.new) (flat_map item_text items.now) }
{
    for item in items {
        show_item(out, item);
    }
}

// Where the next page goes on.
fn show_next<O: Output>(out: &mut O, next: Option<&Key>)
    ensures { Prints (O.state out.old) (O.state out.new) (next_text (option_copied next.entry)) }
{
    match next {
        Some(key) => show_key(out, key),
        None => out.show(b" end\n"),
    }
}

fn show_key<O: Output>(out: &mut O, key: &Key)
    ensures { Prints (O.state out.old) (O.state out.new) (codes " next " ++ as_token key.now ++ codes "\n") }
{
    out.show(b" next ");
    show_token(out, key.as_slice());
    out.show(b"\n");
}

fn show_page<O: Output>(out: &mut O, items: &[(Key, Value)], next: Option<&Key>)
    ensures { Prints (O.state out.old) (O.state out.new)
        (codes " page " ++ decimal (length items.now) ++ flat_map item_text items.now ++ next_text (option_copied next.entry)) }
{
    out.show(b" page ");
    show_number(out, items.len() as u64);
    show_items(out, items);
    show_next(out, next);
}

// The items from the last one to the first.
fn show_items_back<O: Output>(out: &mut O, items: &[(Key, Value)])
    ensures { Prints (O.state out.old) (O.state out.new) (flat_map item_text (reverse items.now)) }
{
    for place in (0..items.len()).rev() {
        show_item(out, &items[place]);
    }
}

fn show_back_page<O: Output>(out: &mut O, items: &[(Key, Value)], next: Option<&Key>)
    ensures { Prints (O.state out.old) (O.state out.new)
        (codes " back " ++ decimal (length items.now) ++ flat_map item_text (reverse items.now) ++ next_text (option_copied next.entry)) }
{
    out.show(b" back ");
    show_number(out, items.len() as u64);
    show_items_back(out, items);
    show_next(out, next);
}

/// A reply, as it stands behind its actor.
pub fn show_reply<O: Output>(out: &mut O, reply: &Reply)
    ensures { Prints (O.state out.old) (O.state out.new) (reply_text reply.now) }
{
    match reply {
        Reply::Value(value) => show_with(out, b" value ", value),
        Reply::None => out.show(b" none\n"),
        Reply::Inserted => out.show(b" inserted\n"),
        Reply::Exists(value) => show_with(out, b" exists ", value),
        Reply::Set => out.show(b" set\n"),
        Reply::Replaced(value) => show_with(out, b" replaced ", value),
        Reply::Deleted(value) => show_with(out, b" deleted ", value),
        Reply::Absent => out.show(b" absent\n"),
        Reply::Swapped => out.show(b" swapped\n"),
        Reply::Differs(value) => show_with(out, b" differs ", value),
        Reply::Page { items, next } => show_page(out, items.as_slice(), next.as_ref()),
        Reply::BackPage { items, next } => show_back_page(out, items.as_slice(), next.as_ref()),
        Reply::Tidied => out.show(b" tidied\n"),
        Reply::Full => out.show(b" full\n"),
    }
}

// The reply of an actor whose operation is done.
fn show_done<O: Output>(out: &mut O, actor: u64, reply: &Reply)
    ensures { Prints (O.state out.old) (O.state out.new) (decimal actor ++ reply_text reply.now) }
{
    show_number(out, actor);
    show_reply(out, reply);
}

/// What an actor's turns have come to: its reply, if it is done.
pub fn show_turned<O: Output>(out: &mut O, actor: u64, progress: &Progress)
    ensures { Prints (O.state out.old) (O.state out.new) (turned_text actor progress.now) }
{
    match progress {
        Progress::GoesOn => {}
        Progress::Linked => {}
        Progress::Done(reply) => show_done(out, actor, reply),
    }
}

/// What turns up to an actor's end have come to: its reply, or that it goes on.
pub fn show_finished<O: Output>(out: &mut O, actor: u64, progress: &Progress)
    ensures { Prints (O.state out.old) (O.state out.new) (finished_text actor progress.now) }
{
    match progress {
        Progress::GoesOn => {
            show_number(out, actor);
            out.show(b" unfinished\n");
        }
        Progress::Linked => {}
        Progress::Done(reply) => show_done(out, actor, reply),
    }
}

/// A refused line.
pub fn show_refused<O: Output>(out: &mut O, line: RefusedLine)
    ensures { Prints (O.state out.old) (O.state out.new) (refused_text line.number line.refusal) }
{
    out.show(b"refused line ");
    show_number(out, line.number);
    out.show(b": ");
    show_number(out, line.refusal.code());
    out.show(b"\n");
}

/// The refused line, if a line was refused.
pub fn show_last_line<O: Output>(out: &mut O, refused: Option<RefusedLine>)
    ensures { Prints (O.state out.old) (O.state out.new) (last_line refused) }
{
    match refused {
        None => {}
        Some(line) => show_refused(out, line),
    }
}

/// A refusal that belongs to no line.
pub fn show_lone_refusal<O: Output>(out: &mut O, refusal: Refusal)
    ensures { Prints (O.state out.old) (O.state out.new) (lone_refusal_text refusal) }
{
    out.show(b"refused: ");
    show_number(out, refusal.code());
    out.show(b"\n");
}

fn show_pair<O: Output>(out: &mut O, pair: &(Key, Value))
    ensures { Prints (O.state out.old) (O.state out.new) (pair_text pair.now) }
{
    show_token(out, pair.0.as_slice());
    out.show(b" ");
    show_token(out, pair.1.as_slice());
    out.show(b"\n");
}

// Each pair on a line.
fn show_pairs<O: Output>(out: &mut O, pairs: &[(Key, Value)])
    ensures { Prints (O.state out.old) (O.state out.new) (flat_map pair_text pairs.now) }
{
    for pair in pairs {
        show_pair(out, pair);
    }
}

/// All pairs.
pub fn show_listing<O: Output>(out: &mut O, pairs: &[(Key, Value)])
    ensures { Prints (O.state out.old) (O.state out.new) (listing_text pairs.now) }
{
    out.show(b"pairs ");
    show_number(out, pairs.len() as u64);
    out.show(b"\n");
    show_pairs(out, pairs);
}
