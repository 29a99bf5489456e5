//! The log under a frame.
ghost use Rattle.std.specs.Prelude.{◌≡◌, option_copied, option_to_list};
ghost use Rattle.std.specs.List.{flat_map};
ghost use Rattle.byte_streams.specs.Output.{Prints};
ghost use Rattle.linearization.specs.Points.{updates_by};
ghost use Rattle.filming.specs.Logs.{is_update, log_text, update_line, value_text};

use crate::maps::show_token;
use bw_model::{Command, Link, Update, Value, logged_value};
use bw_shell::show_number;
use byte_streams::Output;
use step_core::Event;

/// Whether a put or a delete was linked.
pub(crate) fn is_update(event: &Event) -> bool
    ensures { result ≡ is_update event.now }
{
    match event {
        Event::Stepped(Some(Link::Put)) => true,
        Event::Stepped(Some(Link::Delete)) => true,
        _ => false,
    }
}

/// The update that an actor's command makes behind a log.
pub(crate) fn update_by(actor: u8, command: Option<&Command>, log: &[Update]) -> Option<Update>
    ensures { option_to_list result ≡ updates_by actor (option_copied command.entry) log.now }
{
    match command {
        Some(command) => command.update(actor, logged_value(log, command.key())),
        None => None,
    }
}

/// What is said of a key that was changed: its value, or that it has none.
fn show_value<O: Output>(out: &mut O, value: Option<&Value>)
    ensures { Prints (O.state out.old) (O.state out.new) (value_text (option_copied value.entry)) }
{
    match value {
        Some(value) => {
            out.show(b" = ");
            show_token(out, value.as_slice());
        }
        None => out.show(b" has no value"),
    }
}

fn show_update<O: Output>(out: &mut O, update: &Update)
    ensures { Prints (O.state out.old) (O.state out.new) (update_line update.now) }
{
    out.show(b"<li>");
    show_token(out, update.key().as_slice());
    show_value(out, update.value());
    out.show(b"</li>\n");
}

fn show_updates<O: Output>(out: &mut O, log: &[Update])
    ensures { Prints (O.state out.old) (O.state out.new) (flat_map update_line log.now) }
{
    for update in log {
        show_update(out, update);
    }
}

/// How many updates there are, and each on a line.
pub(crate) fn show_log<O: Output>(out: &mut O, log: &[Update])
    ensures { Prints (O.state out.old) (O.state out.new) (log_text log.now) }
{
    out.show(b"<h3>The log after this step (updates: ");
    show_number(out, log.len() as u64);
    out.show(b")</h3>\n<ol class=\"log\">\n");
    show_updates(out, log);
    out.show(b"</ol>\n");
}
