//! The map under a frame, and what a step changed of it.
ghost use Rattle.std.specs.Prelude.{◌≡◌, ◌∷◌, ◌++◌, ◌≤◌, codes, length};
ghost use Rattle.std.specs.List.{flat_map};
ghost use Rattle.std.specs.Str.{bytes_eq};
ghost use Rattle.bw_model.specs.Bytes.{longest};
ghost use Rattle.hex.specs.Hex.{encode_lower};
ghost use Rattle.byte_streams.specs.Output.{Prints};
ghost use Rattle.tree_picture.specs.Document.{escape};
ghost use Rattle.filming.specs.Maps.{are_in, change_text, gain_text, has_key, has_pair, have_values, is_same, is_unchanged, loss_text, map_text, pair_line, token_text};

use bw_model::{Key, MAX_LENGTH, Value};
use bw_shell::show_number;
use byte_streams::{Output, outputs_add_up};
use drawing::show_escaped;
use shell_lines::is_word;

/// Bytes in digits, behind '='.
fn show_digits<O: Output>(out: &mut O, bytes: &[u8])
    requires { length bytes.now ≤ longest }
    ensures { Prints (O.state out.old) (O.state out.new) (escape (61 ∷ encode_lower bytes.now)) }
{
    let mut digits = [0u8; 2 * MAX_LENGTH];
    let text = &mut digits[..2 * bytes.len()];
    match hex::encode_to_slice(bytes, text) {
        Ok(()) => {
            out.show(b"=");
            show_escaped(out, text);
        }
        Err(_) => unreachable!(),
    }
}

/// A key or a value, as the program prints it.
pub(crate) fn show_token<O: Output>(out: &mut O, bytes: &[u8])
    requires { length bytes.now ≤ longest }
    ensures { Prints (O.state out.old) (O.state out.new) (token_text bytes.now) }
{
    if is_word(bytes) {
        show_escaped(out, bytes)
    } else {
        show_digits(out, bytes)
    }
}

/// A pair on a line.
fn show_pair<O: Output>(out: &mut O, pair: &(Key, Value))
    ensures { Prints (O.state out.old) (O.state out.new) (pair_line pair.now) }
{
    show_token(out, pair.0.as_slice());
    out.show(b" ");
    show_token(out, pair.1.as_slice());
    out.show(b"\n");
}

fn show_pairs<O: Output>(out: &mut O, pairs: &[(Key, Value)])
    ensures { Prints (O.state out.old) (O.state out.new) (flat_map pair_line pairs.now) }
{
    for pair in pairs {
        show_pair(out, pair);
    }
}

/// How many pairs there are, and each on a line.
pub(crate) fn show_map<O: Output>(out: &mut O, pairs: &[(Key, Value)])
    ensures { Prints (O.state out.old) (O.state out.new) (map_text pairs.now) }
{
    out.show(b"<h3>The map after this step (pairs: ");
    show_number(out, pairs.len() as u64);
    out.show(b")</h3>\n<pre class=\"map\">");
    show_pairs(out, pairs);
    out.show(b"</pre>\n");
}

fn is_same(one: &(Key, Value), other: &(Key, Value)) -> bool
    ensures { result ≡ is_same one.now other.now }
{
    one.0.as_slice() == other.0.as_slice() && one.1.as_slice() == other.1.as_slice()
}

/// Whether there is this pair.
fn has_pair(pairs: &[(Key, Value)], pair: &(Key, Value)) -> bool
    ensures { result ≡ has_pair pairs.now pair.now }
{
    pairs.iter().any(|other| is_same(other, pair))
}

fn is_key_of(pair: &(Key, Value), key: &[u8]) -> bool
    ensures { result ≡ bytes_eq pair.now.0 key.now }
{
    pair.0.as_slice() == key
}

/// Whether the key has a value.
pub(crate) fn has_key(pairs: &[(Key, Value)], key: &[u8]) -> bool
    ensures { result ≡ has_key pairs.now key.now }
{
    pairs.iter().any(|other| is_key_of(other, key))
}

/// Whether all of these pairs were there before.
fn are_in(before: &[(Key, Value)], after: &[(Key, Value)]) -> bool
    ensures { result ≡ are_in before.now after.now }
{
    after.iter().all(|pair| has_pair(before, pair))
}

/// Whether all keys of these pairs have a value.
fn have_values(after: &[(Key, Value)], before: &[(Key, Value)]) -> bool
    ensures { result ≡ have_values after.now before.now }
{
    before.iter().all(|pair| has_key(after, pair.0.as_slice()))
}

/// Whether the maps have the same pairs.
fn is_unchanged(before: &[(Key, Value)], after: &[(Key, Value)]) -> bool
    ensures { result ≡ is_unchanged before.now after.now }
{
    are_in(before, after) && have_values(after, before)
}

/// A pair that wasn't there before, if it is one.
fn show_gain<O: Output>(out: &mut O, before: &[(Key, Value)], pair: &(Key, Value))
    ensures { Prints (O.state out.old) (O.state out.new) (gain_text before.now pair.now) }
{
    outputs_add_up();
    if has_pair(before, pair) {
        return;
    }
    out.show(b"<p class=\"changed\">This step changes the map: ");
    show_token(out, pair.0.as_slice());
    out.show(b" has the value ");
    show_token(out, pair.1.as_slice());
    out.show(b" now.</p>\n");
}

fn show_gains<O: Output>(out: &mut O, before: &[(Key, Value)], after: &[(Key, Value)])
    ensures { Prints (O.state out.old) (O.state out.new) (flat_map (gain_text before.now) after.now) }
{
    for pair in after {
        show_gain(out, before, pair);
    }
}

/// A pair whose key has no value any more, if it is one.
fn show_loss<O: Output>(out: &mut O, after: &[(Key, Value)], pair: &(Key, Value))
    ensures { Prints (O.state out.old) (O.state out.new) (loss_text after.now pair.now) }
{
    outputs_add_up();
    if has_key(after, pair.0.as_slice()) {
        return;
    }
    out.show(b"<p class=\"changed\">This step changes the map: ");
    show_token(out, pair.0.as_slice());
    out.show(b" has no value any more.</p>\n");
}

fn show_losses<O: Output>(out: &mut O, after: &[(Key, Value)], before: &[(Key, Value)])
    ensures { Prints (O.state out.old) (O.state out.new) (flat_map (loss_text after.now) before.now) }
{
    for pair in before {
        show_loss(out, after, pair);
    }
}

/// How the map differs from the one before.
pub(crate) fn show_change<O: Output>(out: &mut O, before: &[(Key, Value)], after: &[(Key, Value)])
    ensures { Prints (O.state out.old) (O.state out.new) (change_text before.now after.now) }
{
    if is_unchanged(before, after) {
        out.show(b"<p>The map is unchanged by this step.</p>\n");
        return;
    }
    show_gains(out, before, after);
    show_losses(out, after, before);
}
