//! The fields of a line.

ghost use Rattle.std.specs.Prelude.{◌≡◌, [], ◌∷◌, MatchOption, None, Some};
ghost use Rattle.std.specs.Option.{option_copied};
ghost use Rattle.std.specs.Str.{bytes_eq};
ghost use Rattle.shell_lines.specs.Fields.{fields_in, one_of, two_of, three_of};

/// The next field, and what is left behind the space after it.
pub fn next_field<'a>(rest: Option<&'a [u8]>) -> Option<(&'a [u8], Option<&'a [u8]>)>
    ensures { MatchOption result (fields_in (option_copied rest.entry) ≡ [])
        (λ r. fields_in (option_copied rest.entry) ≡ r.0.now ∷ fields_in (option_copied r.1)) }
{
    let text = rest?;
    for (i, b) in text.iter().enumerate() {
        if *b == b' ' {
            return Some((&text[..i], Some(&text[i + 1..])));
        }
    }
    Some((text, None))
}

/// The one field that is left.
pub fn one_field<'a>(rest: Option<&'a [u8]>) -> Option<&'a [u8]>
    ensures { MatchOption result (one_of (fields_in (option_copied rest.entry)) ≡ None) (λ one. one_of (fields_in (option_copied rest.entry)) ≡ Some one.now) }
{
    let (one, rest) = next_field(rest)?;
    if next_field(rest).is_some() {
        return None;
    }
    Some(one)
}

/// The two fields that are left.
pub fn two_fields<'a>(rest: Option<&'a [u8]>) -> Option<(&'a [u8], &'a [u8])>
    ensures { MatchOption result (two_of (fields_in (option_copied rest.entry)) ≡ None) (λ two. two_of (fields_in (option_copied rest.entry)) ≡ Some (two.0.now, two.1.now)) }
{
    let (one, rest) = next_field(rest)?;
    let two = one_field(rest)?;
    Some((one, two))
}

/// The three fields that are left.
pub fn three_fields<'a>(rest: Option<&'a [u8]>) -> Option<(&'a [u8], &'a [u8], &'a [u8])>
    ensures { MatchOption result (three_of (fields_in (option_copied rest.entry)) ≡ None) (λ three. three_of (fields_in (option_copied rest.entry)) ≡ Some (three.0.now, three.1.now, three.2.now)) }
{
    let (one, rest) = next_field(rest)?;
    let (two, three) = two_fields(rest)?;
    Some((one, two, three))
}

/// Whether a field is this word.
pub fn spells(field: &[u8], word: &str) -> bool
    ensures { result ≡ bytes_eq field.now word.now }
{
    field == word.as_bytes()
}
