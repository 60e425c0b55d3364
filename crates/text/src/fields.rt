// The fields of a line.
ghost use Rattle.std.specs.Prelude.{◌≡◌, [], ◌∷◌};
ghost use Rattle.std.specs.List.{position};
ghost use Rattle.std.specs.Str.{bytes_eq};
ghost use Rattle.text.specs.Fields.{ends_field, field};

// The byte ends a field.
fn ends_field(byte: u8) -> bool
    ensures { result ≡ ends_field byte }
{
    byte == b' ' || byte == b'\n'
}

// Where the field at the front of a text ends, if not with the text.
fn field_end(text: &[u8]) -> Option<usize>
    ensures { result ≡ position ends_field text.now }
{
    text.iter().position(|byte| ends_field(*byte))
}

// The field at the front of a text.
pub(crate) fn first_field(text: &[u8]) -> &[u8]
    ensures { result.now ≡ field text.now }
{
    let end = field_end(text).unwrap_or(text.len());
    &text[..end]
}

// The field is the given word.
pub(crate) fn is_word(field: &[u8], word: &[u8]) -> bool
    ensures { result ≡ bytes_eq field.now word.now }
{
    field == word
}

// The field is the given letter.
pub(crate) fn is_letter(field: &[u8], letter: char) -> bool
    ensures { result ≡ bytes_eq field.now (letter ∷ []) }
{
    matches!(field, [byte] if char::from(*byte) == letter)
}
