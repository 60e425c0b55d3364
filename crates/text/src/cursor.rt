// A walk through a text.
ghost use Rattle.std.specs.Prelude.{◌≡◌, [], ◌∷◌, length, slice_get};
ghost use Rattle.text.specs.Fields.{field_at};
ghost use Rattle.text.specs.Steps.{number_at, numbers_at, word_at, space_at, line_end_at, text_end_at};
ghost use Rattle.text.specs.Walks.{text_of, Makes, holding};

use crate::fields::{first_field, is_letter, is_word};
use crate::numerals::number_in;

// A byte that is not of the form, by its offset in the text.
#[derive(Clone, Copy, Debug, PartialEq, Eq)]
pub struct Malformed {
    pub offset: usize,
}

// A text with a place in it.
#[derive(Clone, Copy)]
pub struct Cursor<'a> {
    pub text: &'a [u8],
    pub at: usize,
}

impl<'a> Cursor<'a> {
    // The start of a text.
    pub fn new(text: &'a [u8]) -> Cursor<'a>
        ensures text { text_of result ≡ text.now }
        ensures at { result.at ≡ 0 }
    {
        Cursor { text, at: 0 }
    }

    // The field that begins here.
    fn field(&self) -> &'a [u8]
        ensures { result.now ≡ field_at (text_of self.now) self.now.at }
    {
        let from = self.at.min(self.text.len());
        first_field(&self.text[from..])
    }

    // The byte that stands here, if the text goes on.
    fn byte(&self) -> Option<u8>
        ensures { result ≡ slice_get (text_of self.now) self.now.at }
    {
        self.text.get(self.at).copied()
    }

    // The byte that stands here is not of the form.
    fn malformed(&self) -> Malformed
        ensures { result.offset ≡ self.now.at }
    {
        Malformed { offset: self.at }
    }

    // Walks past the space before a further field.
    pub fn space(&mut self) -> Result<(), Malformed>
        ensures { Makes space_at self.old self.new result }
    {
        let Some(b' ') = self.byte() else {
            return Err(self.malformed());
        };
        self.at += 1;
        Ok(())
    }

    // Walks past the end of a line.
    pub fn line_end(&mut self) -> Result<(), Malformed>
        ensures { Makes line_end_at self.old self.new result }
    {
        match self.byte() {
            Some(b'\n') => {
                self.at += 1;
                Ok(())
            }
            Some(b' ') => Err(Malformed {
                offset: self.at + 1,
            }),
            _ => Err(self.malformed()),
        }
    }

    // Sees that the text ends here.
    #[tactic(auto, unfolding(crate::specs::Steps::text_end_at))]
    pub fn text_end(&mut self) -> Result<(), Malformed>
        ensures { Makes text_end_at self.old self.new result }
    {
        if self.at == self.text.len() {
            Ok(())
        } else {
            Err(self.malformed())
        }
    }

    // Walks past a field that is a number, and answers it.
    pub fn number(&mut self) -> Result<i64, Malformed>
        ensures { Makes number_at self.old self.new result }
    {
        let field = self.field();
        let number = number_in(field).ok_or(self.malformed())?;
        self.at += field.len();
        Ok(number)
    }

    // Walks past a field that is the given word.
    #[tactic(auto, unfolding(crate::specs::Steps::word_at))]
    pub fn word(&mut self, word: &[u8]) -> Result<(), Malformed>
        ensures { Makes (λ text at. word_at text at word.now) self.old self.new result }
    {
        let field = self.field();
        if !is_word(field, word) {
            return Err(self.malformed());
        }
        self.at += field.len();
        Ok(())
    }

    // Walks past a field that is the given letter, which is a character and no list of bytes, as a word is.
    #[tactic(auto, unfolding(crate::specs::Steps::word_at))]
    pub fn letter(&mut self, letter: char) -> Result<(), Malformed>
        ensures { Makes (λ text at. word_at text at (letter ∷ [])) self.old self.new result }
    {
        let field = self.field();
        if !is_letter(field, letter) {
            return Err(self.malformed());
        }
        self.at += field.len();
        Ok(())
    }

    // Walks past as many numbers as the list is long, each after a space, and puts them there. Where it refuses, it may
    // have put the numbers before the offending byte.
    pub fn numbers(&mut self, into: &mut [i64]) -> Result<(), Malformed>
        ensures { Makes (λ text at. numbers_at text at (length into.old)) self.old self.new (holding into.new result) }
    {
        let mut ahead = *self;
        for number in into.iter_mut() {
            ahead.space()?;
            *number = ahead.number()?;
        }
        self.at = ahead.at;
        Ok(())
    }
}
