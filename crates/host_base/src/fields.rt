// Field lines (RFC 9110 5), and what is asked of them.
ghost use Rattle.std.specs.Prelude.{◌≡◌, count_by, filter};
ghost use Rattle.std.specs.List.{list_any};
ghost use Rattle.std.specs.Str.{str_eq_ignore_ascii_case};
ghost use Rattle.host_base.specs.FieldLists.{is_named, field_words};
ghost use Rattle.host_base.specs.Ascii.{comma_words};

use super::ascii::{has_comma_word, is_same_word};
use super::{Bytes, Sequence};

/// A field line: its name as it was spelled, and its value without blanks around it.
#[derive(Clone, Drop, Debug)]
pub struct Field {
    pub name: Bytes,
    pub value: Bytes,
}

/// Field lines in their order.
pub type Fields = Sequence<Field>;

impl Sequence<Field> {
    /// How many field lines have a name, without regard to ASCII case.
    pub fn count_named(&self, name: &[u8]) -> usize
        ensures { result ≡ count_by (is_named name.now) self.now }
    {
        self.as_slice()
            .iter()
            .filter(|field| is_same_word(name, field.name.as_slice()))
            .count()
    }

    // The field lines of a name one by one.
    fn has_word_in_line(&self, name: &[u8], word: &[u8]) -> bool
        ensures { result ≡ list_any (λ f. list_any (str_eq_ignore_ascii_case word.now) (comma_words f.value)) (filter (is_named name.now) self.now) }
    {
        self.as_slice()
            .iter()
            .filter(|field| is_same_word(name, field.name.as_slice()))
            .any(|field| has_comma_word(field.value.as_slice(), word))
    }

    /// Whether the list of a field has a word; both without regard to ASCII case.
    pub fn has_word(&self, name: &[u8], word: &[u8]) -> bool
        ensures { result ≡ list_any (str_eq_ignore_ascii_case word.now) (field_words name.now self.now) }
    {
        self.has_word_in_line(name, word)
    }
}
