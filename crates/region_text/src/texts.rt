// A text as lines, and a line as fields.
ghost use Rattle.std.specs.Prelude.{◌≡◌, ◌==◌, ◌<◌, [], ◌∷◌, length, MatchOption, IfSome};
ghost use Rattle.std.specs.List.{position};
ghost use Rattle.std.specs.Iterator.{item_count};
ghost use Rattle.region_text.specs.Texts.{fields as parts, field_at, lines as text_lines, text_line};
ghost use Rattle.region_text.specs.Lines.{NextLine};

use super::cursor::{Line, Lines};

impl<'a> Lines<'a> {
    /// The lines of a text, the first of which has the number 1.
    pub(crate) fn new(text: &'a [u8]) -> Lines<'a>
        ensures rest { result.rest.now ≡ text.now }
        ensures number { result.number ≡ 1 }
    {
        Lines {
            rest: text,
            number: 1,
        }
    }
}

/// The place of the first LF.
fn find_end(text: &[u8]) -> Option<usize>
    ensures { result ≡ position (λ b. b == 10) text.now }
{
    text.iter().position(|b| *b == b'\n')
}

/// The first line of a text without its LF, whether it had one, and what is left behind it.
fn first_line(text: &[u8]) -> Option<(&[u8], bool, &[u8])>
    ensures line { MatchOption result (text_lines text.now ≡ []) (λ x. text_lines text.now ≡ text_line x.0.now x.1 ∷ text_lines x.2.now) }
    ensures less { IfSome result (λ x. length x.2.now < length text.now) }
{
    if text.is_empty() {
        return None;
    }
    match find_end(text) {
        Some(end) => Some((&text[..end], true, &text[end + 1..])),
        None => Some((text, false, &[])),
    }
}

// No `split_inclusive`: no lemma of the library says what it yields.
impl<'a> Iterator for Lines<'a> {
    type Item = Line<'a>;

    ghost next_gives = { NextLine };

    ghost remaining = { item_count (λ s. text_lines s.rest.now) };

    fn next(&mut self) -> Option<Line<'a>> {
        let (bytes, ended, rest) = first_line(self.rest)?;
        let number = self.number;
        *self = Lines {
            rest,
            number: number + 1,
        };
        Some(Line {
            bytes,
            ended,
            number,
        })
    }
}

/// The number of fields of a line.
pub(crate) fn count_fields(line: &[u8]) -> usize
    ensures { result ≡ length (parts line.now) }
{
    // By a loop: to cut the line at its tabs, or to filter and count them, took 1.8 times the time where there are many.
    let mut n = 1;
    for b in line {
        if *b == b'\t' {
            n += 1;
        }
    }
    n
}

/// The field at `index`, counted from 0, or nothing where the line has no such field.
pub(crate) fn nth_field(line: &[u8], index: usize) -> &[u8]
    ensures { result.now ≡ field_at (parts line.now) index }
{
    line.split(|b| *b == b'\t').nth(index).unwrap_or(&[])
}
