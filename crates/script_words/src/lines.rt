// The lines of a script, taken one after another.
ghost use Rattle.std.specs.Prelude.{◌≡◌, [], ◌∷◌, MatchOption};
ghost use Rattle.std.specs.Iterator.{YieldsFirstRef, item_count};
ghost use Rattle.script_words.specs.Lines.{lines_of, to_come};

// An iterator of its own: `split_terminator` says what its whole run gives, and where a reader stops at a line, the lines that are
// left are needed.
/// What is left of a script.
#[derive(Clone, Copy)]
pub struct Lines<'a> {
    rest: &'a str,
}

/// The first line of a text, without the byte that ends it, and what follows it, if there is a line.
fn first_line(text: &str) -> Option<(&str, &str)>
    ensures answer { MatchOption result (lines_of text.now ≡ []) (λ cut. lines_of text.now ≡ cut.0.now ∷ lines_of cut.1.now) }
{
    if text.is_empty() {
        return None;
    }
    Some(text.split_once('\n').unwrap_or((text, "")))
}

impl<'a> Lines<'a> {
    /// The lines of a script.
    pub fn new(script: &'a str) -> Lines<'a>
        ensures made { to_come result ≡ lines_of script.now }
    {
        Lines { rest: script }
    }
}

impl<'a> Iterator for Lines<'a> {
    type Item = &'a str;

    ghost next_gives = { YieldsFirstRef to_come };

    ghost remaining = { item_count to_come };

    /// Takes the next line, without the byte that ends it.
    fn next(&mut self) -> Option<&'a str> {
        let (line, rest) = first_line(self.rest)?;
        self.rest = rest;
        Some(line)
    }
}
