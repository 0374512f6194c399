// The words of a line, taken one after another.
ghost use Rattle.std.specs.Prelude.{◌≡◌, [], ◌∷◌, not, MatchOption, MatchResult, ◌≢◌};
ghost use Rattle.std.specs.List.{position};
ghost use Rattle.std.specs.Iterator.{YieldsFirstRef, item_count};
ghost use Rattle.script_words.specs.Words.{is_blank, uncommented, words_of, left};
ghost use Rattle.script_words.specs.Reading.{answered, one, figure_to, choice, number as number_of, figure as figure_of, code as code_of, side as side_of, params as params_of};

use entry::{Params, Side};
use script::faults::LineFault;

// An iterator of its own, as `Lines` is: the contracts say which words are left after each one, and `end` and the parser need them.
/// What is left of a line.
#[derive(Clone, Copy)]
pub struct Words<'a> {
    rest: &'a str,
}

/// Whether a byte separates words: a space, a tab, or the carriage return that some editors put at a line's end.
fn is_blank(byte: u8) -> bool
    ensures answer { result ≡ is_blank byte }
{
    matches!(byte, b' ' | b'\t' | b'\r')
}

/// Where the first word of a text starts, if there is one.
fn word_start(text: &str) -> Option<usize>
    ensures answer { result ≡ position (λ byte. not (is_blank byte)) text.now }
{
    text.bytes().position(|byte| !is_blank(byte))
}

/// Where the first blank of a text stands, if there is one.
fn first_blank(text: &str) -> Option<usize>
    ensures answer { result ≡ position is_blank text.now }
{
    text.bytes().position(is_blank)
}

/// The first word of a text and what follows it, if there is a word.
fn first_word(text: &str) -> Option<(&str, &str)>
    ensures answer { MatchOption result (words_of text.now ≡ []) (λ cut. words_of text.now ≡ cut.0.now ∷ words_of cut.1.now) }
{
    let (_, word) = text.split_at(word_start(text)?);
    let end = first_blank(word).unwrap_or(word.len());
    Some(word.split_at(end))
}

/// The number that a word of decimal digits writes, if it fits.
fn number(word: &str) -> Option<u32>
    ensures answer { result ≡ number_of word.now }
{
    if word.starts_with('+') {
        return None;
    }
    word.parse::<u32>().ok()
}

impl<'a> Words<'a> {
    /// The words of a line up to its comment.
    pub fn new(line: &'a str) -> Words<'a>
        ensures made { left result ≡ words_of (uncommented line.now) }
    {
        let (rest, _) = line.split_once('#').unwrap_or((line, ""));
        Words { rest }
    }

    // `figure` and `code` are a line each over this: a fault tells the greatest figure, which a generic call would need as well.
    /// Takes the next word, which has to be a figure of at most `most`.
    pub fn figure_to(&mut self, name: &'static str, most: u32) -> Result<u32, LineFault<'a>>
        ensures answer { answered result (left self.new) ≡ figure_to most (left self.old) }
    {
        let word = self.next().ok_or(LineFault::Missing { name })?;
        number(word)
            .filter(|figure| *figure <= most)
            .ok_or(LineFault::NotFigure { name, word, most })
    }

    /// Takes the next word, which has to be a figure.
    pub fn figure(&mut self, name: &'static str) -> Result<u32, LineFault<'a>>
        ensures answer { answered result (left self.new) ≡ figure_of (left self.old) }
    {
        self.figure_to(name, u32::MAX)
    }

    /// Takes the next word, which has to be a figure of 8 bits.
    pub fn code(&mut self, name: &'static str) -> Result<u8, LineFault<'a>>
        ensures answer { answered result (left self.new) ≡ code_of (left self.old) }
    {
        let figure = self.figure_to(name, u32::from(u8::MAX))?;
        Ok(figure as u8)
    }

    /// Takes the next word, which has to be one of two, and gives what that one stands for.
    pub fn choice<T: Copy>(
        &mut self,
        first: (&'static str, T),
        second: (&'static str, T),
    ) -> Result<T, LineFault<'a>>
        ensures answer { answered result (left self.new) ≡ one (choice first.entry.0.now first.entry.1 second.entry.0.now second.entry.1) (left self.old) }
    {
        let (first, if_first) = first;
        let (second, if_second) = second;
        let word = self
            .next()
            .ok_or(LineFault::MissingChoice { first, second })?;
        if word == first {
            Ok(if_first)
        } else if word == second {
            Ok(if_second)
        } else {
            Err(LineFault::Neither {
                word,
                first,
                second,
            })
        }
    }

    /// Takes the next word, which has to be a side.
    pub fn side(&mut self) -> Result<Side, LineFault<'a>>
        ensures answer { answered result (left self.new) ≡ side_of (left self.old) }
    {
        self.choice(("buy", Side::Buy), ("sell", Side::Sell))
    }

    /// Takes the next four words, which have to be the figures of risk parameters.
    pub fn params(&mut self) -> Result<Params, LineFault<'a>>
        ensures answer { answered result (left self.new) ≡ params_of (left self.old) }
    {
        let sp = self.figure("SP")?;
        let l = self.figure("L")?;
        let ur = self.figure("UR")?;
        let lr = self.figure("LR")?;
        Ok(Params { sp, l, ur, lr })
    }

    /// Refuses a line that goes on.
    pub fn end(&mut self) -> Result<(), LineFault<'a>>
        ensures answer { MatchResult result (λ _. left self.old ≡ []) (λ _. left self.old ≢ []) }
    {
        match self.next() {
            Some(word) => Err(LineFault::TooMany { word }),
            None => Ok(()),
        }
    }
}

impl<'a> Iterator for Words<'a> {
    type Item = &'a str;

    ghost next_gives = { YieldsFirstRef left };

    ghost remaining = { item_count left };

    /// Takes the next word.
    fn next(&mut self) -> Option<&'a str> {
        let (word, rest) = first_word(self.rest)?;
        self.rest = rest;
        Some(word)
    }
}
