// The lines of a text: one list of words, and a stretch of it for each line.

ghost use Rattle.std.specs.Prelude.{◌≡◌, ◌^◌, ◌<◌, ◌≤◌, ◌++◌, ◌∷◌, length, map, drop, Ok, IfOk, IfErr, OnOk, IsTrue, ◌↔◌, []};
ghost use Rattle.std.specs.List.{All, AllByRecursion};
ghost use Rattle.blif_lex.specs.Words.{words_of, IsFaultOf, IsLawful};
ghost use Rattle.blif_lex.specs.Spans.{nth_line, IsWithin, EndsLine, RefusesLine};

use crate::cuts::push_line;
use crate::fault::LexFault;
use crate::rules::{fault_in, is_kept};
use std::alloc::Global;
use std::marker::Model;

/// Where the words of a line lie among all words, from `start` up to `end`.
#[derive(Clone, Copy, Debug, PartialEq, Eq)]
struct Span {
    number: u32,
    start: usize,
    end: usize,
}

/// The logical lines of a text that have words and are not skipped, in order.
#[derive(Drop)]
pub struct Lines<'a> {
    words: Vec<&'a [u8]>,
    spans: Vec<Span>,
}

impl<'a> Model for Lines<'a> {
    ghost use Rattle.std.specs.Prelude.{List, length, map};
    ghost use Rattle.blif_lex.specs.Words.{Line};
    ghost use Rattle.blif_lex.specs.Spans.{lines_at, AreWithin};

    ghost Value = { List Line };

    ghost view = { λ s. lines_at (map (λ w. w.now) s.words.items) s.spans.items };

    ghost invariant = { λ s. AreWithin (length s.words.items) s.spans.items };
}

impl<'a> Lines<'a> {
    /// The lines of `text`, or its first fault. A name may have `name` bytes. With `bindings`, each
    /// `FORMAL=ACTUAL` of a `.subckt` line is two names, and else it is one. Want of memory may come at any text.
    pub fn of(
        alloc: Global,
        text: &'a [u8],
        name: u32,
        bindings: bool,
    ) -> Result<Lines<'a>, LexFault>
        requires { length text.now < 2 ^ 32 }
        ensures words { IfOk result (λ lines. words_of name bindings text.now ≡ Ok lines) }
        ensures lawful { IfOk result (All (IsLawful name bindings)) }
        ensures fault { IfErr result (λ fault. IsFaultOf fault (words_of name bindings text.now)) }
    {
        let mut words = Vec::new(alloc);
        let mut spans = Vec::new(alloc);
        let mut rest = text;
        let mut above = 0;
        while !rest.is_empty() {
            let start = words.len();
            let (taken, after) = push_line(&mut words, rest)?;
            end_line(&mut words, &mut spans, start, above + 1, name, bindings)?;
            above += taken;
            rest = after;
        }
        Ok(Lines { words, spans })
    }

    /// The number of lines.
    pub fn len(&self) -> u32
        ensures count { result ≡ length self.now }
        ensures small { length self.now < 2 ^ 32 }
    {
        self.spans.len() as u32
    }

    /// Whether there is no line.
    pub fn is_empty(&self) -> bool
        ensures { IsTrue result ↔ (self.now ≡ []) }
    {
        self.spans.is_empty()
    }

    /// The number of line `i`'s first physical line, counted from 1.
    pub fn number(&self, i: u32) -> u32
        requires { i < length self.now }
        ensures { result ≡ (nth_line self.now i).number }
    {
        self.spans[i as usize].number
    }

    /// The words of line `i`, of which there is at least one.
    pub fn words(&self, i: u32) -> &[&'a [u8]]
        requires { i < length self.now }
        ensures words { map (λ w. w.now) result.now ≡ (nth_line self.now i).words }
        ensures some { 0 < length result.now }
    {
        let span = self.spans[i as usize];
        &self.words[span.start..span.end]
    }
}

/// Ends the line that has the words from `start` on: a stretch for it where it is kept, or else its words go.
fn end_line(
    words: &mut Vec<&[u8]>,
    spans: &mut Vec<Span>,
    start: usize,
    number: u32,
    name: u32,
    bindings: bool,
) -> Result<(), LexFault>
    requires start { start ≤ length words.old.items }
    requires within { AllByRecursion (IsWithin start) spans.old.items }
    ensures ok { OnOk result (EndsLine name bindings number start (map (λ w. w.now) words.old.items) spans.old.items
        (map (λ w. w.now) words.new.items) spans.new.items) }
    ensures fault { IfErr result (λ fault. RefusesLine name bindings number (drop start (map (λ w. w.now) words.old.items)) fault) }
{
    let line = &words[start..];
    if !is_kept(line) {
        words.truncate(start);
        return Ok(());
    }
    if let Some(kind) = fault_in(line, name, bindings) {
        return Err(LexFault::Text { line: number, kind });
    }
    let end = words.len();
    spans.push(Span { number, start, end })?;
    Ok(())
}
