//! Matching of the tokens of a text against the tokens of a layout.
ghost use Rattle.std.specs.Prelude.{◌≡◌, ◌∷◌, [], cond, drop, not, ◌==◌, IfOk, OnOk, true};
ghost use Rattle.lay_map.specs.Ahead.{tokens_of};
ghost use Rattle.lay_map.specs.Marking.{BeginsWord, begun, behind_line, broken, comma_settled, documented, first_ahead, group_begun, group_ended};
ghost use Rattle.lay_map.specs.Marking.{is_free, opening_of, raised, read, read_code, settled, text_within, units_of, words_of, worded};

use crate::ahead::Ahead;
use crate::flags::Flags;
use crate::unit::Span;
use crate::walk::{Walk, one_more};
use lay_layout::Break;
use lay_text::{List, NoMemory};
use std::alloc::Global;
use std::marker::Model;

/// Where in documentation the layout is.
#[derive(Clone, Copy, Debug, PartialEq, Eq)]
pub(crate) enum Within {
    /// Outside documentation.
    Code,
    /// In a line comment, or in the shebang line, up to the next break.
    Line,
    /// Before the text of a block comment.
    Block,
    /// Before the end of a block comment.
    End,
}

/// The beginning of documentation.
#[derive(Clone, Copy, Debug, PartialEq, Eq)]
pub(crate) struct Opening {
    /// Whether it documents the item that it stands in.
    inner: bool,
    /// Whether it is a block comment.
    block: bool,
}

/// The walk over the tokens, and the pending part of the layout.
#[derive(Drop)]
pub(crate) struct Marking<'a> {
    walk: Walk<'a>,
    /// The number of `{` that were fed in a row. The next word decides which of them are words.
    row: usize,
    /// Whether a text `,` was fed last. The next call decides whether it is a word.
    comma: bool,
    within: Within,
    /// Whether the `=>` of an arm was fed in the open group.
    arrow: bool,
    /// For each group around it, whether the `=>` of an arm was fed in that group.
    outer: Flags,
}

impl<'a> Model for Marking<'a> {
    ghost use Rattle.lay_map.specs.Marking.{State};

    ghost Value = { State };

    ghost view = { λ m. record { place = m.walk; row = m.row; comma = m.comma; within = m.within; arrow = m.arrow; outer = m.outer } };
}

impl<'a> Marking<'a> {
    /// The state before anything is fed. `shebang` says that the first line is a shebang line,
    /// which has no tokens.
    pub(crate) fn new(alloc: Global, ahead: Ahead<'a>, shebang: bool) -> Marking<'a>
        ensures { result ≡ begun (tokens_of ahead.entry) shebang }
    {
        Marking {
            walk: Walk::new(alloc, ahead),
            row: 0,
            comma: false,
            within: if shebang { Within::Line } else { Within::Code },
            arrow: false,
            outer: Flags::new(alloc),
        }
    }

    /// Takes a text.
    pub(crate) fn text(&mut self, text: &[u8]) -> Result<(), NoMemory>
        ensures { OnOk result (self.new ≡ text_within self.old.within text.now self.old) }
    {
        match self.within {
            Within::Code => {
                self.settle_comma()?;
                self.read(text)
            }
            Within::Line => Ok(()),
            Within::Block => {
                self.within = Within::End;
                Ok(())
            }
            Within::End => {
                self.within = Within::Code;
                Ok(())
            }
        }
    }

    /// Takes a break.
    pub(crate) fn brk(&mut self, token: Break) -> Result<(), NoMemory>
        ensures { OnOk result (self.new ≡ broken token self.old) }
    {
        self.within = behind_line(self.within);
        self.comma = self.comma && !is_free(token, self.arrow);
        self.settle_comma()
    }

    /// Takes the begin of a group.
    pub(crate) fn begin(&mut self) -> Result<(), NoMemory>
        ensures { OnOk result (self.new ≡ group_begun self.old) }
    {
        self.settle_comma()?;
        self.outer.push(self.arrow)?;
        self.arrow = false;
        Ok(())
    }

    /// Takes the end of a group.
    pub(crate) fn end(&mut self) -> Result<(), NoMemory>
        ensures { OnOk result (self.new ≡ group_ended self.old) }
    {
        self.settle_comma()?;
        self.arrow = self.outer.top();
        self.outer.pop();
        Ok(())
    }

    /// The units that were found: nothing more is fed.
    pub(crate) fn into_units(self) -> Result<List<Span>, NoMemory>
        ensures { IfOk result (λ units. units ≡ units_of self.entry) }
    {
        let mut marking = self;
        marking.settle_comma()?;
        marking.settle(true)?;
        let Marking {
            walk,
            row: _,
            comma: _,
            within: _,
            arrow: _,
            outer: _,
        } = marking;
        Ok(walk.into_units())
    }

    /// Settles the pending `,`, if there is one, as a word.
    fn settle_comma(&mut self) -> Result<(), NoMemory>
        ensures { OnOk result (self.new ≡ comma_settled self.old) }
    {
        if self.comma {
            self.comma = false;
            self.word(b',')?;
        }
        Ok(())
    }

    /// Settles the pending `{`s before the next word. `loose`: that word isn't a `;`, so `;` may
    /// stand between them.
    #[inline(always)]
    fn settle(&mut self, loose: bool) -> Result<(), NoMemory>
        ensures { OnOk result (self.new ≡ settled loose self.old) }
    {
        if self.row == 0 {
            return Ok(());
        }
        let row = self.row;
        self.row = 0;
        self.walk.place(row, loose)
    }

    /// Takes the token of a word that begins with this byte, and gives the length of its text in
    /// bytes.
    fn word(&mut self, byte: u8) -> Result<usize, NoMemory>
        ensures word { OnOk result (self.new ≡ worded byte self.old) }
        ensures length { IfOk result (λ length. length ≡ first_ahead byte self.old) }
    {
        self.settle(byte != b';')?;
        self.walk.word(byte)
    }

    /// Takes a text outside documentation.
    fn read(&mut self, text: &[u8]) -> Result<(), NoMemory>
        ensures { OnOk result (self.new ≡ read text.now self.old) }
    {
        match opening_of(text) {
            Some(opening) => self.document(opening),
            None => self.read_code(text),
        }
    }

    /// Takes a text that begins no documentation.
    fn read_code(&mut self, text: &[u8]) -> Result<(), NoMemory>
        ensures { OnOk result (self.new ≡ read_code text.now self.old) }
    {
        // The name of a raw identifier is a text of its own.
        if text == b"r#".as_slice() {
            return Ok(());
        }
        if text == b",".as_slice() {
            self.comma = true;
            return Ok(());
        }
        self.words(text)?;
        self.arrow = text == b" => ".as_slice() || self.arrow;
        Ok(())
    }

    /// Takes a text that begins documentation.
    fn document(&mut self, opening: Opening) -> Result<(), NoMemory>
        ensures { OnOk result (self.new ≡ documented opening self.old) }
    {
        self.settle(true)?;
        self.walk.docs(opening.inner)?;
        self.within = if opening.block {
            Within::Block
        } else {
            Within::Line
        };
        Ok(())
    }

    /// Takes the words of a text, with or without blanks between them.
    fn words(&mut self, text: &[u8]) -> Result<(), NoMemory>
        ensures { OnOk result (self.new ≡ words_of 0 text.now self.old) }
    {
        let mut rest = text;
        while let Some((byte, behind)) = rest.split_first() {
            let length = self.begin_word(*byte)?;
            rest = skip(behind, length);
        }
        Ok(())
    }

    /// Takes the first byte of a word, and gives how many more bytes belong to the word.
    fn begin_word(&mut self, byte: u8) -> Result<usize, NoMemory>
        ensures { IfOk result (λ length. BeginsWord byte self.old length self.new) }
    {
        if byte == b'{' {
            self.raise()?;
            return Ok(0);
        }
        if byte == b' ' {
            return Ok(0);
        }
        Ok(self.word(byte)?.saturating_sub(1))
    }

    /// Adds a pending `{`.
    fn raise(&mut self) -> Result<(), NoMemory>
        ensures { OnOk result (self.new ≡ raised self.old) }
    {
        self.row = one_more(self.row)?;
        Ok(())
    }
}

/// The bytes without the first `count`.
fn skip(bytes: &[u8], count: usize) -> &[u8]
    ensures { result.now ≡ drop count bytes.now }
{
    &bytes[count.min(bytes.len())..]
}

/// Where in documentation the layout is after a break.
fn behind_line(within: Within) -> Within
    ensures { result ≡ behind_line within }
{
    match within {
        Within::Line => Within::Code,
        Within::Code | Within::Block | Within::End => within,
    }
}

/// Whether a `,` before the break is in no unit: after the last of several fields, or after an arm.
fn is_free(token: Break, arrow: bool) -> bool
    ensures { result ≡ is_free token arrow }
{
    token.blank == 65535 && (token.offset < 0 || arrow)
}

/// The kind of documentation comment that the text opens; `None` if it is no such opening mark.
fn opening_of(text: &[u8]) -> Option<Opening>
    ensures { result ≡ opening_of text.now }
{
    let inner = text == b"//!".as_slice() || text == b"/*!".as_slice();
    let block = text == b"/**".as_slice() || text == b"/*!".as_slice();
    if inner || block || text == b"///".as_slice() {
        Some(Opening { inner, block })
    } else {
        None
    }
}
