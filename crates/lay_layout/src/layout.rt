//! Layout tokens: texts, breaks and groups.
ghost use Rattle.std.specs.Prelude.{◌≡◌, ◌+◌, ◌++◌, ◌∷◌, Bool, List, ℤ, length};
ghost use Rattle.lay_layout.specs.declared.layout.Break.{Break};
ghost use Rattle.lay_layout.specs.declared.layout.Tok.{Tok};
ghost use Rattle.lay_layout.specs.declared.layout.Tok.TheVariants as tok;
ghost use Rattle.lay_layout.specs.Anyway.{Anyway};
ghost use Rattle.lay_layout.specs.Document.{Document, ahead, flat, outside, render, space_of, start, stream, text_of, width_of_break};
ghost use Rattle.lay_layout.specs.Machine.{IsClosed, measure, reach, shown, space, text};

use lay_text::Text;

/// What a break writes beside blanks and a newline.
#[derive(Clone, Copy, Debug, PartialEq, Eq)]
pub enum Mark {
    /// Nothing.
    Absent,
    /// `,`
    Comma,
    /// `{`
    OpenBrace,
    /// `}`
    CloseBrace,
}

/// A place where a line may be broken.
///
/// If the line is broken here, `before` ends it, and the next line begins with the indent plus
/// `offset` in blanks and then `after`. If it isn't, `blank` blanks and then `instead` are written.
#[derive(Clone, Copy, Debug, PartialEq, Eq)]
pub struct Break {
    pub offset: i8,
    pub blank: u16,
    pub before: Mark,
    pub after: Mark,
    pub instead: Mark,
    /// The line is never broken here; but the width that is measured before it ends here.
    pub never: bool,
}

/// One layout token.
#[derive(Debug, Drop)]
pub enum Tok {
    /// A text, written as it is.
    Text(Text),
    /// A place where a line may be broken.
    Break(Break),
    /// A group begins. It is laid out flat if it fits. Otherwise all its breaks are newlines if it
    /// is consistent; if it isn't, only those after which the next part doesn't fit.
    Begin { consistent: bool, offset: i8 },
    /// The innermost open group ends.
    End,
}

/// How the content of a group is laid out.
#[derive(Clone, Copy, Debug, PartialEq, Eq)]
pub enum Frame {
    /// No break is a newline.
    Flat,
    /// Breaks may be newlines: all of them if `consistent`. `indent` counts blanks.
    Broken { consistent: bool, indent: u64 },
}

/// The laws of layouts, for every document and every list of layout tokens. (No code runs.)
///
/// Laying out the tokens of a document one by one gives the text of the document. A list of tokens
/// is the flattening of a document exactly if each of its groups is closed, and then of one
/// document only. What is measured is the same in tokens and in documents: of a group its flat
/// width, of a break its own width, each plus what is ahead up to the next break. If the tokens of
/// a document come before others, the text and the space after them are those of the document
/// before what follows it. If no choice depends on the space, the text of a document is one of
/// those that it may be laid out as.
pub fn layout_law()
    ensures same_text { (d : Document) → text (stream d) ≡ text_of d }
    ensures closed { (d : Document) → IsClosed 0 (stream d) }
    ensures some_document { (s : List Tok) → IsClosed 0 s → (d : Document) × (stream d ≡ s) }
    ensures one_document { (d e : Document) → stream d ≡ stream e → d ≡ e }
    ensures measured_group { (c : Bool) (o : ℤ) (inner rest : Document) (more : List Tok)
        → measure (tok.Begin c o) (stream inner ++ tok.End ∷ (stream rest ++ more))
        ≡ flat inner + ahead rest (reach 0 more) }
    ensures measured_break { (b : Break) (rest : Document) (more : List Tok)
        → measure (tok.Break b) (stream rest ++ more)
        ≡ width_of_break b + ahead rest (reach 0 more) }
    ensures shown_front { (d : Document) (more : List Tok)
        → shown (stream d ++ more) (length (stream d))
        ≡ (render d outside start (reach 0 more)).text }
    ensures space_front { (d : Document) (more : List Tok)
        → space (stream d ++ more) (length (stream d))
        ≡ space_of (render d outside start (reach 0 more)) }
    ensures anyway { (d : Document) → Anyway d (text_of d) }
{}
