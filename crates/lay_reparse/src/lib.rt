//! Every text that a layout can give parses back to the same tree. No code runs here: each function
//! is a theorem, which its contract states.
//!
//! A layout gives one text for each choice of its breaks and groups. [`reparse_law`] says that
//! whatever is chosen, the text of a file's layout reads to that file; with [`unique_law`],
//! formatting again changes nothing. The argument, and the folder of `proofs/` that holds each part
//! of it:
//!
//! - **Characters and bytes** (`texts`: `Characters`, `Laid`, `CleanPieces`, `DocTexts`,
//!   `LaidTokens`). A text is laid out in bytes and lexed by characters. What is laid out of a
//!   token is a piece of its kind again, and holds no CR, so folding line ends leaves a layout's
//!   text as it is.
//! - **Borders and moves** (`borders`: `Need`, `OperatorRuns`, `Border`, `Move`). Whether two
//!   pieces stay two tokens is decided where they meet. A border, after a piece, says what it needs
//!   of all that may follow: that no letter makes a word longer, no character an operator, that a
//!   line ends. A piece, a blank, a newline is a move from border to border: it knows which
//!   characters it adds, and that they lex to the tokens of its part, whatever meets the border.
//! - **A condition that computes** (`forms`: `Opened`, `Passes`, `Walk`, `Texts`, `Breaks`,
//!   `Bodies`, `Sound`, `Balance`). `Passes` says that a form leads from one border to another:
//!   each piece of it meets what the border before it needs, and no delimiter stays open. It speaks
//!   of the form alone, of no width and no frame. Texts, breaks and bodies are moves, so by one
//!   induction over all signs of the notation (`Sound`) a form that passes is one, in every frame;
//!   and the tokens that spell it are balanced (`Balance`).
//! - **A line for each part** (`forms/Rules`, `file/Nodes`). Lists, bodies, fields and braces pass
//!   where their parts do. So each node is shown to pass in about a line for each of its parts, and
//!   a new node costs no more. Types pass by one induction over their family (`file/TypeParts`,
//!   `TypeArgs`, `TypeKinds`, `Types`), and generic parameters and where clauses by that
//!   (`file/Generics`). Patterns pass by an induction of their own (`file/PatternParts`,
//!   `PatternKinds`, `Patterns`). Visibilities, fields, variants, and the heads of functions and of
//!   items pass by all of these (`forms/Vis`, `Fields`, `Functions`, `Heads`). So do items, by one
//!   induction, at each site where they are good (`file/ItemHeads`, `Items`).
//! - **Files** (`file`: `FirstText`, `forms/HeadsFirst`, `file/FirstItems`, `Singles`, `Reparse`,
//!   `OneAnswer`). The text begins with nothing that would be taken for a byte order mark or a
//!   shebang, and the rest follows: what it lexes to is balanced, and spells the file.
//! - **Each input** (`file`: `SomeTokens`, `SomeNesting`, `SomeAnswer`). A text is gaps and pieces
//!   to its end, or up to a place where neither stands; its tokens are balanced, or a delimiter has
//!   no partner; and the longest run of inner attributes and items that they begin with is all of
//!   them, or a token stands after it.
//! - **Token lists** (`tokens`: `Table`, `Neighbours`, `Rows`, `Lexed`, `TokenLists`, `Within`).
//!   What stands between two tokens of a list is told by a table. Where that leaves nothing, the
//!   right token meets what the left one needs, because the list passes the test of token lists. So
//!   a list passes as a part of any node, and so does a group.
//! - **Texts joined** (`join`: `Joining`). The same question for any two texts, without a layout.
#![tactic(auto)]

ghost use Rattle.std.specs.Prelude.{◌≡◌, ◌≤◌, ◌⊎◌, ◌↔◌, ℕ, List, IsTrue, IsUtf8};
ghost use Rattle.lay_layout.specs.Anyway.{Anyway};
ghost use Rattle.lay_text.specs.declared.refusal.Refusal.{Refusal};
ghost use Rattle.lay_token.specs.declared.token.Token.{Token};
ghost use Rattle.lay_form.specs.Depth.{least_depth};
ghost use Rattle.lay_form.specs.Layout.{document};
ghost use Rattle.lay_form.specs.Pieces.{are_pieces};
ghost use Rattle.lay_node.specs.declared.token.Listed.{Listed};
ghost use Rattle.lay_node.specs.tokens.Lexed.{IsTokenList, ReadsTokens, is_token_list};
ghost use Rattle.lay_node.specs.tokens.Lists.{token_list};
ghost use Rattle.lay_code.specs.nodes.Code.{about_expr};
ghost use Rattle.lay_code.specs.nodes.Exprs.{placed};
ghost use Rattle.lay_code.specs.nodes.File.{form_of_file};
ghost use Rattle.lay_code.specs.Out.{layout_of_file, out};
ghost use Rattle.lay_code.specs.Reading.{IsRefusedAt, Reads, ReadsAt, top};
ghost use Rattle.lay_reparse.specs.Join.{Joinable, Joins};
ghost use Rattle.lay_reparse.specs.Reparse.{IsSpelled, IsSpelledExpr};
ghost use Rattle.lay_code.specs.Written.{Written};
ghost use Rattle.lay_code.specs.declared.exprs.Expr.{Expr};
ghost use Rattle.lay_code.specs.declared.exprs.Place.{Place};
ghost use Rattle.lay_code.specs.declared.file.File.{File};

/// Every text that the layout of a well-formed file can give, whichever breaks are newlines, parses
/// back to the file: at each depth limit that the file's form needs, or more. At the least such
/// depth the file's tokens spell it. The text that the printer makes does so at the depth limit of
/// files, if the file is no deeper. So the text that is made of parsed bytes parses to the same
/// tree, and by [`unique_law`] to no other: formatting it again gives the same text.
///
/// An expression that stands in a place, and whose tokens are pieces, is spelled at the least depth
/// of its form, and so, by `form_law` of `lay_form`, at each greater one and at no lower one.
pub fn reparse_law()
    ensures each_text { (file : File) (depth : ℕ) (text : List ℕ)
        → Written file → least_depth (form_of_file file) ≤ depth → Anyway (layout_of_file file) text
        → ReadsAt depth text file }
    ensures attained { (file : File) → Written file
        → IsSpelled file (least_depth (form_of_file file)) }
    ensures expr_attained { (x : Expr) (place : Place) → IsTrue (placed (about_expr x) place)
        → IsTrue (are_pieces (about_expr x).form)
        → IsSpelledExpr x (least_depth (about_expr x).form) }
    ensures own_text { (file : File) → Written file → least_depth (form_of_file file) ≤ top
        → Reads (out file) file }
    ensures again { (bytes : List ℕ) (file : File) → Reads bytes file → Reads (out file) file }
{}

/// Every text that the layout of a token list can give lexes to the tokens of the list. The test of
/// token lists, which compares neighbours, accepts exactly the lists that some text lexes to and
/// whose documentation can be laid out.
pub fn token_list_law()
    ensures reads { (tokens : List Listed) (text : List ℕ)
        → IsTrue (is_token_list tokens) → Anyway (document (token_list tokens)) text
        → ReadsTokens text tokens }
    ensures decides { (tokens : List Listed) → IsTrue (is_token_list tokens) ↔ IsTokenList tokens }
{}

/// If two texts are `Joinable`, the tokens of the joined text are the tokens of both.
pub fn join_law()
    ensures { (left right : List ℕ) (a b : List Token)
        → IsUtf8 left → IsUtf8 right → Joinable left right a b → Joins left right a b }
{}

/// At each depth limit bytes have one result: they parse to one file, or are refused with one error
/// at one place, and never both.
pub fn unique_law()
    ensures some_answer { (depth : ℕ) (bytes : List ℕ)
        → ((file : File) × ReadsAt depth bytes file)
        ⊎ ((refusal : Refusal) × IsRefusedAt depth bytes refusal) }
    ensures one_file { (depth : ℕ) (bytes : List ℕ) (file other : File)
        → ReadsAt depth bytes file → ReadsAt depth bytes other → other ≡ file }
    ensures one_refusal { (depth : ℕ) (bytes : List ℕ) (refusal other : Refusal)
        → IsRefusedAt depth bytes refusal → IsRefusedAt depth bytes other → refusal ≡ other }
    ensures never_both { (depth : ℕ) (bytes : List ℕ) (file : File) (refusal : Refusal)
        → ReadsAt depth bytes file → IsRefusedAt depth bytes refusal → ⊥ }
{}
