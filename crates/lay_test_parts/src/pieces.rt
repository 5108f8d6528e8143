//! What follows a gap, and the text of a piece.

use crate::fixtures::is;
use lay_lex::{after_gap, text_of_piece};
use lay_token::Kind;

#[test]
fn gaps_and_texts(rt: HostRuntime) {
    assert!(rt; after_gap(" /*a*/b") == Some("b"));
    is(&rt, text_of_piece(Kind::RawIdent, "r#a"), b"a");
}
