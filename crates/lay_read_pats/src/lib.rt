//! Parsing of patterns.
//!
//! Each reader is proved equal to a function of the tokens ahead that `lay_node` defines. That
//! function reads exactly what the grammar spells.
#![tactic(auto)]

mod binds;
pub mod facts;
mod groups;
mod kinds;
mod pats;
mod reads;
mod rules;
pub mod structs;
mod values;

pub use lay_read_types::{ReadNone, read_attr, read_attrs, read_call};
pub use pats::pat_ahead;
pub use reads::{read_pat, read_pat_no_alt};
