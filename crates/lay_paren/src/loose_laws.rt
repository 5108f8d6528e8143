//! Whether a tree lacks nothing but parentheses, decided on the tree with each part in parentheses.
//!
//! In parentheses a part may stand anywhere. So the tree with each part in parentheses is well
//! formed exactly if the tree itself is loose: [`enclosed_law`].

mod laws;

pub use laws::enclosed_law;
