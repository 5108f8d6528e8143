//! The trait of what a layout is fed to: printers, and lists of tokens.
ghost use Rattle.std.specs.Prelude.{ℕ, ◌<◌, [], ◌∷◌};
ghost use Rattle.lay_layout.specs.declared.layout.Tok.{Tok};
ghost use Rattle.lay_layout.specs.declared.layout.Tok.TheVariants as tok;
ghost use Rattle.lay_stream.specs.Fed.{Meanings, Did};

use lay_layout::Break;

/// Takes a layout, token by token.
pub trait Emit {
    /// The error of a call.
    type Fault;

    /// The ghost state: the tokens that were fed, the open groups, the count of faults, whether a
    /// call failed, why it did, and the loans that are held.
    ghost meanings: { Meanings Self Self.Fault };

    /// Takes a text.
    fn text(&mut self, text: &[u8]) -> Result<(), Self::Fault>
        ensures { Did meanings self.old (tok.Text text.now ∷ []) result self.new };

    /// Takes a break.
    fn brk(&mut self, token: Break) -> Result<(), Self::Fault>
        ensures { Did meanings self.old (tok.Break token ∷ []) result self.new };

    /// Begins a group.
    fn begin(&mut self, consistent: bool, offset: i8) -> Result<(), Self::Fault>
        ensures { Did meanings self.old (tok.Begin consistent offset ∷ []) result self.new };

    /// Ends the innermost open group.
    fn end(&mut self) -> Result<(), Self::Fault>
        requires { 0 < meanings.groups self.old }
        ensures { Did meanings self.old (tok.End ∷ []) result self.new };
}
