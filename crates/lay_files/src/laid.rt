//! The trait of what has the layout of a file: a file, or an expression as the value of a constant.
ghost use Rattle.std.specs.Prelude.{true};
ghost use Rattle.lay_layout.specs.Document.{stream};
ghost use Rattle.lay_stream.specs.Fed.{Did};
ghost use Rattle.lay_code.specs.Out.{layout_of_file};
ghost use Rattle.lay_code.specs.declared.file.File.{File};
ghost use Rattle.lay_paren_defs.specs.Constant.{constant};
ghost use Rattle.lay_paren_defs.specs.Enclosed.{part};

use lay_code::{Expr, File};
use lay_out_code::{put_enclosed_constant, put_file};
use lay_stream::Emit;

/// What has the layout of a file: a file, or an expression, which stands for the constant with each
/// of its parts in parentheses.
pub(crate) trait Laid {
    /// The file.
    ghost file: { Self → File };

    /// Emits the layout of the file.
    fn put<E: Emit>(&self, out: &mut E) -> Result<(), E::Fault>
        ensures { Did E.meanings out.old (stream (layout_of_file (file self.now))) result out.new };
}

impl Laid for File {
    ghost file = { λ x. x };

    fn put<E: Emit>(&self, out: &mut E) -> Result<(), E::Fault> {
        put_file(out, self)
    }
}

impl Laid for Expr {
    ghost file = { λ x. constant (part true x) };

    fn put<E: Emit>(&self, out: &mut E) -> Result<(), E::Fault> {
        put_enclosed_constant(out, self)
    }
}
