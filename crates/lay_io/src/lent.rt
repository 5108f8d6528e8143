//! A sink behind a mutable reference.
ghost use Rattle.std.specs.Prelude.{◌≡◌};

use crate::outside::{Failed, Sink};

/// A sink that passes each write on to the sink that was lent, and gives its result. So a `&mut`
/// sink can be used where a sink is asked for.
#[derive(Drop)]
pub struct Lent<'a, K: Sink> {
    sink: &'a mut K,
}

impl<'a, K: Sink> Lent<'a, K> {
    ghost use Rattle.lay_io.specs.Lending.{lent_sink, loan_of};

    /// Wraps the sink for as long as it is lent. It allocates nothing.
    pub fn new(sink: &'a mut K) -> Lent<'a, K>
        ensures now { lent_sink result ≡ sink.entry.now }
        ensures same_reference { loan_of result ≡ sink.entry.ghost_name }
    {
        Lent { sink }
    }
}

impl<'a, K: Sink> Sink for Lent<'a, K> {
    ghost use Rattle.lay_io.specs.Lending.{lent_sink, loan_of};

    ghost written = { λ s. K.written (lent_sink s) };

    ghost faults = { λ s. K.faults (lent_sink s) };

    ghost loan = { loan_of };

    ghost wrote = { λ s piece answer t. K.wrote (lent_sink s) piece answer (lent_sink t) };

    fn write(&mut self, piece: &[u8]) -> Result<(), Failed> {
        self.sink.write(piece)
    }
}
