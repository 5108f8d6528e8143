//! Inputs in memory.
ghost use Rattle.std.specs.Prelude.{◌≡◌, ◌≢◌, ◌⊎◌, ◌↔◌, [], None, Some, Contains, unwrap_or, IsErr, IsNone, IsOk, IsSome};
ghost use Rattle.std.specs.Io.{ReadsAtMost};
ghost use Rattle.lay_io.specs.declared.outside.Which.{Which};
ghost use Rattle.lay_io.specs.Stored.{content_of, left_after};
ghost use Rattle.lay_io.specs.Calls.{Takes, left_of};
ghost use Rattle.lay_io.specs.Faults.{CountsOnce, HasCause, one_more};

use crate::outside::{Failed, Inputs, Which};
use crate::stored::{NamedFile, content, content_or_empty, take_next};
use lay_text::List;

/// Inputs in memory that never fail. A file that isn't in the list is empty.
#[derive(Debug, Drop)]
pub struct QuietInputs {
    stdin: List<u8>,
    files: List<NamedFile>,
    chosen: Option<Which>,
    taken: usize,
    ghost fresh: { chosen ≡ None → taken ≡ 0 },
}

impl QuietInputs {
    /// Inputs with none chosen, and these bytes to be read.
    pub fn new(stdin: List<u8>, files: List<NamedFile>) -> QuietInputs
        ensures chosen { ⟦<QuietInputs as Inputs>⟧.chosen result ≡ None }
        ensures left { (which : Which) → ⟦<QuietInputs as Inputs>⟧.left result which
            ≡ Some (unwrap_or (content_of stdin files which) []) }
    {
        QuietInputs {
            stdin,
            files,
            chosen: None,
            taken: 0,
        }
    }
}

impl Inputs for QuietInputs {
    ghost left = { λ s w. left_after s.chosen s.taken (Some (unwrap_or (content_of s.stdin s.files w) [])) w };

    ghost chosen = { λ s. s.chosen };

    ghost faults = { λ _. 0 };

    fn choose(&mut self, which: Which) {
        self.chosen = Some(which);
    }

    fn read(&mut self, buf: &mut [u8]) -> Result<usize, Failed>
        requires { IsSome (⟦<QuietInputs as Inputs>⟧.chosen self.old) }

        // As the trait promises for all inputs.
        ensures bound { ReadsAtMost result buf.new }
        ensures chosen { ⟦<QuietInputs as Inputs>⟧.chosen self.new
            ≡ ⟦<QuietInputs as Inputs>⟧.chosen self.old }
        ensures others { (w : Which) → ⟦<QuietInputs as Inputs>⟧.chosen self.old ≢ Some w
            → ⟦<QuietInputs as Inputs>⟧.left self.new w
            ≡ ⟦<QuietInputs as Inputs>⟧.left self.old w }
        ensures bytes { let chosen = ⟦<QuietInputs as Inputs>⟧.chosen self.old in
            Takes (left_of chosen (⟦<QuietInputs as Inputs>⟧.left self.old))
            (left_of chosen (⟦<QuietInputs as Inputs>⟧.left self.new)) result buf.new }
        ensures cause { HasCause 0 0 result }

        ensures never { IsOk result }
    {
        match &self.chosen {
            None => unreachable!(),
            Some(which) => {
                let all = content_or_empty(&self.stdin, &self.files, which);
                Ok(take_next(all, &mut self.taken, buf))
            }
        }
    }
}

/// Inputs in memory of which the reads with the numbers in `fail`, counted from 0, fail. A file
/// that isn't in the list fails at each read. Each failure is counted once.
#[derive(Debug, Drop)]
pub struct MemoryInputs {
    stdin: List<u8>,
    files: List<NamedFile>,
    fail: List<u64>,
    chosen: Option<Which>,
    taken: usize,
    reads: u64,
    faults: u64,
    ghost fresh: { chosen ≡ None → taken ≡ 0 },
}

impl MemoryInputs {
    ghost use Rattle.lay_io.specs.Devices.{failing_reads, reads_of};

    /// Inputs with none chosen, and these bytes to be read.
    pub fn new(stdin: List<u8>, files: List<NamedFile>, fail: List<u64>) -> MemoryInputs
        ensures chosen { ⟦<MemoryInputs as Inputs>⟧.chosen result ≡ None }
        ensures left { (which : Which) → ⟦<MemoryInputs as Inputs>⟧.left result which
            ≡ content_of stdin files which }
        ensures faults { ⟦<MemoryInputs as Inputs>⟧.faults result ≡ 0 }
        ensures reads { reads_of result ≡ 0 }
        ensures failing { failing_reads result ≡ fail }
    {
        MemoryInputs {
            stdin,
            files,
            fail,
            chosen: None,
            taken: 0,
            reads: 0,
            faults: 0,
        }
    }
}

impl Inputs for MemoryInputs {
    ghost use Rattle.lay_io.specs.Devices.{failing_reads, reads_of};

    ghost left = { λ s w. left_after s.chosen s.taken (content_of s.stdin s.files w) w };

    ghost chosen = { λ s. s.chosen };

    ghost faults = { λ s. s.faults };

    fn choose(&mut self, which: Which)
        requires { ⟦<MemoryInputs as Inputs>⟧.chosen self.old ≡ None }
        ensures chosen { ⟦<MemoryInputs as Inputs>⟧.chosen self.new ≡ Some which }
        ensures left { (w : Which) → ⟦<MemoryInputs as Inputs>⟧.left self.new w
            ≡ ⟦<MemoryInputs as Inputs>⟧.left self.old w }
        ensures faults { ⟦<MemoryInputs as Inputs>⟧.faults self.new
            ≡ ⟦<MemoryInputs as Inputs>⟧.faults self.old }
        ensures reads { reads_of self.new ≡ reads_of self.old }
        ensures failing { failing_reads self.new ≡ failing_reads self.old }
    {
        self.chosen = Some(which);
    }

    fn read(&mut self, buf: &mut [u8]) -> Result<usize, Failed>
        requires { IsSome (⟦<MemoryInputs as Inputs>⟧.chosen self.old) }

        // As the trait promises for all inputs.
        ensures bound { ReadsAtMost result buf.new }
        ensures chosen { ⟦<MemoryInputs as Inputs>⟧.chosen self.new
            ≡ ⟦<MemoryInputs as Inputs>⟧.chosen self.old }
        ensures others { (w : Which) → ⟦<MemoryInputs as Inputs>⟧.chosen self.old ≢ Some w
            → ⟦<MemoryInputs as Inputs>⟧.left self.new w
            ≡ ⟦<MemoryInputs as Inputs>⟧.left self.old w }
        ensures bytes { let chosen = ⟦<MemoryInputs as Inputs>⟧.chosen self.old in
            Takes (left_of chosen (⟦<MemoryInputs as Inputs>⟧.left self.old))
            (left_of chosen (⟦<MemoryInputs as Inputs>⟧.left self.new)) result buf.new }
        ensures cause { HasCause (⟦<MemoryInputs as Inputs>⟧.faults self.old)
            (⟦<MemoryInputs as Inputs>⟧.faults self.new) result }

        // A read fails exactly if its number is in the list of failing reads, or the chosen file
        // isn't there.
        ensures failed { IsErr result ↔ (Contains (failing_reads self.old) (reads_of self.old)
            ⊎ IsNone (left_of (⟦<MemoryInputs as Inputs>⟧.chosen self.old)
            (⟦<MemoryInputs as Inputs>⟧.left self.old))) }

        // Each failure is counted once, and each read is counted. The list of failing reads stays
        // as it was.
        ensures once { CountsOnce (⟦<MemoryInputs as Inputs>⟧.faults self.old)
            (⟦<MemoryInputs as Inputs>⟧.faults self.new) result }
        ensures numbered { reads_of self.new ≡ one_more (reads_of self.old) }
        ensures same { failing_reads self.new ≡ failing_reads self.old }
    {
        let number = self.reads;
        self.reads = self.reads.saturating_add(1);
        if !self.fail.as_slice().contains(&number) {
            if let Some(which) = &self.chosen {
                if let Some(all) = content(&self.stdin, &self.files, which) {
                    return Ok(take_next(all, &mut self.taken, buf));
                }
            }
        }
        self.faults = self.faults.saturating_add(1);
        Err(Failed)
    }
}
