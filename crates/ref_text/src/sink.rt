//! What a trace is written to.

ghost use Rattle.std.specs.Prelude.{◌≡◌, ◌<◌, ◌≤◌, ◌||◌, [], length, take, IfOk, OnOk, OnErr, is_err, false};
ghost use Rattle.std.specs.Io.KnownBytes.{Appends};
ghost use Rattle.ref_text.specs.Streams.{AppendsPrefix};

use std::io::Write;

/// Writing failed.
#[derive(Clone, Copy, Debug, PartialEq, Eq)]
pub struct WriteFailed;

/// What a trace is written to. Unlike `std::io::Write` it tells, in contracts, whether a write has failed.
pub trait TextSink {
    ghost use Rattle.std.specs.Prelude.{ℕ, List, Option, Bool};

    /// The bytes that have gone out, where they are known.
    ghost contents: { Self → Option (List ℕ) };

    /// Whether a write has failed.
    ghost has_failed: { Self → Bool };

    /// Writes all the bytes, and sees that they go out. Where that fails, a prefix of them may have gone out.
    fn write_text(&mut self, text: &[u8]) -> Result<(), WriteFailed>
        ensures ok { OnOk result (Appends (contents self.old) (contents self.new) text.now) }
        ensures err { OnErr result (AppendsPrefix (contents self.old) (contents self.new) text.now) }
        ensures failed { has_failed self.new ≡ (has_failed self.old || is_err result) };
}

/// Any writer as a sink. Each error is a failure, an interruption too, and so is a write that takes nothing of what
/// was left.
#[derive(Drop)]
pub struct ToWriter<W> {
    writer: W,
    has_failed: bool,
}

impl<W: Write> ToWriter<W> {
    /// A sink that hasn't failed. Takes no memory.
    pub fn new(writer: W) -> Self
        ensures bytes { ⟦<ToWriter<W> as TextSink>⟧.contents result ≡ W.contents writer }
        ensures fresh { ⟦<ToWriter<W> as TextSink>⟧.has_failed result ≡ false }
    {
        ToWriter {
            writer,
            has_failed: false,
        }
    }

    /// Writes at least one byte, and answers how many, or fails with none.
    fn write_some(&mut self, text: &[u8]) -> Result<usize, WriteFailed>
        ensures ok { IfOk result (λ n. (0 < n) × (n ≤ length text.now)
            × Appends (W.contents self.old.writer) (W.contents self.new.writer) (take n text.now)) }
        ensures err { OnErr result (Appends (W.contents self.old.writer) (W.contents self.new.writer) []) }
        ensures failed { self.new.has_failed ≡ (self.old.has_failed || is_err result) }
    {
        match self.writer.write(text) {
            Ok(0) | Err(_) => {
                self.has_failed = true;
                Err(WriteFailed)
            }
            Ok(count) => Ok(count),
        }
    }
}

impl<W: Write> TextSink for ToWriter<W> {
    ghost contents = { λ s. W.contents s.writer };

    ghost has_failed = { λ s. s.has_failed };

    fn write_text(&mut self, text: &[u8]) -> Result<(), WriteFailed> {
        let mut rest = text;
        while !rest.is_empty() {
            let count = self.write_some(rest)?;
            let (_, behind) = rest.split_at(count);
            rest = behind;
        }
        if self.writer.flush().is_err() {
            self.has_failed = true;
            return Err(WriteFailed);
        }
        Ok(())
    }
}
