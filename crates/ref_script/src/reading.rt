//! Reading a text whole, before anything of it is used.

ghost use Rattle.std.specs.Prelude.{◌≡◌, ◌<◌, ◌≤◌, ◌||◌, length, Ok, IfOk, IfErr, IfSome, vec_len};
ghost use Rattle.ref_script.specs.Answers.{is_cannot_read};
ghost use Rattle.ref_script.specs.Lines.{most_bytes};
ghost use Rattle.ref_script.specs.TextReading.{ReadsText, ReadsMore, IsReadingFault, IsReadingFailure};

use ref_text::{TextFault, TextSource};
use std::alloc::Allocator;

/// The greatest length of a text, in bytes.
pub const MAX_TEXT: usize = 4_194_304;

/// How many bytes are asked for at a time.
const CHUNK: usize = 65_536;

/// Where each read puts its bytes.
fn new_chunk<A: Allocator>(alloc: A) -> Result<Vec<u8, A>, TextFault>
    ensures ok { IfOk result (λ v. 0 < vec_len v) }
    ensures err { IfErr result (λ e. e ≡ TextFault.NoMemory) }
{
    Ok(vec![in alloc; 0u8; CHUNK]?)
}

/// One read, whose bytes go to the end of the text. Answers how many they are: 0 only at the end.
fn read_more<R: TextSource, A: Allocator>(
    reader: &mut R,
    chunk: &mut Vec<u8, A>,
    text: &mut Vec<u8, A>,
) -> Result<usize, TextFault>
    requires { 0 < vec_len chunk.old }
    ensures bytes { IfOk result (λ n. ReadsMore (R.remaining reader.old)
        (R.remaining reader.new) text.old.items text.new.items n) }
    ensures room { vec_len chunk.new ≡ vec_len chunk.old }
    ensures kinds { IfErr result IsReadingFailure }
    ensures failed { R.has_failed reader.new ≡ (R.has_failed reader.old || is_cannot_read result) }
{
    let count = reader.read(chunk.as_mut_slice())?;
    let (bytes, _) = chunk.as_slice().split_at(count);
    text.extend_from_slice(bytes)?;
    Ok(count)
}

/// All of a text that isn't too long. Where it is, reading stops soon behind the first byte too many. The other faults
/// are `CannotRead`, where a read failed, and `NoMemory`.
pub fn text_of<R: TextSource, A: Allocator + Copy>(
    alloc: A,
    reader: &mut R,
) -> Result<Vec<u8, A>, TextFault>
    ensures text { IfSome (R.remaining reader.old) (λ text. ReadsText text result) }
    ensures short { IfOk result (λ v. length v.items ≤ most_bytes) }
    ensures kinds { IfErr result IsReadingFault }
    ensures failed { R.has_failed reader.new ≡ (R.has_failed reader.old || is_cannot_read result) }
{
    let mut text = Vec::new(alloc);
    let mut chunk = new_chunk(alloc)?;
    while text.len() <= MAX_TEXT {
        if read_more(reader, &mut chunk, &mut text)? == 0 {
            return Ok(text);
        }
    }
    Err(TextFault::TooLong)
}
