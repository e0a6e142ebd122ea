// `large`: maps a sample and checks what comes of it, and makes ready the line to be said.

ghost use Rattle.std.specs.Prelude.{[], IfOk, IfErr};
ghost use Rattle.turbomap.specs.Asking.{large_asked};
ghost use Rattle.turbomap.specs.Prepared.{IsMade, IsTextRefusal};

use crate::line::large_line;
use crate::reading::LargeWords;
use crate::ready::{Ready, no_output};
use crate::refusal::Refusal;
use std::alloc::Global;
use tm_texts::large_sample;

/// Maps the sample and checks what comes of it. No store is called: there are no files, and so no texts.
pub fn make_large<'a>(alloc: Global, words: LargeWords) -> Result<Ready<'a>, Refusal>
    ensures ready { IfOk result (IsMade (large_asked words) []) }
    ensures refused { IfErr result (IsTextRefusal (large_asked words) []) }
{
    let large = large_sample(alloc, words.number, words.k, words.d)?;
    let line = large_line(alloc, words.number, large)?;
    Ok(no_output(alloc, line)?)
}
