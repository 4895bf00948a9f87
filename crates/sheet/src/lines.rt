ghost use Rattle.std.specs.Prelude.{◌≡◌, IfOk};
ghost use Rattle.std.specs.List.{slice_split};
ghost use Rattle.sheet.specs.Text.{line_feed, texts};
ghost use Rattle.sheet.specs.Lines.{lines_of};

use std::alloc::{AllocError, Global};

// What stands between the line feeds of a text.
fn pieces<'a>(heap: Global, text: &'a [u8]) -> Result<Vec<&'a [u8]>, AllocError>
    ensures { IfOk result (λ pieces. texts pieces.items ≡ slice_split line_feed text.now) }
{
    text.split(|byte| *byte == b'\n').collect(heap)
}

// The lines of a text, in their order, each without its line feed.
pub fn lines<'a>(heap: Global, text: &'a [u8]) -> Result<Vec<&'a [u8]>, AllocError>
    ensures { IfOk result (λ lines. texts lines.items ≡ lines_of text.now) }
{
    let Some((last, before)) = text.split_last() else {
        return Ok(Vec::new(heap));
    };
    // What stands behind the last line feed is a line only if it has a byte.
    if *last == b'\n' {
        pieces(heap, before)
    } else {
        pieces(heap, text)
    }
}
