ghost use Rattle.std.specs.Prelude.{◌≡◌, ℕ, List, IfSome};
ghost use Rattle.std.specs.List.{AllByRecursion};
ghost use Rattle.message.specs.Request.{Request};
ghost use Rattle.sheet.specs.declared.fault.Fault.TheVariants as fault;
ghost use Rattle.sheet.specs.declared.line.LineError.TheVariants as error;
ghost use Rattle.sheet.specs.Text.{texts};
ghost use Rattle.sheet.specs.Words.{Typed, spaced};
ghost use Rattle.sheet.specs.Line.{head_of, request_of, told, request, reading, view_entry, line_of, ReadsField, Tells};
ghost use Rattle.sheet.specs.Written.{written, Fits};

use crate::fault::{Fault, Field};
use crate::numeral::{Base, byte_pairs, number};
use crate::words::words;
use message::request::RequestHead;
use std::alloc::{AllocError, Global};
use thiserror::Error;

// A request as a line has it, legal or not.
#[derive(Drop)]
pub struct Entry {
    pub head: RequestHead,
    pub data: Vec<u8>,
}

// Why there is no answer to a line.
#[derive(Clone, Copy, Debug, Error)]
pub enum LineError {
    #[error(transparent)]
    Fault(Fault),
    #[error("out of memory")]
    Memory(AllocError),
}

// By hand, as the next one: a derived `From` has no contract, and `Tells` names the error.
impl From<Field> for LineError {
    ghost from_gives = { λ field e. e ≡ error.Fault (fault.Field field) };

    fn from(field: Field) -> LineError {
        LineError::Fault(Fault::Field(field))
    }
}

impl From<AllocError> for LineError {
    ghost from_gives = { λ memory e. e ≡ error.Memory memory };

    fn from(memory: AllocError) -> LineError {
        LineError::Memory(memory)
    }
}

// The number that a field's word writes, where the field holds it.
fn read_field<N: TryFrom<u64>>(word: &[u8], base: Base, field: Field) -> Result<N, Field>
where
    N::Error: Drop,
    ensures { ReadsField N.try_from_gives base word.now field result }
{
    let value = number(word, base, u64::MAX).ok_or(field)?;
    N::try_from(value).map_err(|_| field)
}

// The first word at fault is the one that is told.
fn read_head(words: &[&[u8]; 6]) -> Result<RequestHead, Field>
    ensures { result ≡ head_of (texts words.now) }
{
    Ok(RequestHead {
        opcode: read_field(words[0], Base::Decimal, Field::Opcode)?,
        param: read_field(words[1], Base::Decimal, Field::Param)?,
        size: read_field(words[2], Base::Decimal, Field::Size)?,
        source: read_field(words[3], Base::Decimal, Field::Source)?,
        address: read_field(words[4], Base::Hexadecimal, Field::Address)?,
        mask: read_field(words[5], Base::Hexadecimal, Field::Mask)?,
    })
}

fn read_request(heap: Global, words: &[&[u8]; 6], data: &[u8]) -> Result<Entry, LineError>
    ensures { IfSome (view_entry result) (λ said. said ≡ told (request_of (texts words.now) «data».now)) }
{
    let head = read_head(words)?;
    let data = byte_pairs(heap, data)?.ok_or(Field::Data)?;
    Ok(Entry { head, data })
}

#[tactic(auto, using(crate::proofs::Fields::no_words, crate::proofs::Fields::miscounted))]
fn read_words(heap: Global, words: &[&[u8]]) -> Result<Option<Entry>, LineError>
    ensures { Tells result (reading (texts words.now)) }
{
    if words.is_empty() {
        return Ok(None);
    }
    match words.split_first_chunk() {
        Some((head, [])) => read_request(heap, head, &[]).map(Some),
        Some((head, [data])) => read_request(heap, head, data).map(Some),
        _ => Err(LineError::Fault(Fault::WordCount)),
    }
}

// The request of one line of a sheet, if the line has words. Those that have no blank and no `#` are read as they were typed.
pub fn read_line(heap: Global, line: &[u8]) -> Result<Option<Entry>, LineError>
    ensures said { Tells result (line_of line.now) }
    ensures typed { (ws : List (List ℕ)) → AllByRecursion Typed ws → line.now ≡ spaced ws → Tells result (reading ws) }
    ensures written { (q : Request) → Fits q → line.now ≡ written q → Tells result (request q) }
{
    let words = words(heap, line)?;
    read_words(heap, words.as_slice())
}
