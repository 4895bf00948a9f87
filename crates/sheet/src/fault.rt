use thiserror::Error;

// The fields of a request, in the order in which a line has them. The text of one says how it fails to be read.
#[derive(Clone, Copy, Debug, Error)]
pub enum Field {
    #[error("OPCODE is no decimal number up to 255")]
    Opcode,
    #[error("PARAM is no decimal number up to 255")]
    Param,
    #[error("SIZE is no decimal number up to 255")]
    Size,
    #[error("SOURCE is no decimal number up to 255")]
    Source,
    #[error("ADDRESS is no hexadecimal number of 32 bits")]
    Address,
    #[error("MASK is no hexadecimal number of 64 bits")]
    Mask,
    #[error("DATA is no row of hexadecimal byte pairs")]
    Data,
}

// Why a line cannot be read.
#[derive(Clone, Copy, Debug, Error)]
pub enum Fault {
    #[error("not the six words of a request, or seven with its data")]
    WordCount,
    #[error(transparent)]
    Field(Field),
}
