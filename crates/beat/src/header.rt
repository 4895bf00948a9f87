// What is alike in every beat of a message, on either channel; no request is denied. Heads and beats keep these fields
// themselves: callers build them, and name them as the bus does.
#[derive(Clone, Copy, PartialEq)]
pub struct Header {
    // Opcode and param are numbers, as in the heads and beats that are compared by it.
    pub opcode: u8,
    pub param: u8,
    pub size: u8,
    pub source: u8,
    pub address: u32,
    pub denied: bool,
}
