// The fields of action records: numbers of one, two and four bytes, bits and strings.
#![tactic(auto)]

mod field;
mod string;

// The output, how far its bytes go, and whether every field so far holds its value.
#[derive(Drop)]
pub struct Coder<'a> {
    pub out: &'a mut [u8],
    pub end: usize,
    pub holds: bool,
}
