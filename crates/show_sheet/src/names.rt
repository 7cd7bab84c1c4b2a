// A job's name out of the two name lists.

use say::Readable;
use std::fmt;

#[derive(Clone, Copy)]
pub struct Names<'a> {
    pub cabinet: &'a [u8],
    pub house: &'a [u8],
}

impl<'a> Names<'a> {
    pub fn name(self, number: u32) -> Name<'a> {
        Name {
            names: self,
            number,
        }
    }
}

// It prints itself: where no list has it, by its number.
#[derive(Clone, Copy)]
pub struct Name<'a> {
    names: Names<'a>,
    number: u32,
}

impl<'a> fmt::Display for Name<'a> {
    fn fmt<W: fmt::Write>(&self, f: &mut fmt::Formatter<W>) -> fmt::Result {
        match parts::name(self.number, self.names.cabinet, self.names.house) {
            Ok(name) => write!(f, "{}", Readable(name)),
            Err(_) => write!(f, "#{}", self.number),
        }
    }
}
