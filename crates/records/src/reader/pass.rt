//! How a pass begins and goes on. Each record is found where the one before it ends.

ghost use Rattle.std.specs.Prelude.{◌-◌, length};
ghost use Rattle.records.specs.Reading.{Begins, Passes, Steps};
ghost use Rattle.std.specs.Iterator.{at_most};

use super::Records;
use crate::front::front;
use crate::record::Token;

impl<'a> Records<'a> {
    /// A pass that begins at the start of `input`.
    pub(crate) fn new(input: &'a [u8]) -> Self
        ensures begins { Begins input.now result }
        ensures passes { Passes input.now result }
    {
        Records { input, place: 0 }
    }
}

impl<'a> Iterator for Records<'a> {
    type Item = Token<'a>;

    ghost next_gives = { Steps };

    ghost remaining = { λ r. at_most (length r.input.now - r.place) };

    fn next(&mut self) -> Option<Token<'a>> {
        let place = self.place;
        let record = front(&self.input[place..])?;
        self.place += record.size();
        Some(Token { place, record })
    }
}
