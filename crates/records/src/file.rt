//! Whole files. The bytes are gone over once, and each record has to be one that a file may have there.

ghost use Rattle.std.specs.Prelude.{◌≡◌};
ghost use Rattle.records.specs.Format.{IsFile};
ghost use Rattle.records.specs.Stages.{follow};

use crate::reader::Records;
use crate::record::{Record, Token};

/// A whole record file, read without fault.
#[derive(Clone, Copy, Debug)]
pub struct File<'a> {
    bytes: &'a [u8],
    ghost is_file: { ∥ IsFile bytes.now ∥₁ },
}

/// Why bytes are no file: at this place they stop being one.
#[derive(Clone, Copy, Debug, PartialEq, Eq)]
pub struct Misshapen {
    /// How many bytes stand before the place.
    pub place: usize,
}

/// What a file still has to have.
#[derive(Clone, Copy)]
enum Stage {
    /// The header, and all that follows it.
    Start,
    /// Rules and edges, as many as there are, and the end.
    Body,
    /// Nothing more.
    Done,
}

impl Stage {
    ghost use Rattle.records.specs.Reading.{entry};

    /// The stage after `record`, if that may stand here. One `match` shows all stages and records.
    fn after(self, record: &Record) -> Option<Stage>
        ensures { result ≡ follow self (entry «record».now) }
    {
        match (self, record) {
            (Stage::Start, Record::Header(_)) => Some(Stage::Body),
            (Stage::Body, Record::Rule { .. } | Record::Edge(_)) => Some(Stage::Body),
            (Stage::Body, Record::End) => Some(Stage::Done),
            _ => None,
        }
    }
}

impl<'a> File<'a> {
    ghost use Rattle.records.specs.Reading.{bytes_of, Passes, Gives, Ranged, Reading, Exact};

    /// Reads the whole of `bytes`, or says where they stop being a file.
    pub fn read(bytes: &'a [u8]) -> Result<Self, Misshapen>
        ensures cases { Reading bytes.now result }
        ensures exact { Exact bytes.now result }
        ensures ranges { Ranged bytes.now }
    {
        let mut stage = Stage::Start;
        let mut end = 0;
        for Token { place, record } in Records::new(bytes) {
            stage = stage.after(&record).ok_or(Misshapen { place })?;
            end = place + record.size();
        }
        match stage {
            Stage::Done if end == bytes.len() => Ok(File { bytes }),
            _ => Err(Misshapen { place: end }),
        }
    }

    /// The records of the file in order, each with its byte place.
    pub fn records(&self) -> Records<'a>
        ensures passes { Passes (bytes_of self.now) result }
        ensures gives { Gives (bytes_of self.now) result }
    {
        Records::new(self.bytes)
    }
}
