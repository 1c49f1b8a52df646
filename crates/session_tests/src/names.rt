//! Messages that have a name.

use crate::words::bytes_of;
use plain_data::OutOfMemory;
use std::alloc::Global;

#[derive(Drop)]
struct Named {
    name: String,
    message: Vec<u8>,
}

/// Messages that have a name.
#[derive(Drop)]
pub struct Names {
    alloc: Global,
    all: Vec<Named>,
}

impl Names {
    /// No names yet.
    pub fn new(alloc: Global) -> Names {
        Names {
            alloc,
            all: Vec::new(alloc),
        }
    }

    /// Gives the message a name.
    pub fn put(&mut self, name: &str, message: &str) -> Result<(), OutOfMemory> {
        let name = String::from_str(self.alloc, name)?;
        let message = bytes_of(self.alloc, message)?;
        self.all.push(Named { name, message })?;
        Ok(())
    }

    /// The message of this name, or the one that the word spells.
    pub fn message(&self, word: &str) -> Result<Vec<u8>, OutOfMemory> {
        match self.place_of(word) {
            Some(place) if place < self.all.len() => Ok(
                self.all[place].message.to_vec(self.alloc)?,
            ),
            _ => bytes_of(self.alloc, word),
        }
    }

    fn place_of(&self, word: &str) -> Option<usize> {
        self.all
            .iter()
            .position(|named| named.name.as_str() == word)
    }
}
