//! What a call is given.
use crate::boxes::{Filling, read_filling};
use crate::texts::{Text, add, add_each, begin, bytes_of};
use std::alloc::{AllocError, Global};

/// A name that has room for a file of so many bytes.
#[derive(Drop)]
pub struct Room {
    pub name: String,
    pub bytes: usize,
}

/// What a call is given.
#[derive(Drop)]
pub struct Row {
    alloc: Global,
    pub words: Vec<String>,
    pub texts: Vec<Text>,
    pub rooms: Vec<Room>,
    /// Which gets and puts of the store and which puts of the output fail.
    pub gets: Vec<u64>,
    pub puts: Vec<u64>,
    pub sink_puts: Vec<u64>,
    pub sink_room: usize,
    /// The first boxes.
    pub boxes: Vec<Filling>,
    pub shows_left: bool,
    /// The lines that say nothing.
    pub unread: Vec<String>,
}

impl Row {
    /// A call of no words over no files, whose output has room for 100,000 bytes.
    pub fn new(alloc: Global) -> Row {
        Row {
            alloc,
            words: Vec::new(alloc),
            texts: Vec::new(alloc),
            rooms: Vec::new(alloc),
            gets: Vec::new(alloc),
            puts: Vec::new(alloc),
            sink_puts: Vec::new(alloc),
            sink_room: 100_000,
            boxes: Vec::new(alloc),
            shows_left: false,
            unread: Vec::new(alloc),
        }
    }

    /// Adds what a line says.
    pub fn apply(&mut self, line: &str) -> Result<(), AllocError> {
        let (name, rest) = line.split_once(' ').unwrap_or((line, ""));
        if self.says(name, rest, line.len() > name.len())? {
            return Ok(());
        }
        self.unread.push(String::from_str(self.alloc, line)?)?;
        Ok(())
    }

    // Adds what a line of this name says, if it says something. A blank may stand behind the name.
    fn says(&mut self, name: &str, rest: &str, blank: bool) -> Result<bool, AllocError> {
        match name {
            "words" => self.set_words(blank, rest),
            "more" => self.add_words(rest),
            "file" => self.begin_file(rest),
            ">" => self.add_text(rest, b""),
            "|" => self.add_text(rest, b"\n"),
            _ => self.apply_rarer(name, rest),
        }
    }

    fn begin_file(&mut self, name: &str) -> Result<bool, AllocError> {
        begin(self.alloc, &mut self.texts, name)?;
        Ok(true)
    }

    fn add_text(&mut self, text: &str, end: &[u8]) -> Result<bool, AllocError> {
        add(&mut self.texts, text.as_bytes(), 1)?;
        add(&mut self.texts, end, 1)?;
        Ok(true)
    }

    fn apply_rarer(&mut self, name: &str, rest: &str) -> Result<bool, AllocError> {
        match name {
            "repeat" => self.repeat(rest),
            "times" => self.repeat_piece(rest),
            "each" => self.number_piece(rest),
            "room" => self.add_room(rest),
            "fail" => self.add_failing(rest),
            "sink" => Ok(self.set_sink_room(rest)),
            "box" => self.add_box(rest),
            "left" => {
                self.shows_left = true;
                Ok(true)
            }
            _ => Ok(false),
        }
    }

    fn set_words(&mut self, some: bool, rest: &str) -> Result<bool, AllocError> {
        self.words.clear();
        if some {
            for word in rest.split(' ') {
                self.words.push(String::from_str(self.alloc, word)?)?;
            }
        }
        Ok(true)
    }

    fn add_words(&mut self, rest: &str) -> Result<bool, AllocError> {
        let Some((times, word)) = numbered(rest) else {
            return Ok(false);
        };
        for _ in 0..times {
            self.words.push(String::from_str(self.alloc, word)?)?;
        }
        Ok(true)
    }

    fn repeat(&mut self, rest: &str) -> Result<bool, AllocError> {
        let Some((times, text)) = numbered(rest) else {
            return Ok(false);
        };
        add(&mut self.texts, text.as_bytes(), times)?;
        Ok(true)
    }

    // A copy of the piece of this name; none where there is no such file.
    fn piece(&self, name: &str) -> Result<Option<Vec<u8>>, AllocError> {
        match bytes_of(&self.texts, name) {
            Some(bytes) => Ok(Some(Vec::from_slice(self.alloc, bytes)?)),
            None => Ok(None),
        }
    }

    fn repeat_piece(&mut self, rest: &str) -> Result<bool, AllocError> {
        let Some((times, name)) = numbered(rest) else {
            return Ok(false);
        };
        let Some(piece) = self.piece(name)? else {
            return Ok(false);
        };
        add(&mut self.texts, piece.as_slice(), times)?;
        Ok(true)
    }

    fn number_piece(&mut self, rest: &str) -> Result<bool, AllocError> {
        let Some((first, rest)) = numbered(rest) else {
            return Ok(false);
        };
        let Some((last, name)) = numbered(rest) else {
            return Ok(false);
        };
        let Some(piece) = self.piece(name)? else {
            return Ok(false);
        };
        add_each(self.alloc, &mut self.texts, piece.as_slice(), first, last)?;
        Ok(true)
    }

    fn add_room(&mut self, rest: &str) -> Result<bool, AllocError> {
        let Some((name, bytes)) = rest.split_once(' ') else {
            return Ok(false);
        };
        let Ok(bytes) = bytes.parse::<usize>() else {
            return Ok(false);
        };
        self.rooms.push(Room {
            name: String::from_str(self.alloc, name)?,
            bytes,
        })?;
        Ok(true)
    }

    fn add_failing(&mut self, rest: &str) -> Result<bool, AllocError> {
        let Some((what, number)) = rest.split_once(' ') else {
            return Ok(false);
        };
        let Ok(number) = number.parse::<u64>() else {
            return Ok(false);
        };
        match what {
            "get" => self.gets.push(number)?,
            "put" => self.puts.push(number)?,
            "sink" => self.sink_puts.push(number)?,
            _ => return Ok(false),
        }
        Ok(true)
    }

    fn set_sink_room(&mut self, rest: &str) -> bool {
        match rest.parse::<usize>() {
            Ok(room) => {
                self.sink_room = room;
                true
            }
            Err(_) => false,
        }
    }

    fn add_box(&mut self, rest: &str) -> Result<bool, AllocError> {
        if rest == "empty" {
            self.boxes.push(Filling::EMPTY)?;
            return Ok(true);
        }
        let Some(rest) = rest.strip_prefix("failing ") else {
            return Ok(false);
        };
        let Some(filling) = read_filling(self.alloc, rest) else {
            return Ok(false);
        };
        self.boxes.push(filling)?;
        Ok(true)
    }
}

// A number and what stands behind its blank.
fn numbered(text: &str) -> Option<(u32, &str)> {
    let (number, rest) = text.split_once(' ')?;
    match number.parse::<u32>() {
        Ok(number) => Some((number, rest)),
        Err(_) => None,
    }
}
