//! What a caller was answered.
use doc_book::{Act, Answer, Entry, Refused};
use std::alloc::Global;

/// The places that the caller's entries were given, how many of them are frames, and the last front. No front lies before
/// an earlier one where `is_rising`; where there was no memory for a place, it isn't.
#[derive(Drop)]
pub struct Log {
    pub made: Vec<u32>,
    pub frames: u32,
    pub last: u32,
    pub is_rising: bool,
}

impl Log {
    pub fn new(alloc: Global) -> Log {
        Log {
            made: Vec::new(alloc),
            frames: 0,
            last: 0,
            is_rising: true,
        }
    }

    pub fn note_front(&mut self, front: u32) {
        self.is_rising = self.is_rising && self.last <= front;
        self.last = front;
    }

    fn note_place(&mut self, place: u32) {
        self.note_front(place);
        self.last = place.saturating_add(1);
        if self.made.push(place).is_err() {
            self.is_rising = false;
        }
    }

    pub fn note_frame(&mut self, place: u32) {
        self.note_place(place);
        self.frames = self.frames.saturating_add(1);
    }

    pub fn note_entered(&mut self, answer: &Result<u32, Refused>) {
        match answer {
            Ok(place) => self.note_place(*place),
            Err(refused) => self.note_front(refused.front),
        }
    }

    pub fn note_asked(&mut self, answer: &Result<Answer, Refused>) {
        match answer {
            Ok(answer) => self.note_front(answer.front),
            Err(refused) => self.note_front(refused.front),
        }
    }

    /// Whether the entries by this caller stand at the places that it was told, and no others, and fronts rose.
    pub fn agrees(&self, history: &[Entry], who: u8) -> bool {
        let mut told = self.made.iter();
        for (place, entry) in history.iter().enumerate() {
            if entry.who == who && told.next().map(|p| *p as usize) != Some(place) {
                return false;
            }
        }
        told.next().is_none() && self.is_rising
    }
}

/// How many frames the history has.
pub fn frames_in(history: &[Entry]) -> u64 {
    history
        .iter()
        .filter(|entry| matches!(entry.act, Act::Frame(_)))
        .count() as u64
}
