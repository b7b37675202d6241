// Numbered texts, one after another, in one buffer of bytes.
ghost use Rattle.std.specs.Prelude.{◌≡◌, ◌+◌, ◌<◌, ◌≤◌, ◌++◌, ◌∷◌, [], length, IfOk, IsOk, OnOk, OnErr};
ghost use Rattle.gcd_outer.specs.Texts.{bytes_of};

use std::alloc::{AllocError, Global};
use std::marker::Model;

#[derive(Drop)]
pub(crate) struct TextLog {
    bytes: Vec<u8>,
    notes: Vec<Note>,
    text_room: usize,
    byte_room: usize,
}

// The number of a text, and how many bytes it has.
#[derive(Clone, Copy)]
pub(crate) struct Note {
    pub(crate) number: u32,
    pub(crate) len: usize,
}

impl Model for TextLog {
    ghost use Rattle.std.specs.Prelude.{vec_capacity};
    ghost use Rattle.gcd_outer.specs.Texts.{texts_of, TextsView, AreTexts};

    ghost Value = { TextsView };

    ghost view = { λ t. record { texts = texts_of t.notes.items t.bytes.items; text_room = t.text_room; byte_room = t.byte_room } };

    ghost invariant = { λ t. AreTexts t.notes.items t.bytes.items t.text_room t.byte_room (vec_capacity t.notes) (vec_capacity t.bytes) };
}

impl TextLog {
    // An empty log with room for so many texts of so many bytes together.
    pub(crate) fn with_capacity(
        alloc: Global,
        texts: usize,
        bytes: usize,
    ) -> Result<Self, AllocError>
        ensures { IfOk result (λ log. log ≡ record { texts = []; text_room = texts; byte_room = bytes }) }
    {
        Ok(TextLog {
            bytes: Vec::with_capacity(alloc, bytes)?,
            notes: Vec::with_capacity(alloc, texts)?,
            text_room: texts,
            byte_room: bytes,
        })
    }

    // How many texts there are.
    pub(crate) fn len(&self) -> usize
        ensures { result ≡ length self.now.texts }
    {
        self.notes.len()
    }

    // How many bytes the texts have together.
    pub(crate) fn byte_count(&self) -> usize
        ensures { result ≡ bytes_of self.now.texts }
    {
        self.bytes.len()
    }

    // For how many texts there is room.
    pub(crate) fn text_room(&self) -> usize
        ensures { result ≡ self.now.text_room }
    {
        self.text_room
    }

    // For how many bytes there is room.
    pub(crate) fn byte_room(&self) -> usize
        ensures { result ≡ self.now.byte_room }
    {
        self.byte_room
    }

    // One text more. Within the room it takes no memory.
    pub(crate) fn push(&mut self, number: u32, text: &str) -> Result<(), AllocError>
        ensures ok { OnOk result (self.new ≡ record self.old { texts = self.old.texts ++ (number, text.now) ∷ [] }) }
        ensures err { OnErr result (self.new ≡ self.old) }
        ensures within_room { length self.old.texts < self.old.text_room
            → bytes_of self.old.texts + length text.now ≤ self.old.byte_room → IsOk result }
    {
        self.notes.reserve(1)?;
        self.bytes.extend_from_slice(text.as_bytes())?;
        self.notes.push_reserved(Note {
            number,
            len: text.len(),
        });
        Ok(())
    }
}
