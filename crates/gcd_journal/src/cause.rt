// What exactly is wrong with a line of a journal.

/// What a line of a journal has in a field.
#[derive(Clone, Copy)]
pub enum Field {
    /// The number of a worker.
    Worker,
    /// A block's name.
    Block,
    /// The name of a block other than `main`.
    OtherBlock,
    /// A source's name.
    Source,
    /// A block's or a source's name.
    Run,
    /// The index of an act.
    Index,
    /// The number of a sender.
    Sender,
    /// A time in milliseconds.
    Time,
    /// A number of bytes.
    Bytes,
    /// The code of a misuse, after an `M`.
    Code,
}

/// What exactly is wrong with a line of a journal. A `place` is that of a field of the line, from 1, the first field.
#[derive(Clone, Copy)]
pub enum JournalCause {
    /// No event has a line with this first field and so many fields, and it is not the line `events N` with the right number.
    NoForm,
    /// Another field is expected at that place.
    Misfit { place: u8, expected: Field },
    /// It is one event more than the journal may have.
    TooMany,
    /// The line lacks its end, or there is none.
    NoEnd,
    /// The text as a whole has more bytes than a journal may have. The reader does not tell this: the text was not loaded.
    TooLong,
}
