// What the reader of lines answers.
use host_base::Texts;

/// What a piece of output gave.
#[derive(Drop, Debug)]
pub enum LineStep {
    /// The messages of the lines that it ended, in order.
    Texts(Texts),
    /// A line has more bytes than the limit. `before` are the messages of the lines that ended before it.
    TooLong { before: Texts },
}
