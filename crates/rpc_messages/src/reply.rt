// What a message brings about.

/// What the server does after a message.
#[derive(Drop)]
pub enum Reply {
    /// It says nothing.
    Nothing,
    /// It answers a request, or refuses a message, with this body.
    Answer(Vec<u8>),
    /// It tells the client something by itself, with this body.
    Notification(Vec<u8>),
    /// It asks the client for something, with this body.
    Request(Vec<u8>),
    /// It ends, with this exit status.
    Exit(u8),
}
