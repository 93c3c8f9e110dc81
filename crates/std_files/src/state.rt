// Whether a file has changed.
use std::fs::Metadata;
use std::os::unix::fs::MetadataExt;

/// Which file it is, its size, and when its text and its permissions were last changed, in seconds and nanoseconds.
#[derive(Clone, Copy, PartialEq, Eq)]
pub struct State {
    device: u64,
    number: u64,
    size: u64,
    modified: (i64, i64),
    changed: (i64, i64),
}

impl State {
    pub fn of(metadata: &Metadata) -> State {
        State {
            device: metadata.dev(),
            number: metadata.ino(),
            size: metadata.size(),
            modified: (metadata.mtime(), metadata.mtime_nsec()),
            changed: (metadata.ctime(), metadata.ctime_nsec()),
        }
    }
}
