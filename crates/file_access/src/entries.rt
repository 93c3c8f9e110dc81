// What a folder has.
use std::alloc::Allocator;
use std::io;

/// What has a name in a folder.
#[derive(Clone, Copy)]
pub enum Kind {
    /// A file.
    File,
    /// A folder.
    Folder,
    /// A symbolic link, a pipe or a device.
    Other,
    /// What it is, or its name, could not be read.
    Failed(io::Error),
}

/// A name in a folder, and what has it.
#[derive(Drop)]
pub struct Entry<A: Allocator> {
    /// The name alone. It is empty where it could not be read.
    pub name: String<A>,
    pub kind: Kind,
}
