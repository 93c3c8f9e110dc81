// The words of a command line.
use std::alloc::{AllocError, Allocator};
use std::rt;

// How many bytes the system gives a word at most.
const MOST: usize = 131_072;

// A word as a text. One that is not UTF-8 gets a zero byte at its end, which no path has, so that it is an error of its
// own and stops no other.
fn word_of<A: Allocator>(alloc: A, bytes: &[u8]) -> Result<String<A>, AllocError> {
    let mut word = String::from_utf8_lossy(alloc, bytes)?;
    if word.as_bytes() != bytes {
        word.push('\0')?;
    }
    Ok(word)
}

/// The words after the program's name.
pub fn words<R: rt::Env + Alloc>(runtime: &R) -> Result<Vec<String<R::A>, R::A>, AllocError> {
    let mut buffer = vec![in runtime.alloc(); 0u8; MOST]?;
    let mut words = Vec::new(runtime.alloc());
    for index in 1..usize::MAX {
        match runtime.arg(index, buffer.as_mut_slice()) {
            Ok(length) => {
                let word = word_of(runtime.alloc(), &buffer.as_slice()[..length])?;
                words.push(word)?;
            }
            Err(_) => break,
        }
    }
    Ok(words)
}

/// The same as slices.
pub fn views<A: Allocator, B: Allocator>(
    alloc: B,
    words: &[String<A>],
) -> Result<Vec<&str, B>, AllocError> {
    words.iter().map(|word| word.as_str()).collect(alloc)
}
