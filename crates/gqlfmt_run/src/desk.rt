// What a run has before it.

/// The files, standard output and standard error.
#[derive(Drop)]
pub struct Desk<F, W, E> {
    pub files: F,
    pub output: W,
    pub complaints: E,
}
