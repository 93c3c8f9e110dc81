// What is written, put in a buffer.
mod digits;
mod errors;
mod kind_name;
mod quoted;
mod text;
mod tokens;
mod tree;

pub use errors::put_errors;
pub use tokens::put_tokens;
pub use tree::put_tree;
