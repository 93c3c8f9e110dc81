// What the program prints of itself.

/// The name of the program, as its messages have it.
pub const PROGRAM: &str = "gqlls";

/// The version of the program.
pub const VERSION: &str = "gqlls 0.1.0\n";

/// How the program is called.
pub const USAGE: &str = "usage: gqlls [--recursion N] [--tokens N] [--stdio]\n";

/// What it does, and its options.
pub const HELP: &str = "usage: gqlls [--recursion N] [--tokens N] [--stdio]

A language server for GraphQL. It reads requests from standard input and writes
answers to standard output, as the Language Server Protocol 3.17 has them, so
an editor starts it.

  --recursion N  how deep a document may nest (500 if not given)
  --tokens N     how many tokens it may have, with white space, commas and
                 comments (no limit if not given)
  --stdio        use standard input and output, as it does without
  -h, --help     print this text
  -V, --version  print the version

The status is 0 when the client ends it by shutdown and exit, 1 when it exits
without shutdown, and 2 when the program was called otherwise, or something
could not be read or written.
";
