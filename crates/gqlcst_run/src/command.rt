// What the program prints of itself.

/// The name of the program, as its messages have it.
pub const PROGRAM: &str = "gqlcst";

/// The version of the program.
pub const VERSION: &str = "gqlcst 0.1.0\n";

/// How the program is called.
pub const USAGE: &str = "usage: gqlcst check|tokens|tree [--recursion N] [--tokens N]\n";

/// What it does, and its options.
pub const HELP: &str = "usage: gqlcst check|tokens|tree [--recursion N] [--tokens N]

Reads a GraphQL document from standard input, and prints what the mode shows.

  check          clean, or its errors
  tokens         its tokens, with white space, commas and comments
  tree           its syntax tree, and its errors
  --recursion N  how deep a document may nest (500 if not given)
  --tokens N     how many tokens it may have, with white space, commas and
                 comments (no limit if not given)
  -h, --help     print this text
  -V, --version  print the version

Positions are byte offsets. The status is 0 when there are no errors, 1 when
there are some, and 2 when the program was called otherwise, the input is not
UTF-8, or something could not be read or written.
";
