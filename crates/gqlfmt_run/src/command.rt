// What the program prints of itself.

/// The name of the program, as its messages have it.
pub const PROGRAM: &str = "gqlfmt";

/// The version of the program.
pub const VERSION: &str = "gqlfmt 0.1.0\n";

/// How the program is called.
pub const USAGE: &str =
    "usage: gqlfmt [--write | --check | --diff | --print] [OPTION..] [FILE..]\n";

/// How it is called, what it does, and its options.
pub const HELP: &str = "usage: gqlfmt [--write | --check | --diff | --print] [OPTION..] [FILE..]

Puts GraphQL documents into one layout. Without FILE, or where FILE is -, it
reads standard input and writes to standard output; otherwise each FILE that
changes is replaced. A FILE that is a folder means the files below it that
end in .graphql, .graphqls or .gql, but for hidden names, node_modules and
symbolic links. What a .gitignore, a .prettierignore or a .gqlfmtignore in its
folder or above it leaves out is left alone, up to the top of the repository.

  -w, --write    replace each file that changes, as without this option
  --check        change nothing; list the files that would change
  --diff         change nothing; show what would change, as a unified diff
  --print        change nothing; print the formatted text of each file
  --recursion N  how deep a document may nest (500 if not given)
  --tokens N     how many tokens it may have, with white space, commas and
                 comments, before and after (no limit if not given)
  --max-output N how many bytes a formatted text may have (64 MiB if not given,
                 or 16 for each byte of its source)
  --line-endings lf|crlf|keep
                 how its lines end: with LF (if not given), with CR LF, or as
                 the first line of its source does
  --stdin-filepath NAME
                 the path of the file that standard input is to be the text of,
                 for messages and ignore files
  -h, --help     print this text
  -V, --version  print the version

Each option may be given once, before FILE or after. Its value is the next word,
or follows an equals sign, as in --tokens=9. After -- all words are files.

A document that has errors, or more tokens or bytes than allowed when formatted,
is left as it is. The status is 0 when all is done, 1 when --check or --diff
found a change, and 2 when a document is left so, or something could not be read
or written.
";
