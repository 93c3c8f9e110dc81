// What the program prints of itself.

/// The name of the program, as its messages have it.
pub const PROGRAM: &str = "gqlcheck";

/// The version of the program.
pub const VERSION: &str = "gqlcheck 0.1.0\n";

/// How the program is called.
pub const USAGE: &str = "usage: gqlcheck [OPTION..] [FILE..]\n";

/// What it does, and its options.
pub const HELP: &str = "usage: gqlcheck [OPTION..] [FILE..]

Checks GraphQL documents before they run: that each is a document, that all of
them together keep the rules that need no schema, and that their operations are
within limits. So an operation may spread a fragment of another FILE, and two
FILEs must not define one name. Where a FILE is no document, only errors of that
sort are found. With --schema it also checks fields, arguments, values, named
types and directives by the types of a schema. Of the schema itself it checks
only that no definition has two fields, arguments, values, members or interfaces
of one name.
Without FILE, or where FILE is -, it reads standard input. A FILE that is a
folder means the files below it that end in .graphql, .graphqls or .gql, but for
hidden names, node_modules and symbolic links. What a .gitignore, a
.prettierignore or a .gqlfmtignore in its folder or above it leaves out is
passed over, up to the top of the repository. A path that is named twice is read
once. It prints what it finds and changes no file. Files without definitions
pass, unless an operation is named.

  --max-depth N       fields in one another
  --max-fields N      fields, with each fragment counted where it is spread
  --max-root-fields N
  --max-aliases N
  --max-directives N
  --max-height N      fields, each response name counted once in a selection set
  --max-distinct-root-fields N
                      root fields, counted like the height
  --without-introspection
                      limits and figures count no field __schema or __type, and
                      nothing in it
  --operation NAME    limits and figures of this operation alone
  --figures           print each operation's figures, and the greatest of each
  --schema PATH       a file or folder that defines the types by which operations
                      and fragments are judged; may be given for each of several
  --fragments PATH    a file or folder whose fragments are known and not judged;
                      may be given for each of several
  --allow RULES       do not judge these rules: names as messages have them in
                      brackets, joined by commas
  --warn RULES        tell of these as warnings, which do not change the status
  --max-steps N       how many steps validation may take (if not given, by the
                      size of the documents)
  --format text|json|github|sarif
                      print findings for people (if not given), as JSON with an
                      object a line, as annotations of GitHub Actions, or as one
                      SARIF log
  --json              print JSON, as with --format json
  --recursion N       how deep a document may nest (500 if not given)
  --tokens N          how many tokens it may have, with white space, commas and
                      comments (no limit if not given)
  -h, --help          print this text
  -V, --version       print the version

Each option may be given once, before FILE or after. Its value is the next word,
or follows an equals sign, as in --tokens=9. After -- all words are files.

The status is 0 when all documents pass, 1 when one does not, and 2 when
something could not be read or written.
";
