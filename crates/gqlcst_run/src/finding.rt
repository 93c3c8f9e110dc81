// What a run of the program finds.
ghost use Rattle.std.specs.Prelude.{◌≡◌};
ghost use Rattle.gqlcst_run.specs.Parsing.{finding_of};

/// What was found.
#[derive(Clone, Copy)]
pub enum Finding {
    Clean,
    /// How many errors there are.
    Errors(usize),
}

/// The finding for this many errors.
pub fn finding_of(errors: usize) -> Finding
    ensures { result ≡ finding_of errors }
{
    if errors == 0 {
        Finding::Clean
    } else {
        Finding::Errors(errors)
    }
}
