// The entries of a folder that rules keep.
ghost use Rattle.std.specs.Prelude.{◌≡◌, IfOk};
ghost use Rattle.std.specs.List.{filter};
ghost use Rattle.file_access.specs.Listing.{as_entry};
ghost use Rattle.ignore_rules.specs.Ignored.{as_rules};
ghost use Rattle.unignored_files.specs.Unignored.{is_folder, is_kept};

use file_access::{Entry, Kind};
use ignore_rules::Rules;
use std::alloc::{AllocError, Allocator};
use std::path::Path;

fn is_folder(kind: Kind) -> bool
    ensures { result ≡ is_folder kind }
{
    match kind {
        Kind::Folder => true,
        Kind::File | Kind::Other | Kind::Failed(_) => false,
    }
}

// Whether the rules keep an entry of a folder.
fn is_kept<A: Allocator + Copy, B: Allocator + Copy>(
    alloc: B,
    rules: &Rules<A>,
    folder: &str,
    entry: &Entry<B>,
) -> Result<bool, AllocError>
    ensures { IfOk result (λ it. it ≡ is_kept (as_rules rules.now) folder.now (as_entry entry.now)) }
{
    let path = Path::new(folder).join(alloc, entry.name.as_str())?;
    let is_left_out = rules.ignore(path.as_str(), is_folder(entry.kind))?;
    Ok(!is_left_out)
}

/// The entries of a folder that the rules keep, in their order.
pub fn sift<A: Allocator + Copy, B: Allocator + Copy>(
    alloc: B,
    rules: &Rules<A>,
    folder: &str,
    entries: Vec<Entry<B>, B>,
) -> Result<Vec<Entry<B>, B>, AllocError>
    ensures { IfOk result (λ kept. kept.items
        ≡ filter (λ entry. is_kept (as_rules rules.now) folder.now (as_entry entry)) entries.items) }
{
    let mut kept = Vec::new(alloc);
    for entry in entries {
        if is_kept(alloc, rules, folder, &entry)? {
            kept.push(entry)?;
        }
    }
    Ok(kept)
}
