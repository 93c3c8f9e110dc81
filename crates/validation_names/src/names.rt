// Names, and what is entered first under each.
ghost use Rattle.std.specs.Prelude.{◌≡◌, IfOk, is_some};
ghost use Rattle.validation_names.specs.Names.{Enters, entry_of};

use std::alloc::{AllocError, Allocator};
use std::collections::BTreeMap;

/// The value that has been entered under a name before. If there is none, this one is entered.
pub fn enter<'t, V: Copy, A: Allocator + Copy>(
    entries: &mut BTreeMap<&'t str, V, A>,
    name: &'t str,
    value: V,
) -> Result<Option<V>, AllocError>
    ensures earlier { IfOk result (λ earlier. earlier ≡ entry_of entries.old name.now) }
    ensures entered { IfOk result (λ _. Enters entries.old entries.new name.now value) }
{
    if let Some(earlier) = entries.get(name) {
        return Ok(Some(*earlier));
    }
    entries.insert(name, value)?;
    Ok(None)
}

/// Whether a value is entered under a name.
pub fn is_entered<'t, V>(entries: &BTreeMap<&'t str, V>, name: &'t str) -> bool
    ensures { result ≡ is_some (entry_of entries.now name.now) }
{
    entries.contains_key(name)
}
