//! Copies of names. Each fails only if an allocation fails.
ghost use Rattle.std.specs.Prelude.{◌≡◌, IfOk};

use cg_names::Name;
use std::alloc::AllocError;

/// Copies the name, if there is one.
pub fn copied_name<const MAX: usize, const SORT: u8>(
    name: &Option<Name<MAX, SORT>>,
) -> Result<Option<Name<MAX, SORT>>, AllocError>
    ensures { IfOk result (λ copy. copy ≡ name.now) }
{
    match name {
        None => Ok(None),
        Some(name) => {
            let copy = name.clone()?;
            Ok(Some(copy))
        }
    }
}
