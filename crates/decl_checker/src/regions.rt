//! Regions by the tokens at which they begin.

ghost use Rattle.std.specs.Prelude.{◌≡◌, IfOk, nat_eq};
ghost use Rattle.indexmap.specs.IndexMap.{get};
ghost use Rattle.decl_checker.specs.Regions.{HasRegions};

use check_steps::Tables;
use indexmap::IndexMap;
use std::alloc::{AllocError, Global};

/// The number of each region by the token at which it begins. The outermost one begins at none.
pub fn starts(alloc: Global, tables: &Tables) -> Result<IndexMap<u32, u32>, AllocError>
    ensures { IfOk result (λ starts. HasRegions tables.now.regions (get nat_eq starts)) }
{
    let mut starts = IndexMap::new(alloc);
    'regions: for region in 1..tables.regions() {
        let token = tables.region_token(region);
        if !starts.contains_key(&token) {
            starts.insert(token, region)?;
        }
    }
    Ok(starts)
}
