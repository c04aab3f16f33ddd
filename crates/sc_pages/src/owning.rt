//! Lists with several owners.

ghost use Rattle.std.specs.Prelude.{◌≡◌, IfOk, OnOk};
ghost use Rattle.std.specs.Arc.{arc_value};

use sc_value::{CloneIn, List, NoMemory};
use std::alloc::Global;
use std::sync::Arc;

// Whether nobody else has the items.
fn is_own<T>(items: &mut Arc<List<T>>) -> bool
    ensures { arc_value items.new ≡ arc_value items.old }
{
    match Arc::get_mut(items) {
        Some(_) => true,
        None => false,
    }
}

fn copied<T: CloneIn>(alloc: Global, items: &List<T>) -> Result<Arc<List<T>>, NoMemory>
    ensures { IfOk result (λ own. arc_value own ≡ items.now) }
{
    let own = items.clone_in(alloc)?;
    let own = Arc::new(alloc, own)?;
    Ok(own)
}

/// Makes the items its own, where others have them.
pub fn own<T: CloneIn>(alloc: Global, items: &mut Arc<List<T>>) -> Result<(), NoMemory>
    ensures { OnOk result (arc_value items.new ≡ arc_value items.old) }
{
    if is_own(items) {
        return Ok(());
    }
    let own = copied(alloc, items)?;
    *items = own;
    Ok(())
}
