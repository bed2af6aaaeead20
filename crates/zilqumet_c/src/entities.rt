//! Tables of references.

ghost use Rattle.std.specs.Prelude.{◌≡◌, Option, None, Some, Ok, option_map, IfOk};
ghost use Rattle.std.specs.Arc.{arc_value};
ghost use Rattle.html_charref.specs.Entities.{core_rows, entities_of};
ghost use Rattle.html_charref.specs.declared.table.Row.{Row};
ghost use Rattle.zilqumet_c.specs.Kept.{unboxed};
ghost use Rattle.zilqumet_c.specs.Reads.{rows_in, table_in};
ghost use Rattle.std.specs.Prelude.{List};

use crate::held::Held;
use crate::slot::Slot;
use crate::status::{BAD_ENTITIES, OK, OUT_OF_MEMORY};
use html_parser::{EntityError, EntityTable};
use std::alloc::{AllocError, Global};
use std::sync::Arc;

/// Reads a table of named references, in the form of the standard's file of them.
#[unsafe(no_mangle)]
pub extern "C" fn proved_entities_read(alloc: Global, json: &[u8], entities: &mut Slot) -> u32
    ensures { result ≡ 0 → (rows : List Row) × (table_in entities.new.value ≡ Some rows) × (entities_of json.now ≡ Ok rows) }
{
    let _old = entities.take(alloc);
    match EntityTable::read(alloc, json) {
        Ok(table) => match held_table(alloc, table) {
            Ok(held) => {
                entities.put(held);
                OK
            }
            Err(_) => OUT_OF_MEMORY,
        },
        Err(EntityError::OutOfMemory) => OUT_OF_MEMORY,
        Err(_) => BAD_ENTITIES,
    }
}

/// A table as what a handle holds.
fn held_table(alloc: Global, table: EntityTable) -> Result<Box<Held>, AllocError>
    ensures { IfOk result (λ b. table_in (Some b.value) ≡ Some table) }
{
    let shared = Arc::new(alloc, table)?;
    let held = Box::new(alloc, Held::Entities(shared))?;
    Ok(held)
}

/// The table in a handle, to be shared, or that of the core five.
pub(crate) fn shared_table(
    alloc: Global,
    held: &Option<Box<Held>>,
) -> Result<Arc<EntityTable>, AllocError>
    ensures { IfOk result (λ t. arc_value t ≡ rows_in (unboxed held.now)) }
{
    match held {
        Some(held) => match held.as_ref() {
            Held::Entities(table) => Arc::try_clone(table),
            _ => core_shared(alloc),
        },
        None => core_shared(alloc),
    }
}

/// The table of the core five, to be shared.
fn core_shared(alloc: Global) -> Result<Arc<EntityTable>, AllocError>
    ensures { IfOk result (λ t. arc_value t ≡ core_rows) }
{
    let Ok(table) = EntityTable::core(alloc) else {
        return Err(AllocError);
    };
    let shared = Arc::new(alloc, table)?;
    Ok(shared)
}

/// The table in a handle.
pub(crate) fn table_of(held: &Option<Box<Held>>) -> Option<&EntityTable>
    ensures { option_map (λ t. t.now) result ≡ table_in (unboxed held.now) }
{
    match held {
        Some(held) => match held.as_ref() {
            Held::Entities(table) => Some(&**table),
            _ => None,
        },
        None => None,
    }
}
