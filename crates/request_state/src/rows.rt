//! Changes of rows.
ghost use Rattle.std.specs.Prelude.{◌≡◌, not, true, false, is_some, option_map, option_and_then, if◌then◌else◌, OnOk, OnErr, IfOk, Some, None, IsTrue, List};
ghost use Rattle.std.specs.BTreeMap.{insert_entry};
ghost use Rattle.element_name.specs.Name.{Name as NameValue, name_eq};
ghost use Rattle.element_name.specs.Named.{name_cmp};
ghost use Rattle.coop_request.specs.Edit.{is_insert, right_of};
ghost use Rattle.coop_request.specs.Request.{Request as RequestValue, element_of};
ghost use Rattle.elem_show.specs.Cell.{shown};
ghost use Rattle.elem_show.specs.Counting.{HasRoomFor, cell_with, cell_less, has_cut};
ghost use Rattle.request_state.specs.declared.kept.Kept.{Kept};
ghost use Rattle.request_state.specs.declared.row.Row.{Row as RowValue};
ghost use Rattle.request_state.specs.State.{is_invalid};
ghost use Rattle.request_state.specs.Table.{with_state};
ghost use Rattle.request_state.specs.Lines.{keyed_states};
ghost use Rattle.request_state.specs.Rows.{kept_rows, row_under, cell_under, cell_counted, cell_joined, cell_discounted, cell_in_state, HasRoomUnder};
ghost use Rattle.name_index.specs.Chunks.{IsOrdered};

use crate::row::Row;
use crate::state::State;
use coop_request::{LentEdit, LentRequest, Right};
use element_name::{Name, NoMemory};
use name_index::NameMap;
use std::alloc::Global;

/// Whether an element shows. Takes a look-up.
pub(crate) fn shows_in(rows: &NameMap<Row>, element: Name) -> bool
    ensures { result ≡ is_some (option_and_then shown (cell_under rows.now element)) }
{
    match rows.get(element) {
        Some(row) => row.shows(),
        None => false,
    }
}

// One more delete or update counts, in the row of its element. Whether that shows then.
fn count_in(
    rows: &mut NameMap<Row>,
    alloc: Global,
    request: &LentRequest<'_>,
) -> Result<bool, NoMemory>
    requires other { is_insert request.now.edit ≡ false }
    requires room { (r : RowValue) → row_under rows.old (element_of request.now) ≡ Some r → HasRoomFor request.now.id r.counts }
    ensures kept { kept_rows rows.new ≡ kept_rows rows.old }
    ensures cells { OnOk result ((e : NameValue) → cell_under rows.new e ≡ option_map (cell_with e request.now) (cell_under rows.old e)) }
    ensures shows { IfOk result (λ shows. shows ≡ is_some (option_and_then shown (cell_under rows.new (element_of request.now)))) }
    ensures err { OnErr result (rows.new ≡ rows.old) }
{
    match rows.get_mut(request.element()) {
        Some(row) => row.count(alloc, request),
        None => Ok(false),
    }
}

// A delete or an update counts, or not. Whether its element shows then.
fn count_if(
    counts: bool,
    rows: &mut NameMap<Row>,
    alloc: Global,
    request: &LentRequest<'_>,
) -> Result<bool, NoMemory>
    requires other { is_insert request.now.edit ≡ false }
    requires room { HasRoomUnder rows.old request.now }
    ensures kept { kept_rows rows.new ≡ kept_rows rows.old }
    ensures cells { OnOk result ((e : NameValue) → cell_under rows.new e ≡ (if counts then option_map (cell_with e request.now) (cell_under rows.old e) else cell_under rows.old e)) }
    ensures shows { IfOk result (λ shows. shows ≡ is_some (option_and_then shown (cell_under rows.new (element_of request.now)))) }
    ensures err { OnErr result (rows.new ≡ rows.old) }
{
    if counts {
        return count_in(rows, alloc, request);
    }
    Ok(shows_in(rows, request.element()))
}

// A new request, whose row is there, counts in the row of its element. Whether that shows then.
fn count_new(
    rows: &mut NameMap<Row>,
    alloc: Global,
    request: &LentRequest<'_>,
    state: State,
) -> Result<bool, NoMemory>
    requires room { HasRoomUnder rows.old request.now }
    ensures kept { kept_rows rows.new ≡ kept_rows rows.old }
    ensures cells { OnOk result ((e : NameValue) → cell_under rows.new e ≡ cell_counted (cell_under rows.old) request.now state e) }
    ensures shows { IfOk result (λ shows. shows
        ≡ (if is_insert request.now.edit then not (is_invalid state) else is_some (option_and_then shown (cell_under rows.new (element_of request.now))))) }
    ensures err { OnErr result (rows.new ≡ rows.old) }
{
    let counts = state.counts();
    match request.edit() {
        LentEdit::Insert { .. } => Ok(counts),
        LentEdit::Delete { .. } => count_if(counts, rows, alloc, request),
        LentEdit::Update { .. } => count_if(counts, rows, alloc, request),
    }
}

/// A new request gets a row, and counts in that of its element unless its state is Invalid. Whether the element shows then.
pub(crate) fn enter(
    rows: &mut NameMap<Row>,
    alloc: Global,
    request: &LentRequest<'_>,
    state: State,
) -> Result<bool, NoMemory>
    requires new { row_under rows.old request.now.id ≡ None }
    requires room { HasRoomUnder rows.old request.now }
    requires apart { is_insert request.now.edit ≡ false → name_eq request.now.id (element_of request.now) ≡ false }
    ensures kept { OnOk result (kept_rows rows.new ≡ insert_entry name_cmp (kept_rows rows.old) request.now.id (record { request = request.now; state = state })) }
    ensures cells { OnOk result ((e : NameValue) → cell_under rows.new e ≡ cell_joined (cell_under rows.old) request.now state e) }
    ensures shows { IfOk result (λ shows. shows ≡ is_some (option_and_then shown (cell_under rows.new (element_of request.now)))) }
    ensures err { OnErr result (rows.new ≡ rows.old) }
{
    let row = Row::of(alloc, request, state)?;
    rows.insert(request.id(), row)?;
    match count_new(rows, alloc, request, state) {
        Ok(shows) => Ok(shows),
        Err(NoMemory) => {
            rows.remove(request.id());
            Err(NoMemory)
        }
    }
}

// A delete or an update of that name and right counts no more, in the row of its element.
fn discount_in(rows: &mut NameMap<Row>, id: Name, element: Name, right: Right)
    requires counted { (r : RowValue) → row_under rows.old element ≡ Some r → IsTrue (has_cut right r.counts.cuts) }
    ensures kept { kept_rows rows.new ≡ kept_rows rows.old }
    ensures cells { (q : RequestValue) → q.id ≡ id → element_of q ≡ element → right_of q.edit ≡ right → is_insert q.edit ≡ false
        → (e : NameValue) → cell_under rows.new e ≡ option_map (cell_less e q) (cell_under rows.old e) }
{
    match rows.get_mut(element) {
        Some(row) => row.discount(id, right),
        None => {}
    }
}

/// The request of a name counts no more in the row of its element. An insert counts in its own, by its state.
pub(crate) fn withdraw(rows: &mut NameMap<Row>, id: Name)
    requires counted { (r s : RowValue) → row_under rows.old id ≡ Some r → row_under rows.old (element_of r.kept.request) ≡ Some s
        → is_insert r.kept.request.edit ≡ false → IsTrue (has_cut (right_of r.kept.request.edit) s.counts.cuts) }
    ensures kept { kept_rows rows.new ≡ kept_rows rows.old }
    ensures cells { (r : RowValue) → row_under rows.old id ≡ Some r → r.kept.request.id ≡ id
        → (e : NameValue) → cell_under rows.new e ≡ cell_discounted (cell_under rows.old) r.kept.request e }
{
    let Some(row) = rows.get(id) else {
        return;
    };
    let request = row.kept().lent();
    let right = request.right();
    if right != Right::Insert {
        let element = request.element();
        discount_in(rows, id, element, right);
    }
}

/// Another state for the request of a name.
pub(crate) fn write_state(rows: &mut NameMap<Row>, id: Name, state: State)
    ensures written { (table : List Kept) → IsOrdered name_cmp (kept_rows rows.old) → kept_rows rows.old ≡ keyed_states table
        → kept_rows rows.new ≡ keyed_states (with_state table id state) }
    ensures ordered { IsOrdered name_cmp (kept_rows rows.old) → IsOrdered name_cmp (kept_rows rows.new) }
    ensures cells { (e : NameValue) → cell_under rows.new e ≡ (if name_eq id e then option_map (cell_in_state state) (cell_under rows.old e) else cell_under rows.old e) }
{
    match rows.get_mut(id) {
        Some(row) => row.set_state(state),
        None => {}
    }
}
