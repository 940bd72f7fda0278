// The columns of a family, as a list.
ghost use Rattle.std.specs.Prelude.{◌≡◌, ◌++◌, ℕ, Some, OnOk, length, slice_get};
ghost use Rattle.kasa_families.specs.declared.row.Local.{Local};
ghost use Rattle.kasa_tables.specs.Post.{ColumnView, post_at, ready_at, number_if, has_at};

use crate::column::Column;
use kasa_families::Local;
use kasa_num::NoMemory;

// Makes room for one number in each column, behind the list of the row's local state.
pub(crate) fn reserve_all(columns: &mut Vec<Column>, locals: &[Local]) -> Result<(), NoMemory>
    requires { length columns.old.items ≡ length locals.now }
    ensures ready { OnOk result ((c : ℕ) (l : Local) → slice_get locals.now c ≡ Some l → ready_at columns.new.items c ≡ Some l) }
    ensures same { (c : ℕ) (q : Local) → post_at columns.new.items c q ≡ post_at columns.old.items c q }
    ensures width { length columns.new.items ≡ length columns.old.items }
{
    reserve_each(columns, locals)
}

// Puts a number into each column, behind the list of the row's local state. It takes no memory.
pub(crate) fn push_all(columns: &mut Vec<Column>, locals: &[Local], number: u32)
    requires width { length columns.old.items ≡ length locals.now }
    requires ready { (c : ℕ) (l : Local) → slice_get locals.now c ≡ Some l → ready_at columns.old.items c ≡ Some l }
    ensures posts { (c : ℕ) (q : Local) → post_at columns.new.items c q ≡ post_at columns.old.items c q ++ number_if (has_at c q locals.now) number }
    ensures width { length columns.new.items ≡ length columns.old.items }
{
    push_each(columns, locals, number);
}

fn reserve_each(columns: &mut [Column], locals: &[Local]) -> Result<(), NoMemory>
    requires { length columns.old ≡ length locals.now }
    ensures ready { OnOk result ((c : ℕ) (l : Local) → slice_get locals.now c ≡ Some l → ready_at columns.new c ≡ Some l) }
    ensures same { (c : ℕ) (q : Local) → post_at columns.new c q ≡ post_at columns.old c q }
{
    for k in 0..locals.len() {
        columns[k].reserve(&locals[k])?;
    }
    Ok(())
}

fn push_each(columns: &mut [Column], locals: &[Local], number: u32)
    requires width { length columns.old ≡ length locals.now }
    requires ready { (c : ℕ) (l : Local) → slice_get locals.now c ≡ Some l → ready_at columns.old c ≡ Some l }
    ensures { (c : ℕ) (q : Local) → post_at columns.new c q ≡ post_at columns.old c q ++ number_if (has_at c q locals.now) number }
{
    for k in 0..locals.len() {
        columns[k].push(locals[k], number);
    }
}
