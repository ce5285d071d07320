//! What is known of the columns of a plan, and of the plans below its functions.
ghost use Rattle.std.specs.Prelude.{◌≡◌, ◌<◌, ◌≤◌, ◌+◌, ◌++◌, [], ◌∷◌, ℕ, IfNone, IfOk, IfSome, IsFalse, IsTrue, None, OnOk, Some, if◌then◌else◌, length, slice_get};
ghost use Rattle.std.specs.Str.{bytes_eq};
ghost use Rattle.plan_core.specs.Columns.{names_of, type_of};
ghost use Rattle.plan_expr.specs.Leaves.{Name};
ghost use Rattle.plan_tree.specs.Rose.{Roses, rose, no_roses, more};
ghost use Rattle.plan_ir.specs.declared.functions.FunctionIR.{FunctionIR as Function};
ghost use Rattle.plan_ir.specs.Plans.{Op, map_function};
ghost use Rattle.plan_prune_names.specs.Known.{IsOver, Knows, Shows, type_at, type_in};

use crate::types::{Change, Types};
use plan_core::{DataType, Schema};
use std::alloc::{AllocError, Global};
use std::mem;

/// The columns of a plan by name, with what the functions at its top changed, so that the columns below each of them are found again.
#[derive(Drop)]
pub struct KnownColumns {
    is_known: bool,
    types: Types,
    changes: Vec<Change>,
    // How many changes were made below each function.
    marks: Vec<usize>,
}

impl KnownColumns {
    /// Nothing is known.
    pub fn new(alloc: Global) -> Self
        ensures unknown { IsFalse result.is_known }
        ensures none { (result.types ≡ []) × (result.changes.items ≡ []) × (result.marks.items ≡ []) }
    {
        KnownColumns {
            is_known: false,
            types: Types::new(alloc),
            changes: Vec::new(alloc),
            marks: Vec::new(alloc),
        }
    }

    /// Nothing is known any more.
    pub fn forget(&mut self)
        ensures { IsFalse self.new.is_known }
    {
        self.is_known = false;
    }

    /// Whether something is known.
    pub(crate) fn is_known(&self) -> bool
        ensures { result ≡ self.now.is_known }
    {
        self.is_known
    }

    /// The type of a column, if it is there.
    pub(crate) fn get(&self, name: &str) -> Option<DataType>
        ensures { result ≡ type_in self.now name.now }
    {
        self.types.get(name)
    }

    /// How many columns there are.
    pub(crate) fn len(&self) -> usize
        ensures { result ≡ length self.now.types }
    {
        self.types.len()
    }

    /// The name at a place, if there are so many columns.
    pub(crate) fn name_at(&self, index: usize) -> Option<&str>
        ensures found { IfSome result (λ a. slice_get (names_of self.now.types) index ≡ Some a.now) }
        ensures none { IfNone result (slice_get (names_of self.now.types) index ≡ None) }
    {
        self.types.name_at(index)
    }

    /// Gives a column a type, or takes it away, and gives the type that it had, if it was there. Refuses for want of memory alone.
    pub(crate) fn set(
        &mut self,
        alloc: Global,
        name: &str,
        dtype: Option<DataType>,
    ) -> Result<Option<DataType>, AllocError>
        ensures given { IfOk result (λ old. old ≡ type_in self.old name.now) }
        ensures after { OnOk result ((a : Name) → type_in self.new a ≡ (if bytes_eq a name.now then dtype else type_in self.old a)) }
        ensures over { OnOk result (IsOver self.old self.new) }
    {
        let before = self.types.set(String::from_str(alloc, name)?, dtype)?;
        let name = String::from_str(alloc, name)?;
        self.changes.push(Change { name, before })?;
        Ok(before)
    }

    /// Takes all columns away. Refuses for want of memory alone.
    pub(crate) fn clear(&mut self, alloc: Global) -> Result<(), AllocError>
        ensures over { OnOk result (IsOver self.old self.new) }
        ensures gone { OnOk result ((a : Name) → type_in self.new a ≡ None) }
    {
        let types = mem::replace(&mut self.types, Types::new(alloc));
        types.into_changes(&mut self.changes)
    }

    /// How many changes were made.
    pub(crate) fn change_count(&self) -> usize
        ensures { result ≡ length self.now.changes.items }
    {
        self.changes.len()
    }

    /// Says that a function made the changes after so many. Refuses for want of memory alone.
    pub(crate) fn mark(&mut self, count: usize) -> Result<(), AllocError>
        ensures { OnOk result (
            (self.new.types ≡ self.old.types)
            × (self.new.changes ≡ self.old.changes)
            × (self.new.marks.items ≡ self.old.marks.items ++ count ∷ [])) }
    {
        self.marks.push(count)?;
        Ok(())
    }

    /// Takes the last change back. Refuses for want of memory alone.
    fn undo_last(&mut self) -> Result<(), AllocError>
        requires { 0 < length self.old.changes.items }
        ensures len { OnOk result (length self.new.changes.items + 1 ≡ length self.old.changes.items) }
        ensures types { OnOk result ((m : ℕ) (a : Name) → m < length self.old.changes.items → type_at self.new m a ≡ type_at self.old m a) }
        ensures marks { OnOk result (self.new.marks.items ≡ self.old.marks.items) }
        ensures same { self.new.is_known ≡ self.old.is_known }
    {
        if let Some(change) = self.changes.pop() {
            let Change { name, before } = change;
            self.types.set(name, before)?;
        }
        Ok(())
    }

    /// Takes back all changes but so many first ones. Refuses for want of memory alone.
    fn undo(&mut self, count: usize) -> Result<(), AllocError>
        ensures undone { OnOk result (
            (count ≤ length self.old.changes.items → length self.new.changes.items ≡ count)
            × ((m : ℕ) (a : Name) → m ≤ count → count ≤ length self.old.changes.items → type_at self.new m a ≡ type_at self.old m a)
            × (self.new.marks.items ≡ self.old.marks.items)) }
        ensures same { self.new.is_known ≡ self.old.is_known }
    {
        for _ in count..self.changes.len() {
            self.undo_last()?;
        }
        Ok(())
    }

    /// What is known of a function is known of its input. Refuses for want of memory alone.
    pub(crate) fn descend(&mut self) -> Result<(), AllocError>
        ensures { OnOk result ((n : Unit {0}) (function : Function) (ts rest : Roses (Unit {0}) Op) → Knows self.old (more (rose n (map_function function) ts) rest) → Knows self.new ts) }
    {
        match self.marks.pop() {
            Some(count) => self.undo(count),
            None => {
                self.is_known = false;
                Ok(())
            }
        }
    }

    /// Makes the columns those that a node stores. Refuses for want of memory alone.
    pub(crate) fn restart(&mut self, alloc: Global, stored: &Schema) -> Result<(), AllocError>
        ensures { OnOk result (Shows self.new stored.now × (self.new.changes.items ≡ []) × (self.new.marks.items ≡ [])) }
    {
        *self = KnownColumns::new(alloc);
        for i in 0..stored.len() {
            if let Some((name, dtype)) = stored.get_at_index(i) {
                let owned = String::from_str(alloc, name)?;
                self.types.set(owned, Some(*dtype))?;
            }
        }
        Ok(())
    }

    /// How many functions made changes.
    pub(crate) fn function_count(&self) -> usize
        ensures { result ≡ length self.now.marks.items }
    {
        self.marks.len()
    }

    /// Says that what is there is known.
    pub(crate) fn settle(&mut self)
        ensures same { (self.new.types ≡ self.old.types) × (self.new.changes ≡ self.old.changes) × (self.new.marks ≡ self.old.marks) }
        ensures known { IsTrue self.new.is_known }
    {
        self.is_known = true;
    }
}
