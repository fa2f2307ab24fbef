// What a lookup does, whatever it looks in: log.rs `LogQuery`, lines 70 to 90. The second door of each call is for whoever has tested already.
ghost use Rattle.std.specs.Prelude.{◌≡◌, true, false, ℕ};
ghost use Rattle.answer.specs.declared.answer.Answer.TheVariants.{Done};
ghost use Rattle.directory.specs.declared.table.TableKind.{TableKind};
ghost use Rattle.directory.specs.declared.table.TableKind.TheVariants.{Index, Value, RefCount};
ghost use Rattle.keys.specs.Keys.{rank};
ghost use Rattle.query.specs.Query.{Looked, no_look, bytes_of, is_there, handed, handed_out, copied_by, copied_over};
ghost use Rattle.query.specs.Inner.{FoundFor};

use super::copy::copy_over;
use answer::Answer;
use directory::{IndexTableId, RefCountTableId, TableKind, ValueTableId};
use std::convert::AsSlice;

pub trait Lookup {
    // A part of a lent memory.
    type Part: AsSlice<u8> + Drop;

    // What a lookup comes to.
    ghost looked: { Self → TableKind → ℕ → Looked };

    // The rules that are tested.
    ghost ruled: { Self → TableKind → Type 0 };

    // Whether they are kept; where they aren't, a lookup answers 13.
    fn kept(&self, kind: TableKind) -> bool
        ensures holds { result ≡ true → ruled self.now kind }
        ensures done { (key : ℕ) → result ≡ true → (looked self.now kind key).answer ≡ Done }
        ensures fails { (key : ℕ) → result ≡ false → looked self.now kind key ≡ no_look };

    // The stored bytes themselves, none where nothing is found.
    fn look_kept(&self, kind: TableKind, table: u16, index: u64) -> Self::Part
        requires { ruled self.now kind }
        ensures { FoundFor (looked self.now kind (rank table index)) (Self.Part.items result) };

    fn look(&self, kind: TableKind, table: u16, index: u64) -> Result<Self::Part, Answer>
        ensures { handed_out Self.Part.items result ≡ handed (looked self.now kind (rank table index)) }
    {
        if !self.kept(kind) {
            return Err(Answer::BadState);
        }
        Ok(self.look_kept(kind, table, index))
    }

    fn with_index(&self, table: IndexTableId, index: u64) -> Result<Self::Part, Answer>
        ensures { handed_out Self.Part.items result ≡ handed (looked self.now Index (rank table.0 index)) }
    {
        self.look(TableKind::Index, table.0, index)
    }

    fn with_index_kept(&self, table: IndexTableId, index: u64) -> Self::Part
        requires { ruled self.now Index }
        ensures { Self.Part.items result ≡ bytes_of (looked self.now Index (rank table.0 index)).entry }
    {
        self.look_kept(TableKind::Index, table.0, index)
    }

    fn value_ref(&self, table: ValueTableId, index: u64) -> Result<Self::Part, Answer>
        ensures { handed_out Self.Part.items result ≡ handed (looked self.now Value (rank table.0 index)) }
    {
        self.look(TableKind::Value, table.0, index)
    }

    fn value_ref_kept(&self, table: ValueTableId, index: u64) -> Self::Part
        requires { ruled self.now Value }
        ensures { Self.Part.items result ≡ bytes_of (looked self.now Value (rank table.0 index)).entry }
    {
        self.look_kept(TableKind::Value, table.0, index)
    }

    fn ref_count(&self, table: RefCountTableId, index: u64) -> Result<Self::Part, Answer>
        ensures { handed_out Self.Part.items result ≡ handed (looked self.now RefCount (rank table.0 index)) }
    {
        self.look(TableKind::RefCount, table.0, index)
    }

    fn ref_count_kept(&self, table: RefCountTableId, index: u64) -> Self::Part
        requires { ruled self.now RefCount }
        ensures { Self.Part.items result ≡ bytes_of (looked self.now RefCount (rank table.0 index)).entry }
    {
        self.look_kept(TableKind::RefCount, table.0, index)
    }

    // A value copied out of the memory that it lies in; whether there was one.
    fn value(&self, table: ValueTableId, index: u64, dest: &mut [u8]) -> Result<bool, Answer>
        ensures told { result ≡ copied_by (looked self.now Value (rank table.0 index)) }
        ensures copied { dest.new ≡ copied_over (bytes_of (looked self.now Value (rank table.0 index)).entry) dest.old }
    {
        if !self.kept(TableKind::Value) {
            return Err(Answer::BadState);
        }
        Ok(self.value_kept(table, index, dest))
    }

    fn value_kept(&self, table: ValueTableId, index: u64, dest: &mut [u8]) -> bool
        requires { ruled self.now Value }
        ensures told { result ≡ is_there (looked self.now Value (rank table.0 index)).entry }
        ensures copied { dest.new ≡ copied_over (bytes_of (looked self.now Value (rank table.0 index)).entry) dest.old }
    {
        let stored = self.look_kept(TableKind::Value, table.0, index);
        copy_over(dest, stored.as_slice());
        !stored.as_slice().is_empty()
    }
}
