// What a record is made of.
ghost use Rattle.std.specs.Prelude.{◌≡◌};
ghost use Rattle.record.specs.Next.{is_end};
ghost use Rattle.record.specs.Record.{insert_of, tag_of};

use answer::Tag;
use directory::{IndexTableId, RefCountTableId, TableKind, ValueTableId};

// An insertion: into which table, whose number's type says its kind, and under which index.
#[derive(Clone, Copy)]
pub struct InsertAction<Id> {
    pub table: Id,
    pub index: u64,
}

pub type InsertIndexAction = InsertAction<IndexTableId>;

pub type InsertValueAction = InsertAction<ValueTableId>;

pub type InsertRefCountAction = InsertAction<RefCountTableId>;

#[derive(Clone, Copy)]
pub enum LogAction {
    BeginRecord,
    InsertIndex(InsertIndexAction),
    InsertValue(InsertValueAction),
    InsertRefCount(InsertRefCountAction),
    DropTable(IndexTableId),
    DropRefCountTable(RefCountTableId),
    EndRecord,
}

impl LogAction {
    // The insertion into a table of that kind.
    pub fn insert(kind: TableKind, table: u16, index: u64) -> LogAction
        ensures { result ≡ insert_of kind table index }
    {
        match kind {
            TableKind::Index => LogAction::InsertIndex(InsertIndexAction {
                table: IndexTableId(table),
                index,
            }),
            TableKind::Value => LogAction::InsertValue(InsertValueAction {
                table: ValueTableId(table),
                index,
            }),
            TableKind::RefCount => LogAction::InsertRefCount(InsertRefCountAction {
                table: RefCountTableId(table),
                index,
            }),
        }
    }

    pub fn is_end(self) -> bool
        ensures { result ≡ is_end self }
    {
        matches!(self, LogAction::EndRecord)
    }

    pub fn tag(self) -> Tag
        ensures { result.0 ≡ tag_of self }
    {
        match self {
            LogAction::BeginRecord => Tag::BEGIN_RECORD,
            LogAction::InsertIndex(_) => Tag::INSERT_INDEX,
            LogAction::InsertValue(_) => Tag::INSERT_VALUE,
            LogAction::EndRecord => Tag::END_RECORD,
            LogAction::DropTable(_) => Tag::DROP_TABLE,
            LogAction::InsertRefCount(_) => Tag::INSERT_REF_COUNT,
            LogAction::DropRefCountTable(_) => Tag::DROP_REF_COUNT_TABLE,
        }
    }
}
