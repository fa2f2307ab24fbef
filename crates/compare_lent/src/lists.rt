// The calls of a change list, in the form that the script asks for.
use super::tables::Tables;
use answer::Answer;
use change::{Changed, LogChange};
use directory::{IndexTableId, RefCountTableId, ValueTableId};

impl Tables {
    pub fn insert_index(
        &self,
        list: LogChange,
        words: &mut [u64],
        bytes: &mut [u8],
        table: IndexTableId,
        index: u64,
        sub: u8,
        data: &[u8],
    ) -> Changed {
        if self.lent {
            lent::insert_index(list, self.shown(), words, bytes, table, index, sub, data)
        } else {
            list.insert_index(self.directory(), words, bytes, table, index, sub, data)
        }
    }

    pub fn insert_value(
        &self,
        list: LogChange,
        words: &mut [u64],
        bytes: &mut [u8],
        table: ValueTableId,
        index: u64,
        data: &[u8],
    ) -> Changed {
        if self.lent {
            lent::insert_value(list, self.shown(), words, bytes, table, index, data)
        } else {
            list.insert_value(self.directory(), words, bytes, table, index, data)
        }
    }

    pub fn insert_ref_count(
        &self,
        list: LogChange,
        words: &mut [u64],
        bytes: &mut [u8],
        table: RefCountTableId,
        index: u64,
        sub: u8,
        data: &[u8],
    ) -> Changed {
        if self.lent {
            lent::insert_ref_count(list, self.shown(), words, bytes, table, index, sub, data)
        } else {
            list.insert_ref_count(self.directory(), words, bytes, table, index, sub, data)
        }
    }

    pub fn drop_table(
        &self,
        list: LogChange,
        words: &[u64],
        bytes: &[u8],
        id: IndexTableId,
    ) -> Changed {
        if self.lent {
            lent::drop_table(list, self.shown(), words, bytes, id)
        } else {
            list.drop_table(self.directory(), words, bytes, id)
        }
    }

    pub fn drop_ref_count_table(
        &self,
        list: LogChange,
        words: &[u64],
        bytes: &[u8],
        id: RefCountTableId,
    ) -> Changed {
        if self.lent {
            lent::drop_ref_count_table(list, self.shown(), words, bytes, id)
        } else {
            list.drop_ref_count_table(self.directory(), words, bytes, id)
        }
    }

    pub fn record_size(
        &self,
        list: LogChange,
        words: &[u64],
        bytes: &[u8],
    ) -> Result<usize, Answer> {
        if self.lent {
            lent::record_size(list, self.shown(), words, bytes)
        } else {
            list.record_size(self.directory(), words, bytes)
        }
    }
}
