// One command, by its opcode.
use super::changing::{drop_ref_count_table, drop_table, insert, new_list};
use super::forging::{forge_drop, forge_entry};
use super::list::List;
use super::telling::list_sum;
use super::writing::{size, write};
use compare_lent::Tables;
use compare_lines::{Buffer, Fault, Fields, Line};
use directory::TableKind;

impl List {
    pub fn serve(
        &mut self,
        tables: &Tables,
        room: &mut Buffer<60000>,
        opcode: u8,
        fields: Fields,
        line: &mut Line,
    ) -> Result<(), Fault> {
        match opcode {
            0x05 => new_list(self, fields, line),
            0x06 => insert(self, tables, TableKind::Index, fields, line),
            0x07 => insert(self, tables, TableKind::Value, fields, line),
            0x08 => insert(self, tables, TableKind::RefCount, fields, line),
            0x09 => drop_table(self, tables, fields, line),
            0x0a => drop_ref_count_table(self, tables, fields, line),
            0x21 => forge_entry(self, fields, line),
            0x23 => list_sum(self, fields, line),
            0x24 => forge_drop(self, fields, line),
            0xf0 => write(self, tables, room, fields, line),
            0xf2 => size(self, tables, fields, line),
            _ => {
                line.unknown();
                Ok(())
            }
        }
    }
}
