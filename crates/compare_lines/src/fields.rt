// The fields of a command, taken one after the other.
ghost use Rattle.std.specs.Prelude.{◌≡◌, ◌≤◌, ◌<◌, length, take, drop, IfOk, MatchResult};
ghost use Rattle.compare_lines.specs.Fields.{Took, TookNumber, TookFlag, Cut};

use super::fault::Fault;

#[derive(Clone, Copy)]
pub struct Fields<'a> {
    rest: &'a [u8],
}

impl<'a> Fields<'a> {
    pub fn of(command: &'a [u8]) -> Fields<'a>
        ensures { result.rest.now ≡ command.now }
    {
        Fields { rest: command }
    }

    // The next so many bytes.
    pub fn bytes(&mut self, n: usize) -> Result<&'a [u8], Fault>
        ensures { MatchResult result (λ bytes. (bytes.now ≡ take n self.old.rest.now) × (length bytes.now ≡ n) × (self.new.rest.now ≡ drop n self.old.rest.now)) (λ fault. (fault ≡ Fault.ShortCommand) × (length self.old.rest.now < n)) }
    {
        let Some((bytes, rest)) = self.rest.split_at_checked(n) else {
            return Err(Fault::ShortCommand);
        };
        self.rest = rest;
        Ok(bytes)
    }

    fn array<const N: usize>(&mut self) -> Result<[u8; N], Fault>
        ensures { MatchResult result (λ bytes. Took N self.old.rest.now bytes self.new.rest.now) (λ fault. Cut N self.old.rest.now fault) }
    {
        let Some((bytes, rest)) = self.rest.split_first_chunk::<N>() else {
            return Err(Fault::ShortCommand);
        };
        self.rest = rest;
        Ok(*bytes)
    }

    pub fn u8(&mut self) -> Result<u8, Fault>
        ensures { MatchResult result (λ number. TookNumber 1 self.old.rest.now number self.new.rest.now) (λ fault. Cut 1 self.old.rest.now fault) }
    {
        let [byte] = self.array::<1>()?;
        Ok(byte)
    }

    pub fn u16(&mut self) -> Result<u16, Fault>
        ensures { MatchResult result (λ number. TookNumber 2 self.old.rest.now number self.new.rest.now) (λ fault. Cut 2 self.old.rest.now fault) }
    {
        Ok(u16::from_le_bytes(self.array()?))
    }

    pub fn u32(&mut self) -> Result<u32, Fault>
        ensures { MatchResult result (λ number. TookNumber 4 self.old.rest.now number self.new.rest.now) (λ fault. Cut 4 self.old.rest.now fault) }
    {
        Ok(u32::from_le_bytes(self.array()?))
    }

    pub fn u64(&mut self) -> Result<u64, Fault>
        ensures { MatchResult result (λ number. TookNumber 8 self.old.rest.now number self.new.rest.now) (λ fault. Cut 8 self.old.rest.now fault) }
    {
        Ok(u64::from_le_bytes(self.array()?))
    }

    // All but 0 is a set flag.
    pub fn flag(&mut self) -> Result<bool, Fault>
        ensures { MatchResult result (λ set. TookFlag self.old.rest.now set self.new.rest.now) (λ fault. Cut 1 self.old.rest.now fault) }
    {
        Ok(self.u8()? != 0)
    }

    // Behind the last field.
    pub fn end(self) -> Result<(), Fault>
        ensures { MatchResult result (λ _. length self.entry.rest.now ≡ 0) (λ fault. (fault ≡ Fault.LongCommand) × (0 < length self.entry.rest.now)) }
    {
        if self.rest.is_empty() {
            Ok(())
        } else {
            Err(Fault::LongCommand)
        }
    }

    // The bytes of the blob that ends a command, behind their number.
    pub fn last_blob(mut self) -> Result<&'a [u8], Fault>
        ensures { IfOk result (λ bytes. length bytes.now ≤ 80000) }
    {
        let length = self.u32()? as usize;
        if 80000 < length {
            return Err(Fault::LongBlob);
        }
        let bytes = self.bytes(length)?;
        self.end()?;
        Ok(bytes)
    }
}
