//! Values that are kept as the bytes that they are read from.
ghost use Rattle.std.specs.Prelude.{◌≡◌, ℕ, List, OnOk, OnErr, IfOk};
ghost use Rattle.serde_amqp_item.specs.Item.{raw};
ghost use Rattle.serde_amqp_read.specs.Reads.{Unless, StrictBytes};
ghost use Rattle.serde_amqp_de.specs.Reads.{Reads, Refuses, HasFailed, at_of};
ghost use Rattle.serde_amqp_de.specs.Kept.{raw_taken};
ghost use Rattle.serde_amqp_de.specs.Names.{NamesKept, Named};

use crate::deserializer::Deserializer;
use serde_amqp_item::Error;
use serde_amqp_read::Read;
use std::alloc::Global;

impl<R: Read> Deserializer<R> {
    /// Reads a value of any type as its bytes: its constructor and what stands behind it, with exact sizes and
    /// counts, of which there may be any number (part 1, section 1.2). It is read by a loop, however deep it is.
    ///
    /// Errors: `Io` where the input ends; `InvalidFormatCode`, `InvalidValue`, `InvalidUtf8Encoding` and
    /// `InvalidLength` where no value comes next, and `InvalidFormatCode` in an array, whose elements have no
    /// constructor; `Memory`. After an error the reader has failed.
    #[tactic(auto, using(crate::proofs::Kept::keeping))]
    pub fn deserialize_raw(&mut self, alloc: Global) -> Result<Vec<u8>, Error>
        ensures ok { IfOk result (λ v. Reads self.old.element (at_of R.rest self.old)
            (at_of R.rest self.new) (raw v.items)) }
        ensures strict { IfOk result (λ v. StrictBytes v.items) }
        ensures element { OnOk result (self.new.element ≡ self.old.element) }
        ensures refused { Unless R.faulty result
            (Refuses raw_taken self.old.element (at_of R.rest self.old)) }
        ensures failed { OnErr result (HasFailed R.rest self.new) }
        ensures named { Named R.faulty result
            (NamesKept self.old.element (R.rest self.old.reader)) }
    {
        if self.element.is_some() {
            return Err(self.refuse(Error::InvalidFormatCode));
        }
        self.peek()?;
        let bytes = self.reader.forward_read_byte_buf(alloc)?;
        let Some(pos) = self.pos.checked_add(bytes.len()) else {
            return Err(self.refuse(Error::Memory));
        };
        self.pos = pos;
        Ok(bytes)
    }

    /// Reads a value of any type, and drops it. The bytes are held until all of them were read.
    ///
    /// Errors: as for `deserialize_raw`. After an error the reader has failed.
    pub fn deserialize_ignored_any(&mut self, alloc: Global) -> Result<(), Error>
        ensures ok { OnOk result ((text : List ℕ)
            × Reads self.old.element (at_of R.rest self.old) (at_of R.rest self.new) (raw text)) }
        ensures element { OnOk result (self.new.element ≡ self.old.element) }
        ensures refused { Unless R.faulty result
            (Refuses raw_taken self.old.element (at_of R.rest self.old)) }
        ensures failed { OnErr result (HasFailed R.rest self.new) }
        ensures named { Named R.faulty result
            (NamesKept self.old.element (R.rest self.old.reader)) }
    {
        let _bytes = self.deserialize_raw(alloc)?;
        Ok(())
    }
}
