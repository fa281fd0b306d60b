// A node that was read, its entries copied into a slot as records (specs/Records.antt).
ghost use Rattle.std.specs.Prelude.{◌≡◌, ◌+◌, ◌*◌, ◌≤◌, length};
ghost use Rattle.seal.specs.Bytes.{splice};
ghost use Rattle.node.specs.Records.{record_of, records_of, records_length, entries_of};
ghost use Rattle.node.specs.Read.{span_at, span_length, entry_at, entries_from};

use crate::read::{ReadEntry, ReadNode};
use crate::{read, record};

impl ReadEntry<'_> {
    // Put as the record that starts at `at`; where the next starts.
    #[tactic(auto, using(crate::specs::laws::read::Adopt::one_record))]
    fn put(self, slot: &mut [u8], at: usize) -> usize
        requires { at + (4 + span_length (span_at self.read.node self.read.block.now self.index)) ≤ length slot.old }
        ensures { (slot.new ≡ splice slot.old at (record_of (entry_at self.entry.read.node self.entry.read.block.now self.entry.index)))
            × (result ≡ at + (4 + span_length (span_at self.entry.read.node self.entry.read.block.now self.entry.index))) }
    {
        let s = self.span();
        let key = read::key_in(self.read.block, s);
        let value = self.value();
        record::put_value(slot, at, key, value);
        at + 4 + key.len() + value.len()
    }
}

impl ReadNode<'_> {
    // All entries, from the slot's start on; how many bytes their records take. The slot's entries are the node's then.
    #[tactic(auto, using(crate::specs::laws::read::Accepted::copied))]
    pub fn adopt(self, slot: &mut [u8]) -> usize
        requires { 2 * length self.block.now ≤ length slot.old }
        ensures bytes { (slot.new
            ≡ splice slot.old 0 (records_of (entries_from self.entry.node self.entry.block.now 0 self.entry.node.nkeys)))
            × (result ≡ length (records_of (entries_from self.entry.node self.entry.block.now 0 self.entry.node.nkeys))) }
        ensures entries { entries_of self.entry.node.nkeys slot.new
            ≡ entries_from self.entry.node self.entry.block.now 0 self.entry.node.nkeys }
        ensures used { (records_length self.entry.node.nkeys slot.new ≡ result)
            × (result ≤ 2 * length self.entry.block.now) }
    {
        let n = self.node.nkeys as usize;
        let mut at = 0;
        for i in 0..n {
            at = self.entry(i).put(slot, at);
        }
        at
    }
}
