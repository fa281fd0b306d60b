// The words of a slot: what is known of its node beside its entries (`MemNode` of write/tree.rs).
ghost use Rattle.std.specs.Prelude.{◌≡◌, ◌+◌, ◌*◌, ◌≤◌, length, eqb, option_to_list};
ghost use Rattle.seal.specs.Bytes.{splice};
ghost use Rattle.node.specs.Slot.{head_at, head_words, marked};
ghost use Rattle.node.specs.internal.SlotSteps.{read_head, with_block, with_id};

use crate::read::Node;

pub const HEAD_WORDS: usize = 9;

// Marks stay words and are no flags: the C interface lends them, and another number than 1 comes back as it was.
#[derive(Clone, Copy, Default)]
pub struct Head {
    pub level: u64,
    // How many entries the slot holds, and how many bytes their records take.
    pub count: u64,
    pub used: u64,
    // 1 where there is a block (`paddr`), and the block; 1 where there is an id (`oid`), and the id.
    pub placed: u64,
    pub block: u64,
    pub named: u64,
    pub id: u64,
    // 1 for a node that flush writes; 1 for one that was removed from the tree.
    pub dirty: u64,
    pub dead: u64,
}

// The words of a node just read from a block, whose records take `used` bytes: of a virtual tree (by_id) it has its id.
#[tactic(auto, unfolding(crate::specs::internal::SlotSteps::read_head))]
pub fn head_of(node: Node, used: usize, block: u64, by_id: bool) -> Head
    ensures { result ≡ read_head node used block by_id }
{
    let head = Head {
        level: node.level,
        count: node.nkeys,
        used: used as u64,
        ..Head::default()
    };
    head.with_block(Some(block))
        .with_id(by_id.then_some(node.oid))
}

impl Head {
    // The words of slot s.
    #[tactic(auto, using(crate::specs::laws::slot::Head::head_chunk))]
    pub fn load(heads: &[u64], s: usize) -> Head
        requires { (s + 1) * 9 ≤ length heads.now }
        ensures { result ≡ head_at heads.now s }
    {
        let (words, _) = heads.as_chunks::<HEAD_WORDS>();
        let [level, count, used, placed, block, named, id, dirty, dead] = words[s];
        Head {
            level,
            count,
            used,
            placed,
            block,
            named,
            id,
            dirty,
            dead,
        }
    }

    #[tactic(auto, using(seal::specs::laws::PartLaws::part_stored), unfolding(crate::specs::Slot::head_words))]
    pub fn store(self, heads: &mut [u64], s: usize)
        requires { (s + 1) * 9 ≤ length heads.old }
        ensures { heads.new ≡ splice heads.old (s * 9) (head_words self) }
    {
        let a = s * HEAD_WORDS;
        heads[a..a + HEAD_WORDS].copy_from_slice(&[
            self.level,
            self.count,
            self.used,
            self.placed,
            self.block,
            self.named,
            self.id,
            self.dirty,
            self.dead,
        ]);
    }

    // The node's block, if it has one.
    #[tactic(auto, using(crate::specs::laws::slot::Head::marked_is))]
    pub fn block(self) -> Option<u64>
        ensures { option_to_list result ≡ marked self.placed self.block }
    {
        (self.placed == 1).then_some(self.block)
    }

    // Its id, if it has one.
    #[tactic(auto, using(crate::specs::laws::slot::Head::marked_is))]
    pub fn id(self) -> Option<u64>
        ensures { option_to_list result ≡ marked self.named self.id }
    {
        (self.named == 1).then_some(self.id)
    }

    // The words with another block, or with none.
    pub fn with_block(self, block: Option<u64>) -> Head
        ensures { result ≡ with_block self block }
    {
        Head {
            placed: u64::from(block.is_some()),
            block: block.unwrap_or(0),
            ..self
        }
    }

    // With another id, or with none.
    pub fn with_id(self, id: Option<u64>) -> Head
        ensures { result ≡ with_id self id }
    {
        Head {
            named: u64::from(id.is_some()),
            id: id.unwrap_or(0),
            ..self
        }
    }

    // Whether flush writes the node.
    pub fn is_dirty(self) -> bool
        ensures { result ≡ eqb self.dirty 1 }
    {
        self.dirty == 1
    }

    // Whether it was removed from the tree.
    pub fn is_dead(self) -> bool
        ensures { result ≡ eqb self.dead 1 }
    {
        self.dead == 1
    }
}
