// What an entry holds (`Val` and `Child` of write/tree.rs): a value's bytes are lent, from where they lie or to be put.
ghost use Rattle.std.specs.Prelude.{◌≡◌};
ghost use Rattle.node.specs.Slot.{value_means};
ghost use Rattle.node.specs.internal.Children.{child_of};

#[derive(Clone, Copy)]
pub enum Child {
    // On disk: a block address (physical trees) or an object id (virtual).
    Disk(u64),
    // Loaded: its slot.
    Mem(u64),
}

#[derive(Clone, Copy)]
pub enum Val<'v> {
    Ghost,
    Leaf(&'v [u8]),
    Child(Child),
}

impl Val<'_> {
    // The child, if it is one.
    #[tactic(auto, unfolding(crate::specs::internal::Children::child_of, crate::specs::Slot::value_means, crate::specs::Slot::child_means))]
    pub fn child(self) -> Option<Child>
        ensures { result ≡ child_of (value_means self.entry) }
    {
        match self {
            Val::Child(c) => Some(c),
            _ => None,
        }
    }
}
