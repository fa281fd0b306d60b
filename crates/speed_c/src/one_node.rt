// One node, read and packed: `node::read`, `node::adopt` and `node::pack` for arguments of any kind.
ghost use Rattle.std.specs.Prelude.{◌≡◌, cond};
ghost use Rattle.speed.specs.OneNode.{answered, read_into, packable, pack_into};

// Reads a block as a root with this id and copies its entries to the slot: the bytes that they take there, or a refusal's answer.
#[unsafe(no_mangle)]
pub extern "C" fn rattle_read_node(block: &[u8], slot: &mut [u8], order: u64, oid: u64) -> u64
    ensures { answered result slot.new ≡ read_into order oid block.now slot.old }
{
    speed::one_node::rattle_read_node(block, slot, order, oid)
}

// Packs the n records of a slot, `used` bytes, as a root with the numbers of the root block `like`: false where they are not n records, or do
// not fit.
#[unsafe(no_mangle)]
pub extern "C" fn rattle_pack_node(
    dst: &mut [u8],
    slot: &[u8],
    n: usize,
    used: u64,
    heads: &[u64],
    like: &[u8],
) -> bool
    ensures { (result ≡ packable n used like.now dst.old slot.now)
        × (dst.new ≡ cond result (pack_into n heads.now like.now dst.old slot.now)
        dst.old) }
{
    speed::one_node::rattle_pack_node(dst, slot, n, used, heads, like)
}
