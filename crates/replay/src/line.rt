// What a line says: its words, read.
use crate::empty::{Root, Storage};
use node::order::Order;
use script::words;
use script::words::{ByteString, bytes, number, number_u32};

#[derive(Clone, Copy)]
pub enum Line<'a> {
    // An empty one, or a comment: nothing is printed for it.
    Passed,
    SetUp(SetUp<'a>),
    Call(Call<'a>),
}

// A line that sets up the image, the slots or the object map.
#[derive(Clone, Copy)]
pub enum SetUp<'a> {
    Image { blocks: u64, size: u64 },
    Slots(u64),
    Block { address: u64, bytes: ByteString<'a> },
    Seal(u64),
    Mark { address: u64, count: u64 },
    Count { chunk: u64, blocks: u64, free: u64 },
    Empty(Root),
    Map(Option<u64>),
}

// A call on the open tree, the one that opens it, or a walk.
#[derive(Clone, Copy)]
pub enum Call<'a> {
    Open {
        root: u64,
        order: Order,
        xid: u64,
    },
    Get(ByteString<'a>),
    Floor(ByteString<'a>),
    Range {
        low: ByteString<'a>,
        high: ByteString<'a>,
    },
    // A ghost where there is no value.
    Upsert {
        key: ByteString<'a>,
        value: Option<ByteString<'a>>,
    },
    Remove(ByteString<'a>),
    Put {
        id: u64,
        xid: u64,
        address: u64,
    },
    Drop(u64),
    Flush {
        xid: u64,
        next: u64,
    },
    Walk,
}

fn storage_of(word: &[u8]) -> Option<Storage> {
    match word {
        b"physical" => Some(Storage::Physical),
        b"virtual" => Some(Storage::Virtual),
        _ => None,
    }
}

fn order_of(word: &[u8]) -> Option<Order> {
    match word {
        b"pair" => Some(Order::PAIR_ORDER),
        b"byte" => Some(Order::BYTE_ORDER),
        _ => None,
    }
}

fn set_up_of<'a>(line: &[&'a [u8]]) -> Option<SetUp<'a>> {
    let line = match line {
        [b"image", blocks, size] => SetUp::Image {
            blocks: number(blocks)?,
            size: number(size)?,
        },
        [b"slots", n] => SetUp::Slots(number(n)?),
        [b"block", address, hex] => SetUp::Block {
            address: number(address)?,
            bytes: bytes(hex)?,
        },
        [b"seal", address] => SetUp::Seal(number(address)?),
        [b"mark", address, count] => SetUp::Mark {
            address: number(address)?,
            count: number(count)?,
        },
        [b"count", chunk, blocks, free] => SetUp::Count {
            chunk: number(chunk)?,
            blocks: number(blocks)?,
            free: number(free)?,
        },
        [
            b"empty",
            address,
            storage,
            id,
            xid,
            subtype,
            flags,
            key,
            value,
        ] => SetUp::Empty(Root {
            address: number(address)?,
            storage: storage_of(storage)?,
            id: number(id)?,
            xid: number(xid)?,
            subtype: number_u32(subtype)?,
            flags: number_u32(flags)?,
            key_size: number_u32(key)?,
            val_size: number_u32(value)?,
        }),
        [b"map", b"-"] => SetUp::Map(None),
        [b"map", address] => SetUp::Map(Some(number(address)?)),
        _ => return None,
    };
    Some(line)
}

fn call_of<'a>(line: &[&'a [u8]]) -> Option<Call<'a>> {
    let call = match line {
        [b"open", root, order, xid] => Call::Open {
            root: number(root)?,
            order: order_of(order)?,
            xid: number(xid)?,
        },
        [b"get", key] => Call::Get(bytes(key)?),
        [b"floor", key] => Call::Floor(bytes(key)?),
        [b"range", low, high] => Call::Range {
            low: bytes(low)?,
            high: bytes(high)?,
        },
        [b"upsert", key, b"-"] => Call::Upsert {
            key: bytes(key)?,
            value: None,
        },
        [b"upsert", key, value] => Call::Upsert {
            key: bytes(key)?,
            value: Some(bytes(value)?),
        },
        [b"remove", key] => Call::Remove(bytes(key)?),
        [b"put", id, xid, address] => Call::Put {
            id: number(id)?,
            xid: number(xid)?,
            address: number(address)?,
        },
        [b"drop", id] => Call::Drop(number(id)?),
        [b"flush", xid, next] => Call::Flush {
            xid: number(xid)?,
            next: number(next)?,
        },
        [b"walk"] => Call::Walk,
        _ => return None,
    };
    Some(call)
}

impl Call<'_> {
    // What the answer of a refused call begins with.
    pub fn name(self) -> &'static [u8] {
        match self {
            Call::Open { .. } => b"open",
            Call::Get(_) => b"get",
            Call::Floor(_) => b"floor",
            Call::Range { .. } => b"range",
            Call::Upsert { .. } => b"upsert",
            Call::Remove(_) => b"remove",
            Call::Put { .. } => b"put",
            Call::Drop(_) => b"drop",
            Call::Flush { .. } => b"flush",
            Call::Walk => b"walk refused",
        }
    }
}

// Whether a line is empty, or a comment.
fn is_passed(line: &[u8]) -> bool {
    matches!(line, [] | [b';', ..])
}

// What a line says; nothing where it is no line of the language.
pub fn parse(line: &[u8]) -> Option<Line<'_>> {
    if is_passed(line) {
        return Some(Line::Passed);
    }
    let words = words::split(words::inner(line))?;
    let words = words.as_slice();
    set_up_of(words)
        .map(Line::SetUp)
        .or_else(|| call_of(words).map(Line::Call))
}

// The same of a line that is longer than there is room for, by its start: a comment at most.
pub fn parse_long(start: &[u8]) -> Option<Line<'_>> {
    is_passed(start).then_some(Line::Passed)
}
