// What calls answer: records, and parts of a text as byte strings.
use node::record::Record;
use node::val::{Child, Val};
use script::out::Out;

// The bytes of a part; nothing where it does not lie there.
pub fn part(o: &mut Out, s: &[u8], from: usize, to: usize) {
    if let Some(bytes) = s.get(from..to) {
        o.bytes(bytes);
    }
}

// A key and its value, or that it has none.
pub fn entry(o: &mut Out, key: &[u8], value: Val) {
    o.bytes(key);
    match value {
        Val::Ghost => o.text(b" -"),
        Val::Leaf(value) => o.bytes(value),
        Val::Child(child) => o.bytes(&child.number().to_le_bytes()),
    }
}

// The entry of a text's first record, and the text behind it; nothing where no whole record starts the text.
pub fn record<'a>(o: &mut Out, found: &'a [u8]) -> Option<&'a [u8]> {
    let r = Record::at(found, 0)?;
    entry(o, r.key(), r.value());
    found.get(r.next()..)
}

// So many records, one after another.
pub fn records(o: &mut Out, found: &[u8], count: u64) {
    let mut rest = found;
    for _ in 0..count {
        match record(o, rest) {
            Some(behind) => rest = behind,
            None => return,
        }
    }
}
